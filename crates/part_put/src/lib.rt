// What a store writes: a word and its reference bit, and before it the barrier.
#![tactic(auto)]

ghost use Rattle.std.specs.Prelude.{◌≡◌, ◌≢◌, List, ℕ, ◌*◌, ◌≤◌, length};
ghost use Rattle.machine.specs.WellFormed.{Block};
ghost use Rattle.machine.specs.Colouring.{CellsFit};
ghost use Rattle.machine.specs.Heap.{heap};
ghost use Rattle.machine.specs.Store.{barrier, put_number, put_reference};

use machine::Regs;

// The barrier: while marking, a white target is greyed, which is 0 or a block. Answers the registers afterwards.
pub fn barrier(r: Regs, colours: &mut [u32], t: u32) -> Regs
    requires { CellsFit r.blocks colours.old × (t ≢ 0 → Block r.blocks t) }
    ensures { (ws bs : List ℕ) → heap result ws colours.new bs ≡ barrier t (heap r ws colours.old bs) }
{
    let mut s = r;
    if r.phase == machine::MARKING {
        let head = part_colours::grey_white(r.grey, colours, t);
        s.grey = head;
    }
    s
}

// Word w of the block b becomes the number v.
pub fn put_number(words: &mut [u32], bytes: &mut [u8], b: u32, w: u32, v: u32)
    requires { (length words.old ≡ 8 * length bytes.old) × Block (length bytes.old) b × (w ≤ 7) }
    ensures { (r : Regs) (cs : List ℕ) → heap r words.new cs bytes.new ≡ put_number b w v (heap r words.old cs bytes.old) }
{
    words[8 * (b as usize - 2) + w as usize] = v;
    part_cells::clear_bit(bytes, b, w as usize);
}

// Word w of the block b becomes a reference to t, or the reference 0.
pub fn put_reference(words: &mut [u32], bytes: &mut [u8], b: u32, w: u32, t: u32)
    requires { (length words.old ≡ 8 * length bytes.old) × Block (length bytes.old) b × (w ≤ 7) }
    ensures { (r : Regs) (cs : List ℕ) → heap r words.new cs bytes.new ≡ put_reference b w t (heap r words.old cs bytes.old) }
{
    words[8 * (b as usize - 2) + w as usize] = t;
    part_cells::set_bit(bytes, b, w as usize);
}

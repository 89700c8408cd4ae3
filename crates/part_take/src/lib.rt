// Taking a block: the tests of the holder and of the free list, then the first free block is taken, coloured and held.
#![tactic(auto)]

ghost use Rattle.std.specs.Prelude.{◌≡◌, ◌≢◌, List, ℕ, ◌≤◌, ◌*◌, length};
ghost use Rattle.machine.specs.WellFormed.{Block};
ghost use Rattle.machine.specs.Colouring.{CellsFit};
ghost use Rattle.machine.specs.Heap.{heap};
ghost use Rattle.machine.specs.Refusal.{refused_by};
ghost use Rattle.machine.specs.Allocate.{first_fits, list_refusal, taken, held, take_refusal};

use machine::{Refusal, Regs};

// Whether the first free block is coloured free and its link is 0 or a block.
pub fn first_fits(r: Regs, words: &[u32], colours: &[u32]) -> bool
    requires { (r.blocks ≤ 16384) × (length words.now ≡ 8 * r.blocks) × CellsFit r.blocks colours.now × Block r.blocks r.free }
    ensures { (bs : List ℕ) → result ≡ first_fits (heap r words.now colours.now bs) }
{
    part_checks::can_be_taken(r.blocks, words, colours, r.free)
}

// Refusals 8 and 7 for the free list.
pub fn list_refusal(r: Regs, words: &[u32], colours: &[u32]) -> Result<(), Refusal>
    requires { (r.blocks ≤ 16384) × (length words.now ≡ 8 * r.blocks) × CellsFit r.blocks colours.now × (r.free ≢ 0 → Block r.blocks r.free) }
    ensures { (bs : List ℕ) → refused_by result ≡ list_refusal (heap r words.now colours.now bs) }
{
    if r.free == 0 {
        if r.count == 0 {
            return Err(Refusal::NoRoom);
        }
        return Err(Refusal::Damage);
    }
    if r.count == 0 {
        return Err(Refusal::Damage);
    }
    if first_fits(r, words, colours) {
        return Ok(());
    }
    Err(Refusal::Damage)
}

// The first free block is taken off the free list, its word 0 zeroed, and coloured; the mark is raised to it. Answers the registers
// afterwards.
pub fn take(r: Regs, words: &mut [u32], colours: &mut [u32]) -> Regs
    requires { (length words.old ≡ 8 * r.blocks) × CellsFit r.blocks colours.old × Block r.blocks r.free × (1 ≤ r.count) }
    ensures { (bs : List ℕ) → heap result words.new colours.new bs ≡ taken (heap r words.old colours.old bs) }
{
    let at = 8 * (r.free as usize - 2);
    let mut s = r;
    s.free = words[at];
    s.count = r.count - 1;
    s.mark = r.mark.max(r.free);
    words[at] = 0;
    let c = part_state::new_colour(r.phase, r.position, r.free);
    part_colours::paint(colours, r.free, c);
    s
}

// The reference to x is stored: in word w of b, or in the root where b is 0. Answers the registers afterwards.
pub fn hold(r: Regs, words: &mut [u32], bytes: &mut [u8], b: u32, w: u32, x: u32) -> Regs
    requires { (length words.old ≡ 8 * length bytes.old) × (b ≢ 0 → Block (length bytes.old) b × (w ≤ 7)) }
    ensures { (cs : List ℕ) → heap result words.new cs bytes.new ≡ held b w x (heap r words.old cs bytes.old) }
{
    if b == 0 {
        let mut s = r;
        s.root = x;
        return s;
    }
    part_put::put_reference(words, bytes, b, w, x);
    r
}

// Refusals 8 and 5 for the holder, which is tested after the units, then 8 and 7 for the free list.
pub fn take_refusal(r: Regs, words: &[u32], colours: &[u32], b: u32) -> Result<(), Refusal>
    requires { (r.blocks ≤ 16384) × (length words.now ≡ 8 * r.blocks) × CellsFit r.blocks colours.now × (r.free ≢ 0 → Block r.blocks r.free) × (b ≢ 0 → Block r.blocks b) }
    ensures { (bs : List ℕ) → refused_by result ≡ take_refusal b (heap r words.now colours.now bs) }
{
    part_checks::holder_after(r, colours, b)?;
    list_refusal(r, words, colours)
}

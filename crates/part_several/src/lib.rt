// Before several blocks are taken at once: the tests of the holder and of the first n of the free list. All of them stand before the
// first take. How the blocks are taken and what is filled in is the call's own.
#![tactic(auto)]

ghost use Rattle.std.specs.Prelude.{◌≡◌, ◌≢◌, List, ℕ, ◌≤◌, ◌*◌, length};
ghost use Rattle.machine.specs.WellFormed.{Block};
ghost use Rattle.machine.specs.Colouring.{coloured, CellsFit};
ghost use Rattle.machine.specs.Heap.{heap};
ghost use Rattle.machine.specs.Refusal.{refused_by};
ghost use Rattle.machine.specs.Several.{frees, amongst, head_refusal, several_refusal, take_several_refusal};
ghost use Rattle.part_several.specs.Walk.{fits_at, walked_to, Within};

use machine::{Refusal, Regs};

// Whether a is a block that can be taken: coloured free, with a link that is 0 or a block. It is 0 or a block.
pub fn fits_at(m: u32, words: &[u32], colours: &[u32], a: u32) -> bool
    requires { (m ≤ 16384) × (length words.now ≡ 8 * m) × CellsFit m colours.now × (a ≢ 0 → Block m a) }
    ensures { (g : ℕ) → result ≡ fits_at (coloured m g colours.now) words.now a }
{
    a != 0 && part_checks::can_be_taken(m, words, colours, a)
}

// The last of n blocks that can be taken, from a on by their links; 0 where one of them can't.
// Kept: 0, which is no block, for none: the definition `walked_to` gives it, from which `several_refusal` is proved.
pub fn walked_to(m: u32, words: &[u32], colours: &[u32], head: u32, n: u32) -> u32
    requires { (m ≤ 16384) × (length words.now ≡ 8 * m) × CellsFit m colours.now × (head ≢ 0 → Block m head) }
    ensures { (g : ℕ) → result ≡ walked_to (coloured m g colours.now) words.now n head 0 }
{
    let mut a = head;
    let mut last = 0;
    for _ in 0..n {
        if !fits_at(m, words, colours, a) {
            return 0;
        }
        last = a;
        a = words[8 * (a as usize - 2)];
    }
    last
}

// Whether x is one of the n blocks from a on, by their links.
pub fn met(words: &[u32], head: u32, n: u32, x: u32) -> bool
    requires { Within words.now n head }
    ensures { (r : Regs) (cs bs : List ℕ) → result ≡ amongst x (frees n head (heap r words.now cs bs)) }
{
    let mut a = head;
    for _ in 0..n {
        if a == x {
            return true;
        }
        a = words[8 * (a as usize - 2)];
    }
    false
}

// Refusal 8 for a free head that is 0 while the count isn't, or the reverse.
pub fn head_refusal(head: u32, count: u32) -> Result<(), Refusal>
    ensures { refused_by result ≡ head_refusal head count }
{
    if (head == 0) == (count == 0) {
        return Ok(());
    }
    Err(Refusal::Damage)
}

// Refusals 8 and 7 for the first n of the free list.
pub fn several_refusal(r: Regs, words: &[u32], colours: &[u32], n: u32) -> Result<(), Refusal>
    requires { (r.blocks ≤ 16384) × (length words.now ≡ 8 * r.blocks) × CellsFit r.blocks colours.now × (r.free ≢ 0 → Block r.blocks r.free) × (1 ≤ n) }
    ensures { (bs : List ℕ) → refused_by result ≡ several_refusal n (heap r words.now colours.now bs) }
{
    head_refusal(r.free, r.count)?;
    if r.count < n {
        return Err(Refusal::NoRoom);
    }
    let last = walked_to(r.blocks, words, colours, r.free, n);
    if last == 0 {
        return Err(Refusal::Damage);
    }
    if met(words, r.free, n - 1, last) {
        return Err(Refusal::Damage);
    }
    Ok(())
}

// Refusals 8 and 5 for the holder, which is tested after the units, then 8 and 7 for the first n of the free list.
pub fn take_several_refusal(
    r: Regs,
    words: &[u32],
    colours: &[u32],
    n: u32,
    b: u32,
) -> Result<(), Refusal>
    requires { (r.blocks ≤ 16384) × (length words.now ≡ 8 * r.blocks) × CellsFit r.blocks colours.now × (r.free ≢ 0 → Block r.blocks r.free) × (1 ≤ n) × (b ≢ 0 → Block r.blocks b) }
    ensures { (bs : List ℕ) → refused_by result ≡ take_several_refusal n b (heap r words.now colours.now bs) }
{
    part_checks::holder_after(r, colours, b)?;
    several_refusal(r, words, colours, n)
}

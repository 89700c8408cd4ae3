// Format: every block free, in rising order, and fresh registers.
#![tactic(auto)]

ghost use Rattle.std.specs.Prelude.{◌≡◌, ◌*◌, ◌≤◌, length};
ghost use Rattle.machine.specs.Registers.{fresh_regs};
ghost use Rattle.machine.specs.Heap.{heap};
ghost use Rattle.machine.specs.Answers.{given};
ghost use Rattle.machine.specs.Format.{free_list, format};

use machine::{Outcome, Refusal, Regs};

// The words of m free blocks, linked in rising order; the last one's link is 0.
fn link_all(words: &mut [u32], m: u32)
    requires { (1 ≤ m) × (m ≤ 16384) × (length words.old ≡ 8 * m) }
    ensures { words.new ≡ free_list m 2 }
{
    // Kept: a range. With chunks_exact_mut the proof did not close: of a buffer lent out by chunks it knows the length alone.
    let last = m + 1;
    for b in machine::FIRST..last {
        let at = 8 * (b as usize - 2);
        part_cells::clear(&mut words[at..at + 8], b + 1);
    }
    let at = 8 * (last as usize - 2);
    part_cells::clear(&mut words[at..at + 8], 0);
}

// The registers of a fresh heap of m blocks with pace u.
fn fresh_regs(r: Regs, m: u32, u: u32) -> Regs
    ensures { result ≡ fresh_regs m u }
{
    let mut s = r;
    s.blocks = m;
    s.pace = u;
    s.phase = machine::IDLE;
    s.grey = machine::NO_GREY;
    s.free = machine::FIRST;
    s.count = m;
    s.position = 0;
    s.root = 0;
    s.cycle = 0;
    s.mark = machine::NONE_USED;
    s
}

// Format (M, U), or refusal 1.
pub fn format(
    r: Regs,
    words: &mut [u32],
    colours: &mut [u32],
    bytes: &mut [u8],
    m: u32,
    u: u32,
) -> Outcome
    ensures { given result words.new colours.new bytes.new ≡ format m u (heap r words.old colours.old bytes.old) }
{
    if part_checks::fits(m, u, words.len(), colours.len(), bytes.len()) {
        link_all(words, m);
        part_colours::fresh(colours);
        part_cells::fresh(bytes);
        return part_checks::done(fresh_regs(r, m, u), 0);
    }
    part_checks::refused(r, Refusal::Unfit.into())
}

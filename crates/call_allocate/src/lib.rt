// Allocate: its units first, then the tests of the holder and of the free list, then the taking.
#![tactic(auto)]

ghost use Rattle.std.specs.Prelude.{◌≡◌, ◌≢◌, ◌≤◌};
ghost use Rattle.machine.specs.Tests.{◌▷◌};
ghost use Rattle.machine.specs.WellFormed.{Block};
ghost use Rattle.machine.specs.Heap.{heap};
ghost use Rattle.machine.specs.Ready.{Ready};
ghost use Rattle.machine.specs.Answers.{given};
ghost use Rattle.machine.specs.Refusal.{refused_by};
ghost use Rattle.machine.specs.Entry.{entry, holder_place};
ghost use Rattle.machine.specs.Units.{stopped};
ghost use Rattle.machine.specs.Allocate.{allocated, allocate};

use machine::{Outcome, Refusal, Regs};

// Refusals 1, 2 and 3, which stand before the units.
fn start_refusal(
    r: Regs,
    words: &[u32],
    colours: &[u32],
    bytes: &[u8],
    b: u32,
    w: u32,
) -> Result<(), Refusal>
    ensures { refused_by result ≡ entry (heap r words.now colours.now bytes.now) ▷ holder_place r.blocks b w }
{
    part_checks::entry(r, words, colours, bytes)?;
    part_checks::holder_place(r.blocks, b, w)
}

// What an allocation does once its units are done.
pub fn allocate_after(
    r: Regs,
    words: &mut [u32],
    colours: &mut [u32],
    bytes: &mut [u8],
    units: u32,
    b: u32,
    w: u32,
) -> Outcome
    requires { Ready (heap r words.old colours.old bytes.old) × (b ≢ 0 → Block r.blocks b × (w ≤ 7)) }
    ensures { given result words.new colours.new bytes.new ≡ allocated b w (stopped 0 units (heap r words.old colours.old bytes.old)) }
{
    if let Err(refusal) = part_take::take_refusal(r, &words[..], &colours[..], b) {
        return part_checks::answered(r, refusal.into(), 0, units);
    }
    let s = part_take::take(r, words, colours);
    let t = part_take::hold(s, words, bytes, b, w, r.free);
    part_checks::answered(t, 0, r.free, units)
}

// Allocate: a new block for word w of the block b, or with 0, 0 for the root. Its value is the new block.
pub fn allocate(
    r: Regs,
    words: &mut [u32],
    colours: &mut [u32],
    bytes: &mut [u8],
    b: u32,
    w: u32,
) -> Outcome
    ensures { given result words.new colours.new bytes.new ≡ allocate b w (heap r words.old colours.old bytes.old) }
{
    if let Err(refusal) = start_refusal(r, &words[..], &colours[..], &bytes[..], b, w) {
        return part_checks::refused(r, refusal.into());
    }
    let ran = part_units::run(r, words, colours, bytes, part_units::units_due(r));
    let Ok(()) = ran.end else {
        return part_checks::answered(ran.regs, Refusal::Damage.into(), 0, ran.units);
    };
    allocate_after(ran.regs, words, colours, bytes, ran.units, b, w)
}

// Allocate chain: n times the units of an allocation first, then the tests of the holder and of the first n of the free list, then
// the taking, which nothing can stop any more.
#![tactic(auto)]

ghost use Rattle.std.specs.Prelude.{◌≡◌, ◌≢◌, ◌≤◌};
ghost use Rattle.machine.specs.Tests.{◌▷◌};
ghost use Rattle.machine.specs.WellFormed.{Block};
ghost use Rattle.machine.specs.Heap.{heap};
ghost use Rattle.machine.specs.Ready.{Ready};
ghost use Rattle.machine.specs.Refusal.{refused_by};
ghost use Rattle.machine.specs.Entry.{entry, holder_place};
ghost use Rattle.machine.specs.Answers.{given};
ghost use Rattle.machine.specs.Units.{stopped};
ghost use Rattle.machine.specs.Several.{several_taken};
ghost use Rattle.machine.specs.Chain.{chain, chain_length, allocate_chain};

use machine::{Outcome, Refusal, Regs};

// Refusal 3 for a chain that isn't 1 to 256 blocks long.
pub fn chain_length(n: u32) -> Result<(), Refusal>
    ensures { refused_by result ≡ chain_length n }
{
    if n < 1 {
        return Err(Refusal::NoPlace);
    }
    if n > machine::MOST_CHAIN {
        return Err(Refusal::NoPlace);
    }
    Ok(())
}

// Refusal 3 for the holder, then for the length.
pub fn chain_place(m: u32, b: u32, w: u32, n: u32) -> Result<(), Refusal>
    requires { m ≤ 16384 }
    ensures { refused_by result ≡ holder_place m b w ▷ chain_length n }
{
    part_checks::holder_place(m, b, w)?;
    chain_length(n)
}

// Refusals 1, 2 and 3, which stand before the units.
fn start_refusal(
    r: Regs,
    words: &[u32],
    colours: &[u32],
    bytes: &[u8],
    b: u32,
    w: u32,
    n: u32,
) -> Result<(), Refusal>
    ensures { refused_by result ≡ entry (heap r words.now colours.now bytes.now) ▷ (holder_place r.blocks b w ▷ chain_length n) }
{
    part_checks::entry(r, words, colours, bytes)?;
    chain_place(r.blocks, b, w, n)
}

// What the call does once its units are done.
pub fn chain_after(
    r: Regs,
    words: &mut [u32],
    colours: &mut [u32],
    bytes: &mut [u8],
    units: u32,
    b: u32,
    w: u32,
    n: u32,
) -> Outcome
    requires { Ready (heap r words.old colours.old bytes.old) × (b ≢ 0 → Block r.blocks b × (w ≤ 7)) × (1 ≤ n) }
    ensures { given result words.new colours.new bytes.new ≡ several_taken chain n b w (stopped 0 units (heap r words.old colours.old bytes.old)) }
{
    let tested = part_several::take_several_refusal(r, &words[..], &colours[..], n, b);
    if let Err(refusal) = tested {
        return part_checks::answered(r, refusal.into(), 0, units);
    }
    let s = part_chain::serve_chain(r, words, colours, bytes, b, w, n);
    part_checks::answered(s, 0, r.free, units)
}

// Allocate chain: n new blocks for word w of the block b, or with 0, 0 for the root. Its value is the first.
pub fn allocate_chain(
    r: Regs,
    words: &mut [u32],
    colours: &mut [u32],
    bytes: &mut [u8],
    b: u32,
    w: u32,
    n: u32,
) -> Outcome
    ensures { given result words.new colours.new bytes.new ≡ allocate_chain b w n (heap r words.old colours.old bytes.old) }
{
    if let Err(refusal) = start_refusal(r, &words[..], &colours[..], &bytes[..], b, w, n) {
        return part_checks::refused(r, refusal.into());
    }
    let ran = part_units::run(r, words, colours, bytes, n * part_units::units_due(r));
    let Ok(()) = ran.end else {
        return part_checks::answered(ran.regs, Refusal::Damage.into(), 0, ran.units);
    };
    chain_after(ran.regs, words, colours, bytes, ran.units, b, w, n)
}

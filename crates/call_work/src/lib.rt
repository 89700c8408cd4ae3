// Work: units of the collector, as many as the running program asks for.
#![tactic(auto)]

ghost use Rattle.std.specs.Prelude.{◌≡◌};
ghost use Rattle.machine.specs.Heap.{heap};
ghost use Rattle.machine.specs.Answers.{given};
ghost use Rattle.machine.specs.Units.{damage_number};
ghost use Rattle.machine.specs.Work.{work};

use machine::{Damaged, Outcome, Refusal, Regs};

// The refusal number of units that ended so, or 0.
fn number_of(end: Result<(), Damaged>) -> u32
    ensures { result ≡ damage_number end }
{
    match end {
        Ok(()) => 0,
        Err(_) => Refusal::Damage.into(),
    }
}

// Work: n units, n at most 65,535; where n is 0 nothing is run. Damage ends it with 8, and the units finished before it stand and are counted.
pub fn work(r: Regs, words: &mut [u32], colours: &mut [u32], bytes: &mut [u8], n: u32) -> Outcome
    ensures { given result words.new colours.new bytes.new ≡ work n (heap r words.old colours.old bytes.old) }
{
    if let Err(refusal) = part_checks::entry(r, &words[..], &colours[..], &bytes[..]) {
        return part_checks::refused(r, refusal.into());
    }
    if machine::MOST_UNITS < n {
        return part_checks::refused(r, Refusal::TooManyUnits.into());
    }
    if n == 0 {
        return part_checks::done(r, 0);
    }
    let ran = part_units::run(r, words, colours, bytes, n);
    part_checks::answered(ran.regs, number_of(ran.end), 0, ran.units)
}

// A unit that sweeps a block: by its colour the block is freed, whitened or passed, and the position goes on by one. In a row of such
// units the sweep's end is met once, behind the last of them.
#![tactic(auto)]

ghost use Rattle.std.specs.Prelude.{◌≡◌, List, ℕ, ◌+◌, ◌-◌, ◌≤◌, ◌<◌, ltb, if◌then◌else◌};
ghost use Rattle.machine.specs.declared.Step.TheVariants.{Reclaim};
ghost use Rattle.machine.specs.Registers.{sweeping, with_position, sweep_end};
ghost use Rattle.machine.specs.WellFormed.{Block};
ghost use Rattle.machine.specs.Colouring.{CellsFit};
ghost use Rattle.machine.specs.Heap.{heap};
ghost use Rattle.machine.specs.Ready.{Ready};
ghost use Rattle.machine.specs.OneUnit.{whitened, act, unit, ended};
ghost use Rattle.part_step.specs.Going.{Went};
ghost use Rattle.part_sweep.specs.Ending.{settled, settling, Onward};

use machine::{Colour, Damaged, Ran, Regs, Step};

// The last block that a sweep reaches: the mark.
pub fn sweep_end(r: Regs) -> u32
    ensures { result ≡ sweep_end r }
{
    r.mark
}

// The position goes on by one, past the sweep's last block too.
pub fn onward(r: Regs) -> Regs
    requires { r.position ≤ 16385 }
    ensures { result ≡ with_position (r.position + 1) r }
{
    let mut s = r;
    s.position = r.position + 1;
    s
}

// A sweep that has gone past its last block has ended.
pub fn settled(r: Regs) -> Regs
    requires { sweep_end r ≤ 16385 }
    ensures { result ≡ settled r }
{
    let mut s = r;
    if r.position == sweep_end(r) + 1 {
        s.phase = machine::IDLE;
        s.position = 0;
    }
    s
}

// Where the position stands once k units are done, or the sweep has gone past its last block.
pub fn stop(r: Regs, k: u32) -> u32
    requires { (sweep_end r ≤ 16385) × (r.position ≤ sweep_end r) }
    ensures { result ≡ (if ltb k (sweep_end r + 1 - r.position) then r.position + k else sweep_end r + 1) }
{
    let past = sweep_end(r) + 1;
    if k < past - r.position {
        return r.position + k;
    }
    past
}

// Sweeping: the white block at the position is freed.
pub fn reclaim(
    r: Regs,
    words: &mut [u32],
    colours: &mut [u32],
    bytes: &mut [u8],
) -> Result<Regs, Damaged>
    requires { Ready (heap r words.old colours.old bytes.old) × Block r.blocks r.position }
    ensures { (ended r (settling result) words.new colours.new bytes.new ≡ act Reclaim (heap r words.old colours.old bytes.old)) × Onward r result }
{
    if r.count == r.blocks {
        return Err(Damaged);
    }
    let at = 8 * (r.position as usize - 2);
    part_cells::clear(&mut words[at..at + 8], r.free);
    part_colours::paint(colours, r.position, Colour::Free);
    part_cells::clear_byte(bytes, r.position);
    let mut s = r;
    s.free = r.position;
    s.count = r.count + 1;
    Ok(onward(s))
}

// Sweeping: the black block at the position becomes white.
pub fn whiten(r: Regs, colours: &mut [u32]) -> Regs
    requires { (r.blocks ≤ 16384) × CellsFit r.blocks colours.old × Block r.blocks r.position }
    ensures { ((ws bs : List ℕ) → heap (settled result) ws colours.new bs ≡ whitened (heap r ws colours.old bs)) × (result ≡ with_position (r.position + 1) r) }
{
    part_colours::paint(colours, r.position, Colour::White);
    onward(r)
}

// A unit while sweeping, but that the sweep's end is left to the last of them.
pub fn sweep_unit(
    r: Regs,
    words: &mut [u32],
    colours: &mut [u32],
    bytes: &mut [u8],
) -> Result<Regs, Damaged>
    requires { Ready (heap r words.old colours.old bytes.old) × (r.phase ≡ sweeping) }
    ensures { (ended r (settling result) words.new colours.new bytes.new ≡ unit (heap r words.old colours.old bytes.old)) × Onward r result }
{
    let word = part_colours::word_of(&colours[..], r.position);
    match part_step::step(r.blocks, r.phase, r.grey, word) {
        Step::Reclaim => reclaim(r, words, colours, bytes),
        Step::Whiten => Ok(whiten(r, colours)),
        Step::Pass => Ok(onward(r)),
        _ => Err(Damaged),
    }
}

// At most n units, as long as the sweep lasts.
// Kept: the loop counts no index: where it stands is the register of the position, which a unit moves on.
pub fn sweeps(r: Regs, words: &mut [u32], colours: &mut [u32], bytes: &mut [u8], n: u32) -> Ran
    requires { Ready (heap r words.old colours.old bytes.old) × (r.phase ≡ sweeping) × (1 ≤ n) }
    ensures { Went n (heap r words.old colours.old bytes.old) result words.new colours.new bytes.new }
{
    let last = stop(r, n);
    let mut s = r;
    while s.position != last {
        let Ok(next) = sweep_unit(s, words, colours, bytes) else {
            return Ran {
                regs: s,
                units: s.position - r.position,
                end: Err(Damaged),
            };
        };
        s = next;
    }
    Ran {
        regs: settled(s),
        units: s.position - r.position,
        end: Ok(()),
    }
}

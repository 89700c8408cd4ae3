// The collector: n units in a row. Units of one phase are done in a loop of that phase, which keeps what changes in machine
// registers; `run` goes from loop to loop. Here are the units that begin a cycle and that end marking, which come alone, and how many
// units an allocation has to pay.
#![tactic(auto)]

ghost use Rattle.std.specs.Prelude.{◌≡◌, ℕ, ◌≤◌, ◌≢◌, List, length, Ok};
ghost use Rattle.machine.specs.Registers.{idle, marking};
ghost use Rattle.machine.specs.Colouring.{coloured, CellsFit};
ghost use Rattle.machine.specs.WellFormed.{Block};
ghost use Rattle.machine.specs.Heap.{heap};
ghost use Rattle.machine.specs.Ready.{Ready};
ghost use Rattle.machine.specs.OneUnit.{word_met, begun, turned};
ghost use Rattle.machine.specs.Units.{run, ran};
ghost use Rattle.machine.specs.Allocate.{units_due};
ghost use Rattle.part_step.specs.Going.{Went};

use machine::{Damaged, Ran, Regs, Step};

// Idle: a cycle begins, and a root that isn't 0 becomes grey.
pub fn begin(r: Regs, colours: &mut [u32]) -> Regs
    requires { r.root ≢ 0 → Block (length colours.old) r.root }
    ensures { (ws bs : List ℕ) → heap result ws colours.new bs ≡ begun (heap r ws colours.old bs) }
{
    let mut s = r;
    s.phase = machine::MARKING;
    s.cycle = r.cycle.wrapping_add(1);
    if r.root == 0 {
        return s;
    }
    let head = part_colours::to_grey(r.grey, colours, r.root);
    s.grey = head;
    s
}

// Marking, with no grey block left: the sweep begins, or where no block was ever handed out the cycle ends.
pub fn turn(r: Regs) -> Regs
    ensures { (ws cs bs : List ℕ) → heap result ws cs bs ≡ turned (heap r ws cs bs) }
{
    let mut s = r;
    if part_sweep::sweep_end(r) == machine::NONE_USED {
        s.phase = machine::IDLE;
        s.position = 0;
        return s;
    }
    s.phase = machine::SWEEPING;
    s.position = machine::FIRST;
    s
}

// The colour word of the block that a unit meets: the root when idle, the first grey block while marking, else the block at the
// position. It is white where there is none.
pub fn met_word(r: Regs, colours: &[u32]) -> u32
    requires { (r.blocks ≤ 16384) × CellsFit r.blocks colours.now × (r.phase ≢ idle → r.phase ≢ marking → Block r.blocks r.position) }
    ensures { result ≡ word_met r (coloured r.blocks r.grey colours.now) }
{
    let phase = r.phase;
    match phase {
        machine::IDLE => part_colours::word_met(r.blocks, colours, r.root),
        machine::MARKING => part_colours::word_met(r.blocks, colours, r.grey),
        _ => part_colours::word_of(colours, r.position),
    }
}

// One unit that was done.
pub fn single(r: Regs) -> Ran
    ensures { result ≡ (record { regs = r; units = 1; end = Ok tt }) }
{
    Ran {
        regs: r,
        units: 1,
        end: Ok(()),
    }
}

// The next units, at most n: the step that phase, grey head and colour word pick begins a cycle, turns, marks or sweeps, and units
// that mark or sweep go on as long as their phase does. At least one unit is done, or damage ended it.
pub fn stretch(r: Regs, words: &mut [u32], colours: &mut [u32], bytes: &mut [u8], n: u32) -> Ran
    requires { Ready (heap r words.old colours.old bytes.old) × (1 ≤ n) }
    ensures { Went n (heap r words.old colours.old bytes.old) result words.new colours.new bytes.new }
{
    let word = met_word(r, &colours[..]);
    match part_step::step(r.blocks, r.phase, r.grey, word) {
        Step::Begin => single(begin(r, colours)),
        Step::Turn => single(turn(r)),
        Step::Mark => part_mark::marks(r, &words[..], colours, &bytes[..], n),
        Step::Damage => Ran {
            regs: r,
            units: 0,
            end: Err(Damaged),
        },
        _ => part_sweep::sweeps(r, words, colours, bytes, n),
    }
}

// n units, stopping at the first damage: the units finished before it stand and are counted.
// Kept: a turn of the loop does as many units as their phase lasts, so that no range counts them.
pub fn run(r: Regs, words: &mut [u32], colours: &mut [u32], bytes: &mut [u8], n: u32) -> Ran
    requires { Ready (heap r words.old colours.old bytes.old) }
    ensures { ran result words.new colours.new bytes.new ≡ run n 0 (heap r words.old colours.old bytes.old) }
{
    let mut s = r;
    let mut left = n;
    while left != 0 {
        let o = stretch(s, words, colours, bytes, left);
        let Ok(()) = o.end else {
            return Ran {
                units: n - left + o.units,
                ..o
            };
        };
        s = o.regs;
        left -= o.units;
    }
    Ran {
        regs: s,
        units: n,
        end: Ok(()),
    }
}

// The units that an allocation does first: the pace, or at pace 0 twice M / F rounded up, F being the free count, 0 counted as 1.
pub fn units_due(r: Regs) -> u32
    requires { (r.blocks ≤ 16384) × (r.count ≤ r.blocks) }
    ensures { result ≡ units_due r }
{
    if r.pace != 0 {
        return r.pace;
    }
    2 * r.blocks.div_ceil(r.count.max(1))
}

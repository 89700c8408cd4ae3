// What a number is to a call. Phase and position are looked at here alone: for the state of a block, and beside it for the two
// questions that are no states, whether a block may be black and what colour a new one gets.
#![tactic(auto)]

ghost use Rattle.std.specs.Prelude.{◌≡◌, ◌≤◌, eqb, if◌then◌else◌};
ghost use Rattle.machine.specs.declared.Regs.{Regs};
ghost use Rattle.machine.specs.Registers.{marking, sweeping};
ghost use Rattle.machine.specs.WellFormed.{Block};
ghost use Rattle.machine.specs.Colouring.{coloured, CellsFit};
ghost use Rattle.machine.specs.State.{ahead, state_from, state_in, may_be_black, new_colour};

use machine::{Colour, State};

// Whether the sweep has not reached b yet.
pub fn ahead(phase: u32, position: u32, b: u32) -> bool
    ensures { (r : Regs) → r.phase ≡ phase → r.position ≡ position → result ≡ ahead r b }
{
    phase == machine::SWEEPING && position <= b
}

// The state of b, whose colour is c.
pub fn state_from(phase: u32, position: u32, b: u32, c: Colour) -> State
    ensures { (r : Regs) → r.phase ≡ phase → r.position ≡ position → result ≡ state_from r b c }
{
    match c {
        Colour::White => {
            if ahead(phase, position, b) {
                State::Doomed
            } else {
                State::LiveWhite
            }
        }
        Colour::Grey => State::Grey,
        Colour::Black => State::Black,
        Colour::Free => State::Free,
        Colour::Outside => State::Outside,
    }
}

// The state of the block b.
pub fn state_at(m: u32, phase: u32, position: u32, colours: &[u32], b: u32) -> State
    requires { (m ≤ 16384) × CellsFit m colours.now × Block m b }
    ensures { (r : Regs) → r.blocks ≡ m → r.phase ≡ phase → r.position ≡ position → result ≡ state_in r (coloured r.blocks r.grey colours.now) b }
{
    state_from(phase, position, b, part_colours::colour_at(m, colours, b))
}

// The state of b, which is any number.
pub fn state_of(m: u32, phase: u32, position: u32, colours: &[u32], b: u32) -> State
    requires { (m ≤ 16384) × CellsFit m colours.now }
    ensures { (r : Regs) → r.blocks ≡ m → r.phase ≡ phase → r.position ≡ position → result ≡ state_in r (coloured r.blocks r.grey colours.now) b }
{
    state_from(phase, position, b, part_colours::colour_of(m, colours, b))
}

// Above every number of a block.
const NO_NUMBER: u64 = 4_294_967_296;

// From which number on a block may be black: all of them while marking, those that the sweep has not reached yet, none when idle. A
// loop that takes several blocks works this out once.
fn black_from(phase: u32, position: u32) -> u64
    ensures { result ≡ (if eqb phase marking then 0 else if eqb phase sweeping then position else 4_294_967_296) }
{
    match phase {
        machine::MARKING => 0,
        machine::SWEEPING => position as u64,
        _ => NO_NUMBER,
    }
}

// Whether the block b may be black.
pub fn may_be_black(phase: u32, position: u32, b: u32) -> bool
    ensures { (r : Regs) → r.phase ≡ phase → r.position ≡ position → result ≡ may_be_black r b }
{
    black_from(phase, position) <= b as u64
}

// The colour of the new block b.
pub fn new_colour(phase: u32, position: u32, b: u32) -> Colour
    ensures { (r : Regs) → r.phase ≡ phase → r.position ≡ position → result ≡ new_colour r b }
{
    if may_be_black(phase, position, b) {
        return Colour::Black;
    }
    Colour::White
}

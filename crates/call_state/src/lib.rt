// State, of document 02's request L5: what a number is, told to the host.
#![tactic(auto)]

ghost use Rattle.std.specs.Prelude.{◌≡◌};
ghost use Rattle.machine.specs.Heap.{heap};
ghost use Rattle.machine.specs.Tell.{state_number, tell_state};

use machine::{Answer, Regs, State};

// The number that a state is told by.
// Kept: a match. The numbers are the C header's, and `s as u32 + 1` would rest on the order in which the enum has its states.
fn number(s: State) -> u32
    ensures { result ≡ state_number s }
{
    match s {
        State::LiveWhite => machine::TOLD_LIVE_WHITE,
        State::Doomed => machine::TOLD_DOOMED,
        State::Grey => machine::TOLD_GREY,
        State::Black => machine::TOLD_BLACK,
        State::Free => machine::TOLD_FREE,
        State::Outside => machine::TOLD_OUTSIDE,
    }
}

// State: what b is, which is any number. It refuses by 1 and 2 alone, and changes nothing.
pub fn state(r: Regs, words: &[u32], colours: &[u32], bytes: &[u8], b: u32) -> Answer
    ensures { (record { answer = result; heap = heap r words.now colours.now bytes.now }) ≡ tell_state b (heap r words.now colours.now bytes.now) }
{
    if let Err(refusal) = part_checks::entry(r, words, colours, bytes) {
        return Answer {
            refusal: refusal.into(),
            ..Answer::default()
        };
    }
    let s = part_state::state_of(r.blocks, r.phase, r.position, colours, b);
    Answer {
        value: number(s),
        ..Answer::default()
    }
}

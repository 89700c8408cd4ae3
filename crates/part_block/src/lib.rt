// A block wherever it lies, in a heap's buffers or in an image: what is read of it, its colour and state, and the audit's tests of its
// own values.
#![tactic(auto)]

pub mod read; // read.rt: the trait that reads of a block

ghost use Rattle.std.specs.Prelude.{◌≡◌, Bool, false, ◌&&◌, List, ℕ, eqb};
ghost use Rattle.machine.specs.declared.Regs.{Regs};
ghost use Rattle.machine.specs.declared.State.TheVariants.{Grey, Black, Free};
ghost use Rattle.machine.specs.WellFormed.{Block};
ghost use Rattle.machine.specs.Block.{byte_of, eight_words, references};
ghost use Rattle.machine.specs.Colouring.{Colouring, is_free};
ghost use Rattle.machine.specs.Heap.{colouring, colour_of, references_of};
ghost use Rattle.machine.specs.State.{state_in, state_of};
ghost use Rattle.machine.specs.Audit.{may_be_named, may_name_all, zero_from, state_passes, mark_passes, block_passes};
ghost use Rattle.part_block.specs.Asked.{answered};

use machine::{Colour, State};
use read::Blocks;

// What is left to ask of a block: nothing, as it passes or fails; or what its references name, strictly or not.
#[derive(Clone, Copy)]
pub enum Asked {
    Passes,
    Fails,
    Names,
    NamesStrictly,
}

// The colour of b, which is any number: outside the layout where b is no block.
pub fn colour_of<B: Blocks>(blocks: &B, b: u32) -> Colour
    ensures { result ≡ colour_of (B.held blocks.now) b }
{
    let m = blocks.registers().blocks;
    if part_colours::is_block(m, b) {
        return blocks.colour(b);
    }
    Colour::Outside
}

// The state of b, which is any number.
pub fn state_of<B: Blocks>(blocks: &B, b: u32) -> State
    ensures { result ≡ state_of (B.held blocks.now) b }
{
    let r = blocks.registers();
    part_state::state_from(r.phase, r.position, b, colour_of(blocks, b))
}

// Whether a block in that state may be named: it is live, and where strict it is not white.
pub fn may_be_named(strict: bool, s: State) -> bool
    ensures { result ≡ may_be_named strict s }
{
    match s {
        State::LiveWhite => !strict,
        State::Doomed => false,
        State::Grey => true,
        State::Black => true,
        State::Free => false,
        State::Outside => false,
    }
}

// Whether the words 1 to 7 of the block b are 0.
// Kept: word by word. A loop over them costs the audit of a free block 41 instructions where it stops at the first, 38 where it ors all, not 34.
fn zeroes<B: Blocks>(blocks: &B, b: u32) -> bool
    requires { Block (B.held blocks.now).regs.blocks b }
    ensures { result ≡ zero_from 7 1 (eight_words (B.held blocks.now).words b) }
{
    if (blocks.word(b, 1) | blocks.word(b, 2) | blocks.word(b, 3)) != 0 {
        return false;
    }
    (blocks.word(b, 4) | blocks.word(b, 5) | blocks.word(b, 6) | blocks.word(b, 7)) == 0
}

// What is left to ask of a grey block: it is marking.
fn ask_grey(phase: u32) -> Asked
    ensures { (r : Regs) (k : Colouring) (part : List ℕ) (byte b : ℕ) → r.phase ≡ phase → answered result (λ strict. may_name_all r k strict (references part byte)) ≡ state_passes r k part byte b Grey }
{
    if phase != machine::MARKING {
        return Asked::Fails;
    }
    Asked::Names
}

// Of a black block: it may be black at all, and while marking it names no white one.
fn ask_black(phase: u32, position: u32, b: u32) -> Asked
    ensures { (r : Regs) (k : Colouring) (part : List ℕ) (byte : ℕ) → r.phase ≡ phase → r.position ≡ position → answered result (λ strict. may_name_all r k strict (references part byte)) ≡ state_passes r k part byte b Black }
{
    if part_state::may_be_black(phase, position, b) {
        if phase == machine::MARKING {
            return Asked::NamesStrictly;
        }
        return Asked::Names;
    }
    Asked::Fails
}

// Of a block b that isn't free: what asked says, but above the mark it fails.
fn ask_used(mark: u32, b: u32, asked: Asked) -> Asked
    ensures { (r : Regs) (k : Colouring) (names : Bool → Bool) → r.mark ≡ mark → is_free k b ≡ false → answered result names ≡ (mark_passes r k b && answered asked names) }
{
    if mark < b {
        return Asked::Fails;
    }
    asked
}

// Of a block b in the state s, whatever its words and its byte are, and wherever they lie: empty tells whether the byte and words 1 to 7
// are 0, and is asked where the block is free.
pub fn ask_in<E: Fn() -> bool>(
    phase: u32,
    position: u32,
    mark: u32,
    b: u32,
    s: State,
    empty: E,
) -> Asked
    requires { s ≡ Free → E.pre empty }
    ensures { (r : Regs) (k : Colouring) (part : List ℕ) (byte : ℕ) → r.phase ≡ phase → r.position ≡ position → r.mark ≡ mark → s ≡ state_in r k b
        → ((t : Bool) → E.post empty t → t ≡ (eqb byte 0 && zero_from 7 1 part))
        → answered result (λ strict. may_name_all r k strict (references part byte)) ≡ (mark_passes r k b && state_passes r k part byte b s) }
{
    match s {
        State::LiveWhite => ask_used(mark, b, Asked::Names),
        State::Doomed => ask_used(mark, b, Asked::Passes),
        State::Grey => ask_used(mark, b, ask_grey(phase)),
        State::Black => ask_used(mark, b, ask_black(phase, position, b)),
        State::Free => {
            if empty() {
                return Asked::Passes;
            }
            Asked::Fails
        }
        State::Outside => Asked::Fails,
    }
}

// Of b, which is any number: a number that is no block fails.
pub fn ask<B: Blocks>(blocks: &B, b: u32) -> Asked
    ensures { answered result (λ strict. may_name_all (B.held blocks.now).regs (colouring (B.held blocks.now)) strict (references_of (B.held blocks.now) b)) ≡ block_passes (B.held blocks.now) b }
{
    let r = blocks.registers();
    let empty = || -> bool
        requires { Block (B.held blocks.now).regs.blocks b }
        ensures { result ≡ (eqb (byte_of (B.held blocks.entry.now).bytes b) 0 && zero_from 7 1 (eight_words (B.held blocks.entry.now).words b)) }
    { blocks.reference_byte(b) == 0 && zeroes(blocks, b) };
    ask_in(r.phase, r.position, r.mark, b, state_of(blocks, b), empty)
}

// The colour buffer: what a colour word means, and the grey list. Of the calls' code only
// this crate reads or writes a colour word; part_step::step is told one and knows its values.
#![tactic(auto)]

ghost use Rattle.std.specs.Prelude.{◌≡◌, ◌≢◌, ◌+◌, ◌%◌, ◌≤◌, length, List, ℕ, if◌then◌else◌};
ghost use Rattle.machine.specs.WellFormed.{Block};
ghost use Rattle.machine.specs.Block.{is_block};
ghost use Rattle.machine.specs.Colouring.{coloured, colour, colour_word, word_in, first_grey, paint, colour_in, repaint, to_grey, to_black, grey_white, free_colour, is_free, CellsFit, fresh_colours};
ghost use Rattle.machine.specs.Seen.{seen};

use machine::{Colour, Seen};

// The end of the grey list: what stands behind its last block, and for its first one where it is empty.
pub const GREY_END: u32 = machine::NO_GREY;

// Whether b is a block number in a heap of m blocks.
pub fn is_block(m: u32, b: u32) -> bool
    requires { m ≤ 16384 }
    ensures { result ≡ is_block m b }
{
    2 <= b && b - 2 < m
}

// What a colour word means in a heap of m blocks.
pub fn colour(m: u32, word: u32) -> Colour
    requires { m ≤ 16384 }
    ensures { result ≡ colour m word }
{
    match word {
        machine::WHITE => Colour::White,
        machine::BLACK => Colour::Black,
        machine::FREE => Colour::Free,
        _ => {
            if word <= m + 1 {
                Colour::Grey
            } else {
                Colour::Outside
            }
        }
    }
}

// The colour word of the block b.
pub fn word_of(colours: &[u32], b: u32) -> u32
    requires { Block (length colours.now) b }
    ensures { result ≡ colour_word colours.now b }
{
    colours[b as usize - 2]
}

// The first block of the grey list with this head, or the list's end.
pub fn first_grey(grey_head: u32) -> u32
    ensures { (m : ℕ) (cs : List ℕ) → result ≡ first_grey (coloured m grey_head cs) }
{
    grey_head
}

// The block behind the block b in the grey list, or the list's end.
pub fn next_grey(colours: &[u32], b: u32) -> u32
    requires { Block (length colours.now) b }
    ensures { (m g : ℕ) → result ≡ word_in (coloured m g colours.now) b }
{
    word_of(colours, b)
}

// The colour of the block b.
pub fn colour_at(m: u32, colours: &[u32], b: u32) -> Colour
    requires { (m ≤ 16384) × CellsFit m colours.now × Block m b }
    ensures { (g : ℕ) → result ≡ colour_in (coloured m g colours.now) b }
{
    colour(m, word_of(colours, b))
}

// The colour of b, which is any number: outside the layout where b is no block.
pub fn colour_of(m: u32, colours: &[u32], b: u32) -> Colour
    requires { (m ≤ 16384) × CellsFit m colours.now }
    ensures { (g : ℕ) → result ≡ colour_in (coloured m g colours.now) b }
{
    if is_block(m, b) {
        return colour_at(m, colours, b);
    }
    Colour::Outside
}

// The block b gets the colour word.
fn set_word(colours: &mut [u32], b: u32, word: u32)
    requires { Block (length colours.old) b }
    ensures { colours.new ≡ paint b word colours.old }
{
    colours[b as usize - 2] = word;
}

// The block b gets the colour c, which is white, black or free: another asks for a list, or is none.
pub fn paint(colours: &mut [u32], b: u32, c: Colour)
    requires { Block (length colours.old) b }
    ensures { colours.new ≡ repaint b c colours.old }
{
    match c {
        Colour::White => set_word(colours, b, machine::WHITE),
        Colour::Grey => {}
        Colour::Black => set_word(colours, b, machine::BLACK),
        Colour::Free => set_word(colours, b, machine::FREE),
        Colour::Outside => {}
    }
}

// The colour word of b, or white where b is no block.
pub fn word_met(m: u32, colours: &[u32], b: u32) -> u32
    requires { (m ≤ 16384) × CellsFit m colours.now }
    ensures { result ≡ (if is_block m b then colour_word colours.now b else 0) }
{
    if is_block(m, b) {
        return word_of(colours, b);
    }
    machine::WHITE
}

// Whether a block of the colour is free.
pub fn free_colour(c: Colour) -> bool
    ensures { result ≡ free_colour c }
{
    match c {
        Colour::White => false,
        Colour::Grey => false,
        Colour::Black => false,
        Colour::Free => true,
        Colour::Outside => false,
    }
}

// Whether the block b is free.
pub fn free_at(m: u32, colours: &[u32], b: u32) -> bool
    requires { (m ≤ 16384) × CellsFit m colours.now × Block m b }
    ensures { (g : ℕ) → result ≡ is_free (coloured m g colours.now) b }
{
    free_colour(colour_at(m, colours, b))
}

// The block b goes to the front of the grey list that starts at head. Answers the head afterwards.
pub fn to_grey(head: u32, colours: &mut [u32], b: u32) -> u32
    requires { Block (length colours.old) b }
    ensures { (m : ℕ) → coloured m result colours.new ≡ to_grey b (coloured m head colours.old) }
{
    set_word(colours, b, head);
    b
}

// The first block of the grey list, head, is taken off and made black. Answers the head afterwards.
pub fn to_black(head: u32, colours: &mut [u32]) -> u32
    requires { Block (length colours.old) head }
    ensures { (m : ℕ) → coloured m result colours.new ≡ to_black (coloured m head colours.old) }
{
    let next = word_of(&colours[..], head);
    set_word(colours, head, machine::BLACK);
    next
}

// b, which is 0 or a block, goes to the front of the grey list that starts at head if it is a white block. Answers the head afterwards.
pub fn grey_white(head: u32, colours: &mut [u32], b: u32) -> u32
    requires { b ≢ 0 → Block (length colours.old) b }
    ensures { (m : ℕ) → CellsFit m colours.old → coloured m result colours.new ≡ grey_white b (coloured m head colours.old) }
{
    if b != 0 {
        if word_of(&colours[..], b) == machine::WHITE {
            return to_grey(head, colours, b);
        }
    }
    head
}

// b - 2 in 32 bits, where it wraps: for 0 and 1 it is above every place of a block. One comparison then tells a block.
pub fn less_two(b: u32) -> u32
    ensures { result ≡ (b + 4294967294) % 4294967296 }
{
    b.wrapping_sub(2)
}

// What the reference b is to the block that is marked.
pub fn seen(m: u32, colours: &[u32], b: u32) -> Seen
    requires { (m ≤ 16384) × CellsFit m colours.now }
    ensures { (g : ℕ) → result ≡ seen (coloured m g colours.now) b }
{
    let i = less_two(b);
    if i < m {
        let word = colours[i as usize];
        if word == machine::WHITE {
            return Seen::ToGrey;
        }
        if word == machine::BLACK {
            return Seen::Settled;
        }
        if word <= m + 1 {
            return Seen::Settled;
        }
        return Seen::Damaged;
    }
    if b == 0 {
        return Seen::Settled;
    }
    Seen::Damaged
}

// Every block free: what Format makes of the colour buffer.
pub fn fresh(colours: &mut [u32])
    ensures { colours.new ≡ fresh_colours (length colours.old) }
{
    colours.fill(machine::FREE);
}

// A block's words and its reference byte. The reference bytes are written by set_bit, clear_bit, clear_byte and fresh alone.
#![tactic(auto)]

ghost use Rattle.std.specs.Prelude.{◌≡◌, List, ℕ, ◌*◌, ◌<◌, ◌≤◌, length, replicate};
ghost use Rattle.machine.specs.WellFormed.{Block};
ghost use Rattle.machine.specs.Heap.{heap};
ghost use Rattle.machine.specs.Read.{read_answer};
ghost use Rattle.machine.specs.Block.{bit, set_bit, clear_bit, clear_byte, free_words};

use machine::{ReadAnswer, Regs};

// Whether word w holds a reference, by the block's byte.
pub fn bit(byte: u8, w: usize) -> bool
    requires { w < 8 }
    ensures { result ≡ bit byte w }
{
    (byte >> w) % 2 == 1
}

// Word w of the block b as Read answers it: the value, and whether it is a reference.
pub fn read_word(words: &[u32], bytes: &[u8], b: u32, w: u32) -> ReadAnswer
    requires { (length words.now ≡ 8 * length bytes.now) × Block (length bytes.now) b × (w ≤ 7) }
    ensures { (r : Regs) (cs : List ℕ) → result ≡ read_answer b w (heap r words.now cs bytes.now) }
{
    let at = b as usize - 2;
    ReadAnswer {
        refusal: 0,
        value: words[8 * at + w as usize],
        units: 0,
        reference: u32::from(bit(bytes[at], w as usize)),
    }
}

// Word w of the block b holds a reference.
pub fn set_bit(bytes: &mut [u8], b: u32, w: usize)
    requires { Block (length bytes.old) b × (w < 8) }
    ensures { bytes.new ≡ set_bit bytes.old b w }
{
    let at = b as usize - 2;
    let byte = bytes[at];
    if bit(byte, w) {
        return;
    }
    bytes[at] = byte + (1u8 << w);
}

// Word w of the block b holds a number.
pub fn clear_bit(bytes: &mut [u8], b: u32, w: usize)
    requires { Block (length bytes.old) b × (w < 8) }
    ensures { bytes.new ≡ clear_bit bytes.old b w }
{
    let at = b as usize - 2;
    let byte = bytes[at];
    if bit(byte, w) {
        bytes[at] = byte - (1u8 << w);
    }
}

// No word of the block b holds a reference.
pub fn clear_byte(bytes: &mut [u8], b: u32)
    requires { Block (length bytes.old) b }
    ensures { bytes.new ≡ clear_byte bytes.old b }
{
    bytes[b as usize - 2] = 0;
}

// A block's own eight words as a free block has them: the link in word 0, the others 0.
pub fn clear(part: &mut [u32], link: u32)
    requires { length part.old ≡ 8 }
    ensures { part.new ≡ free_words link }
{
    part.fill(0);
    part[0] = link;
}

// No word of any block holds a reference: what Format makes of the reference bytes.
pub fn fresh(bytes: &mut [u8])
    ensures { bytes.new ≡ replicate (length bytes.old) 0 }
{
    bytes.fill(0);
}

// Read and Look: what the running program sees of a block. Neither writes anything.
#![tactic(auto)]

ghost use Rattle.std.specs.Prelude.{◌≡◌};
ghost use Rattle.machine.specs.Heap.{heap};
ghost use Rattle.machine.specs.Read.{read, look, look_at, moved};

use machine::{ReadAnswer, Regs};

// Read: word w of the block b, and whether it is a reference.
pub fn read(r: Regs, words: &[u32], colours: &[u32], bytes: &[u8], b: u32, w: u32) -> ReadAnswer
    ensures { (record { answer = result; heap = heap r words.now colours.now bytes.now })
        ≡ read b w (heap r words.now colours.now bytes.now) }
{
    match part_checks::read_refusal(r, words, colours, bytes, b, w) {
        Ok(()) => part_cells::read_word(words, bytes, b, w),
        Err(refusal) => part_checks::unread(refusal.into()),
    }
}

// Look: the block's own eight words, where they stand in the word buffer, or the empty part at the buffer's start.
pub fn look<'a>(r: Regs, words: &'a [u32], colours: &[u32], bytes: &[u8], b: u32) -> &'a [u32]
    ensures { (result.now ≡ look b (heap r words.now colours.now bytes.now))
        × (result.ref_ptr ≡ moved words.entry.ref_ptr (look_at b (heap r words.now colours.now bytes.now))) }
{
    let Ok(()) = part_checks::read_refusal(r, words, colours, bytes, b, 0) else {
        return &words[0..0];
    };
    let at = 8 * (b as usize - 2);
    &words[at..at + 8]
}

// Load: the heap of an image, read into lent buffers. The image is audited as it lies, before anything is written; of the old heap only
// the buffers' lengths are looked at. An image with nine registers is read with the mark at M + 1. Its cost is linear in M.
#![tactic(auto)]

ghost use Rattle.std.specs.Prelude.{◌≡◌, true, ◌*◌, length};
ghost use Rattle.machine.specs.Heap.{heap};
ghost use Rattle.machine.specs.Answers.{given};
ghost use Rattle.machine.specs.Image.{colours_in, bytes_in, words_in};
ghost use Rattle.machine.specs.Load.{load};
ghost use Rattle.part_image_audit.specs.Laid.{Laid};

use machine::{Outcome, Refusal, Regs};

// The three buffers of m blocks, section by section.
fn read(words: &mut [u32], colours: &mut [u32], bytes: &mut [u8], sections: &[u8], m: u32)
    requires { Laid m sections.now × (length words.old ≡ 8 * m) × (length colours.old ≡ m) × (length bytes.old ≡ m) }
    ensures { (words.new ≡ words_in sections.now) × (colours.new ≡ colours_in sections.now) × (bytes.new ≡ bytes_in sections.now) }
{
    let n = m as usize;
    part_image::get_items(sections, 4, colours);
    part_image::get_items(sections, part_image::frame::bytes_at(n) + 4, bytes);
    part_image::get_items(sections, part_image::frame::words_at(n) + 4, words);
}

// Load: refused by 10 where the image isn't that of a heap that the audit accepts, with nothing after it, by 13 where a buffer hasn't the
// length that it asks for; else its heap.
pub fn load(
    r: Regs,
    words: &mut [u32],
    colours: &mut [u32],
    bytes: &mut [u8],
    image: &[u8],
) -> Outcome
    ensures { given result words.new colours.new bytes.new ≡ load image.now (heap r words.old colours.old bytes.old) }
{
    if part_image_audit::is_image(image) {
        let s = part_image::frame::get_registers(image);
        if part_checks::lengths_fit(s.blocks, words.len(), colours.len(), bytes.len()) {
            let sections = part_image::frame::behind_registers(image);
            read(words, colours, bytes, sections, s.blocks);
            return part_checks::done(s, 0);
        }
        return part_checks::refused(r, Refusal::BadLength.into());
    }
    part_checks::refused(r, Refusal::BadHeap.into())
}

// Save: the image of a heap, written to a lent output. The heap is audited first, and stays as it is.
// Its cost is linear in M; what it writes to is the output alone, and there only the image.
#![tactic(auto)]

ghost use Rattle.std.specs.Prelude.{◌≡◌, ◌++◌, ◌≤◌, length, drop};
ghost use Rattle.machine.specs.Heap.{heap};
ghost use Rattle.machine.specs.Image.{numbers, registers_of, register_count, encode};
ghost use Rattle.machine.specs.Frame.{blocks_at, image_length, Sized};
ghost use Rattle.machine.specs.Refusal.{refused_by};
ghost use Rattle.machine.specs.Save.{save};
ghost use Rattle.part_image.specs.Placing.{placed};

use machine::{Answer, Refusal, Regs};

// What Save answers: its refusal or 0, no value, no units.
fn answer(saved: Result<(), Refusal>) -> Answer
    ensures { result ≡ (record { refusal = refused_by saved; value = 0; units = 0 }) }
{
    match saved {
        Ok(()) => Answer::default(),
        Err(refusal) => Answer {
            refusal: refusal.into(),
            ..Answer::default()
        },
    }
}

// The registers' section, at the start of the output.
fn put_registers(r: Regs, out: &mut [u8])
    requires { blocks_at register_count ≤ length out.old }
    ensures { out.new ≡ placed 0 (numbers (registers_of r)) out.old }
{
    let registers = [
        r.blocks, r.pace, r.phase, r.grey, r.free, r.count, r.position, r.root, r.cycle, r.mark,
    ];
    part_image::put_section(out, 0, &registers);
}

// The image, section by section.
fn write(r: Regs, words: &[u32], colours: &[u32], bytes: &[u8], out: &mut [u8])
    requires { Sized (heap r words.now colours.now bytes.now) × (image_length r.blocks ≤ length out.old) }
    ensures { out.new
        ≡ encode (heap r words.now colours.now bytes.now)
        ++ drop (length (encode (heap r words.now colours.now bytes.now))) out.old }
{
    let m = r.blocks as usize;
    put_registers(r, out);
    let at = part_image::frame::BLOCKS_AT;
    part_image::put_section(out, at, colours);
    part_image::put_section(out, at + part_image::frame::bytes_at(m), bytes);
    part_image::put_section(out, at + part_image::frame::words_at(m), words);
}

// Save: refused by 1 where M, the pace or a length doesn't fit, by 10 where the audit turns the heap down, by 13 where the output is
// shorter than the image; else the image is written, and the output past it keeps its bytes.
pub fn save(r: Regs, words: &[u32], colours: &[u32], bytes: &[u8], out: &mut [u8]) -> Answer
    ensures { (record { answer = result; out = out.new })
        ≡ save out.old (heap r words.now colours.now bytes.now) }
{
    if part_checks::fits(r.blocks, r.pace, words.len(), colours.len(), bytes.len()) {
        if call_audit::passes(r, words, colours, bytes) {
            if out.len() < part_image::frame::image_length(r.blocks as usize) {
                return answer(Err(Refusal::BadLength));
            }
            write(r, words, colours, bytes, out);
            return answer(Ok(()));
        }
        return answer(Err(Refusal::BadHeap));
    }
    answer(Err(Refusal::Unfit))
}

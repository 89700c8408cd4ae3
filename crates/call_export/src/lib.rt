// Export: the rows of a list on the heap, written to a lent buffer. It is complete, or it says that it is not, and why.
// A row is a block's eight words; the list goes on by the reference in the link word, and 0 ends it.
#![tactic(auto)]

ghost use Rattle.std.specs.Prelude.{◌≡◌};
ghost use Rattle.machine.specs.Heap.{heap};
ghost use Rattle.machine.specs.Entry.{entry};
ghost use Rattle.machine.specs.Refusal.{refused_by};
ghost use Rattle.call_export.specs.Export.{block_rows, export, export_numbers};

use machine::{Refusal, Regs};
use part_rows::{ExportAnswer, Reason, Rows, Stopped};

// The rows of a list of blocks: the heap, the word of a row's link, and whether the heap is refused by 1 or 2, the same for all rows.
#[derive(Clone, Copy)]
struct Blocks<'a> {
    regs: Regs,
    words: &'a [u32],
    colours: &'a [u32],
    bytes: &'a [u8],
    link: u32,
    checked: Result<(), Refusal>,
    ghost entered: { refused_by checked ≡ entry (heap regs words.now colours.now bytes.now) },
}

impl<'a> Rows for Blocks<'a> {
    ghost shape = { λ it. block_rows it.link (heap it.regs it.words.now it.colours.now it.bytes.now) };

    fn width(&self) -> usize {
        8
    }

    fn most(&self) -> u32 {
        self.regs.blocks
    }

    fn follow(&self, b: u32) -> Result<u32, Reason> {
        let readable = part_checks::read_refusal_after(
            self.checked,
            self.regs,
            self.words,
            self.colours,
            self.bytes,
            b,
            self.link,
        );
        readable?;
        part_rows::followed(part_cells::read_word(self.words, self.bytes, b, self.link))
    }

    // The eight words of the block b.
    fn write(&self, b: u32, row: &mut [u32]) {
        let from = 8 * (b as usize - 2);
        row.copy_from_slice(&self.words[from..from + 8]);
    }
}

// Export: the rows of the list that starts at the block start, where 0 is the empty list, and goes on by word link. Each
// block passes the four tests, in the order of Reason, before its row is written.
pub fn export(
    r: Regs,
    words: &[u32],
    colours: &[u32],
    bytes: &[u8],
    out: &mut [u32],
    start: u32,
    link: u32,
) -> Result<u32, Stopped>
    ensures { (record { answer = result; out = out.new })
        ≡ export start link (heap r words.now colours.now bytes.now) out.old }
{
    let rows = Blocks {
        regs: r,
        words,
        colours,
        bytes,
        link,
        checked: part_checks::entry(r, words, colours, bytes),
    };
    part_rows::export_rows(&rows, start, out)
}

// The export, with its answer in numbers.
#[tactic(auto, unfolding(part_rows::specs::Numbers::in_numbers))]
pub fn export_numbers(
    r: Regs,
    words: &[u32],
    colours: &[u32],
    bytes: &[u8],
    out: &mut [u32],
    start: u32,
    link: u32,
) -> ExportAnswer
    ensures { (record { answer = result; out = out.new })
        ≡ export_numbers start link (heap r words.now colours.now bytes.now) out.old }
{
    ExportAnswer::from(export(r, words, colours, bytes, out, start, link))
}

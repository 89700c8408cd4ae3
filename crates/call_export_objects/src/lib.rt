// Export of a list whose rows are objects, to a lent buffer. It is complete, or it says that it is not, and why.
// A row is an object's first fields; the list goes on by the reference in one of them, and 0 ends it.
#![tactic(auto)]

ghost use Rattle.std.specs.Prelude.{◌≡◌, true, ◌-◌, ◌/◌};
ghost use Rattle.machine.specs.WellFormed.{Block};
ghost use Rattle.machine.specs.Heap.{heap};
ghost use Rattle.machine.specs.Ready.{Ready};
ghost use Rattle.machine.specs.Entry.{entry};
ghost use Rattle.machine.specs.Refusal.{refused_by};
ghost use Rattle.machine.specs.Field.{field_block, walk_refusal, field_refusal};
ghost use Rattle.part_field.specs.Finds.{Finds};
ghost use Rattle.call_export_objects.specs.Objects.{object_rows, row_fits, export_objects, export_objects_numbers};

use machine::{Refusal, Regs};
use part_rows::{ExportAnswer, Reason, Rows, Stopped};

// The most fields that an object has.
pub const MOST_FIELDS: u32 = 1_792;

// Whether the numbers are in range: a row has 1 to 1,792 fields, and its link is one of them.
#[tactic(auto, unfolding(crate::specs::Objects::row_fits))]
fn in_range(fields: u32, link: u32) -> bool
    ensures { result ≡ row_fits fields link }
{
    1 <= fields && (fields <= MOST_FIELDS && link < fields)
}

// The rows of a list of objects: the heap, how many fields a row has and which is its link, and whether the heap is refused by 1 or 2,
// the same for all rows.
#[derive(Clone, Copy)]
struct Objects<'a> {
    regs: Regs,
    words: &'a [u32],
    colours: &'a [u32],
    bytes: &'a [u8],
    fields: u32,
    link: u32,
    checked: Result<(), Refusal>,
    ghost in_range: { row_fits fields link ≡ true },
    ghost entered: { refused_by checked ≡ entry (heap regs words.now colours.now bytes.now) },
}

impl<'a> Objects<'a> {
    ghost use Rattle.call_export_objects.specs.Lent.{lent};

    // The block that so many links lead to from the block b on, or the first refusal on the way.
    fn walk(&self, b: u32, links: u32) -> Result<u32, Refusal>
        requires { Ready (lent self.now) × Block self.now.regs.blocks b }
        ensures { Finds result (walk_refusal links b (lent self.now)) (field_block links b (lent self.now)) }
    {
        part_field::find(self.regs, self.words, self.colours, self.bytes, b, links)
    }

    // The block of the link of the row that begins at the block b, or the first refusal of that row. The walk to the link's block goes
    // on from there to the last block.
    fn find(&self, b: u32) -> Result<u32, Refusal>
        ensures { Finds result (field_refusal b (self.now.fields - 1) (lent self.now)) (field_block (self.now.link / 7) b (lent self.now)) }
    {
        self.checked?;
        part_field::field_place(self.regs.blocks, b, self.fields - 1)?;
        let at = self.walk(b, self.link / machine::FIELDS)?;
        let rest = (self.fields - 1) / machine::FIELDS - self.link / machine::FIELDS;
        self.walk(at, rest)?;
        Ok(at)
    }
}

impl<'a> Rows for Objects<'a> {
    ghost use Rattle.call_export_objects.specs.Lent.{lent};

    ghost shape = { λ it. object_rows it.fields it.link (lent it) };

    fn width(&self) -> usize {
        self.fields as usize
    }

    fn most(&self) -> u32 {
        self.regs.blocks
    }

    fn follow(&self, b: u32) -> Result<u32, Reason> {
        let at = self.find(b)?;
        let w = self.link % machine::FIELDS;
        part_rows::followed(part_cells::read_word(self.words, self.bytes, at, w))
    }

    fn write(&self, b: u32, row: &mut [u32]) {
        part_copy::write_row(self.words, row, b);
    }
}

// Export: the rows of the list that starts at the object start, where 0 is the empty list, and goes on by the reference in
// field link. A row is an object's first fields. Each row passes the four tests, in the order of Reason, before it is written.
#[tactic(auto, unfolding(crate::specs::Objects::export_objects))]
pub fn export_objects(
    r: Regs,
    words: &[u32],
    colours: &[u32],
    bytes: &[u8],
    out: &mut [u32],
    start: u32,
    fields: u32,
    link: u32,
) -> Result<u32, Stopped>
    ensures { (record { answer = result; out = out.new })
        ≡ export_objects start fields link (heap r words.now colours.now bytes.now) out.old }
{
    if !in_range(fields, link) {
        return Err(Reason::from(Refusal::NoPlace).after(0));
    }
    let rows = Objects {
        regs: r,
        words,
        colours,
        bytes,
        fields,
        link,
        checked: part_checks::entry(r, words, colours, bytes),
    };
    part_rows::export_rows(&rows, start, out)
}

// The export, with its answer in numbers.
#[tactic(auto, unfolding(part_rows::specs::Numbers::in_numbers))]
pub fn export_objects_numbers(
    r: Regs,
    words: &[u32],
    colours: &[u32],
    bytes: &[u8],
    out: &mut [u32],
    start: u32,
    fields: u32,
    link: u32,
) -> ExportAnswer
    ensures { (record { answer = result; out = out.new })
        ≡ export_objects_numbers start fields link (heap r words.now colours.now bytes.now) out.old }
{
    ExportAnswer::from(export_objects(r, words, colours, bytes, out, start, fields, link))
}

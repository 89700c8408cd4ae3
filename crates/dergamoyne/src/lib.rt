// The outer calls, for a host. Ten write to the heap: the host lends its one register record, and the call changes it in
// place, over a core that takes the record by value and gives it back. Nine only look, and take the record by value.
#![tactic(auto)]

ghost use Rattle.std.specs.Prelude.{◌≡◌, ◌↔◌};
ghost use Rattle.machine.specs.WellFormed.{WellFormed};
ghost use Rattle.machine.specs.Heap.{heap};
ghost use Rattle.machine.specs.Answers.{given};
ghost use Rattle.machine.specs.Format.{format};
ghost use Rattle.machine.specs.Read.{read_refusal, read};
ghost use Rattle.machine.specs.Store.{store_number, store_reference, set_root};
ghost use Rattle.machine.specs.Allocate.{allocate};
ghost use Rattle.machine.specs.Chain.{allocate_chain};
ghost use Rattle.machine.specs.Field.{read_field, store_field_number, store_field_reference};
ghost use Rattle.machine.specs.Work.{work};
ghost use Rattle.machine.specs.Audit.{audit};
ghost use Rattle.machine.specs.Tell.{tell_state};
ghost use Rattle.machine.specs.Save.{save};
ghost use Rattle.machine.specs.Load.{load};
ghost use Rattle.call_why.specs.Numbers.{why_in_numbers};
ghost use Rattle.call_export.specs.Export.{export_numbers};
ghost use Rattle.call_export_objects.specs.Objects.{export_objects_numbers};
ghost use Rattle.dergamoyne.specs.Host.{look_index, version, record_size};

use machine::{Answer, ReadAnswer, Regs, WhyNumbers};
use part_rows::ExportAnswer;

// What Look answers a host: the refusal of Read of word 0, or 0, and the index of the block's first word in the word buffer. On a
// refusal that is 4,294,967,295, past the end of any word buffer, so that a read there faults and doesn't find another block.
#[repr(C)]
#[derive(Clone, Copy)]
pub struct LookAnswer {
    pub refusal: u32,
    pub at: u32,
}

// The release of the library, as a number: 1,000,000 · major + 1,000 · minor + patch.
pub fn dergamoyne_version() -> u32
    ensures { result ≡ version }
{
    8000
}

// How many bytes a register record takes in memory.
pub fn dergamoyne_record_size() -> u32
    ensures { result ≡ record_size }
{
    40
}

// Format (M, U), or refusal 1.
pub fn dergamoyne_format(
    regs: &mut Regs,
    words: &mut [u32],
    colours: &mut [u32],
    bytes: &mut [u8],
    m: u32,
    u: u32,
) -> Answer
    ensures { given (record { regs = regs.new; answer = result }) words.new colours.new bytes.new ≡ format m u (heap regs.old words.old colours.old bytes.old) }
{
    let formatted = call_format::format(*regs, words, colours, bytes, m, u);
    *regs = formatted.regs;
    formatted.answer
}

// Read: word w of the block b, and whether it is a reference.
pub fn dergamoyne_read(
    regs: Regs,
    words: &[u32],
    colours: &[u32],
    bytes: &[u8],
    b: u32,
    w: u32,
) -> ReadAnswer
    ensures { (record { answer = result; heap = heap regs words.now colours.now bytes.now }) ≡ read b w (heap regs words.now colours.now bytes.now) }
{
    call_read::read(regs, words, colours, bytes, b, w)
}

// Look: where in the word buffer the eight words of the block b begin, or the refusal of Read of word 0.
pub fn dergamoyne_look(
    regs: Regs,
    words: &[u32],
    colours: &[u32],
    bytes: &[u8],
    b: u32,
) -> LookAnswer
    ensures { (result.refusal ≡ read_refusal b 0 (heap regs words.now colours.now bytes.now)) × (result.at ≡ look_index b (heap regs words.now colours.now bytes.now)) }
{
    match part_checks::read_refusal(regs, words, colours, bytes, b, 0) {
        Ok(()) => LookAnswer {
            refusal: 0,
            at: 8 * (b - 2),
        },
        Err(refusal) => LookAnswer {
            refusal: refusal.into(),
            at: u32::MAX,
        },
    }
}

// Store number: word w of the block b becomes the number v. No register changes, so none is written back.
pub fn dergamoyne_store_number(
    regs: &mut Regs,
    words: &mut [u32],
    colours: &mut [u32],
    bytes: &mut [u8],
    b: u32,
    w: u32,
    v: u32,
) -> Answer
    ensures { given (record { regs = regs.new; answer = result }) words.new colours.new bytes.new ≡ store_number b w v (heap regs.old words.old colours.old bytes.old) }
{
    let stored = call_store::store_number(*regs, words, colours, bytes, b, w, v);
    stored.answer
}

// Store reference: word w of the block b becomes a reference to t, or the reference 0.
pub fn dergamoyne_store_reference(
    regs: &mut Regs,
    words: &mut [u32],
    colours: &mut [u32],
    bytes: &mut [u8],
    b: u32,
    w: u32,
    t: u32,
) -> Answer
    ensures { given (record { regs = regs.new; answer = result }) words.new colours.new bytes.new ≡ store_reference b w t (heap regs.old words.old colours.old bytes.old) }
{
    let stored = call_store::store_reference(*regs, words, colours, bytes, b, w, t);
    regs.grey = stored.regs.grey;
    stored.answer
}

// Set root: the root becomes t, or none.
pub fn dergamoyne_set_root(
    regs: &mut Regs,
    words: &mut [u32],
    colours: &mut [u32],
    bytes: &mut [u8],
    t: u32,
) -> Answer
    ensures { given (record { regs = regs.new; answer = result }) words.new colours.new bytes.new ≡ set_root t (heap regs.old words.old colours.old bytes.old) }
{
    let set = call_store::set_root(*regs, words, colours, bytes, t);
    regs.grey = set.regs.grey;
    regs.root = set.regs.root;
    set.answer
}

// Allocate: a new block for word w of the block b, or with 0, 0 for the root. Its value is the new block.
pub fn dergamoyne_allocate(
    regs: &mut Regs,
    words: &mut [u32],
    colours: &mut [u32],
    bytes: &mut [u8],
    b: u32,
    w: u32,
) -> Answer
    ensures { given (record { regs = regs.new; answer = result }) words.new colours.new bytes.new ≡ allocate b w (heap regs.old words.old colours.old bytes.old) }
{
    let taken = call_allocate::allocate(*regs, words, colours, bytes, b, w);
    *regs = taken.regs;
    taken.answer
}

// Allocate chain: n new blocks, 1 to 256, word 7 of each the reference to the next, for word w of the block b, or with 0, 0 for the
// root. Its value is the first.
pub fn dergamoyne_allocate_chain(
    regs: &mut Regs,
    words: &mut [u32],
    colours: &mut [u32],
    bytes: &mut [u8],
    b: u32,
    w: u32,
    n: u32,
) -> Answer
    ensures { given (record { regs = regs.new; answer = result }) words.new colours.new bytes.new ≡ allocate_chain b w n (heap regs.old words.old colours.old bytes.old) }
{
    let chained = call_chain::allocate_chain(*regs, words, colours, bytes, b, w, n);
    *regs = chained.regs;
    chained.answer
}

// Read field: field k of the object that starts at the block b, and whether it is a reference.
pub fn dergamoyne_read_field(
    regs: Regs,
    words: &[u32],
    colours: &[u32],
    bytes: &[u8],
    b: u32,
    k: u32,
) -> ReadAnswer
    ensures { (record { answer = result; heap = heap regs words.now colours.now bytes.now }) ≡ read_field b k (heap regs words.now colours.now bytes.now) }
{
    call_field::read_field(regs, words, colours, bytes, b, k)
}

// Store field number: field k of the object that starts at the block b becomes the number v. No register changes.
pub fn dergamoyne_store_field_number(
    regs: &mut Regs,
    words: &mut [u32],
    colours: &mut [u32],
    bytes: &mut [u8],
    b: u32,
    k: u32,
    v: u32,
) -> Answer
    ensures { given (record { regs = regs.new; answer = result }) words.new colours.new bytes.new ≡ store_field_number b k v (heap regs.old words.old colours.old bytes.old) }
{
    let stored = call_field::store_field_number(*regs, words, colours, bytes, b, k, v);
    stored.answer
}

// Store field reference: field k of the object that starts at the block b becomes a reference to t, or the reference 0.
pub fn dergamoyne_store_field_reference(
    regs: &mut Regs,
    words: &mut [u32],
    colours: &mut [u32],
    bytes: &mut [u8],
    b: u32,
    k: u32,
    t: u32,
) -> Answer
    ensures { given (record { regs = regs.new; answer = result }) words.new colours.new bytes.new ≡ store_field_reference b k t (heap regs.old words.old colours.old bytes.old) }
{
    let written = call_field::store_field_reference(*regs, words, colours, bytes, b, k, t);
    regs.grey = written.regs.grey;
    written.answer
}

// Work: n units, n at most 65,535.
pub fn dergamoyne_work(
    regs: &mut Regs,
    words: &mut [u32],
    colours: &mut [u32],
    bytes: &mut [u8],
    n: u32,
) -> Answer
    ensures { given (record { regs = regs.new; answer = result }) words.new colours.new bytes.new ≡ work n (heap regs.old words.old colours.old bytes.old) }
{
    let worked = call_work::work(*regs, words, colours, bytes, n);
    *regs = worked.regs;
    worked.answer
}

// Audit: 1 for a well-formed heap, else 0. It never refuses and changes nothing.
pub fn dergamoyne_audit(regs: Regs, words: &[u32], colours: &[u32], bytes: &[u8]) -> Answer
    ensures answered { (record { answer = result; heap = heap regs words.now colours.now bytes.now }) ≡ audit (heap regs words.now colours.now bytes.now) }
    ensures meaning { (result.value ≡ 1) ↔ WellFormed (heap regs words.now colours.now bytes.now) }
{
    call_audit::audit(regs, words, colours, bytes)
}

// State: what b is, which is any number: value 1 live white, 2 doomed, 3 grey, 4 black, 5 free, 6 outside the layout. It refuses by
// 1 and 2 alone, and changes nothing.
pub fn dergamoyne_state(regs: Regs, words: &[u32], colours: &[u32], bytes: &[u8], b: u32) -> Answer
    ensures { (record { answer = result; heap = heap regs words.now colours.now bytes.now }) ≡ tell_state b (heap regs words.now colours.now bytes.now) }
{
    call_state::state(regs, words, colours, bytes, b)
}

// Export: the rows of the list that starts at the block start, where 0 is the empty list, and goes on by the reference in word
// link, to the buffer out. Complete with the number of rows; or not, with the rows written before it stopped, and the reason.
pub fn dergamoyne_export(
    regs: Regs,
    words: &[u32],
    colours: &[u32],
    bytes: &[u8],
    out: &mut [u32],
    start: u32,
    link: u32,
) -> ExportAnswer
    ensures { (record { answer = result; out = out.new }) ≡ export_numbers start link (heap regs words.now colours.now bytes.now) out.old }
{
    call_export::export_numbers(regs, words, colours, bytes, out, start, link)
}

// Export of objects: the rows of the list that starts at the object start, where 0 is the empty list, and goes on by the
// reference in field link, to the buffer out. A row is an object's first fields. The answer is as that of Export.
pub fn dergamoyne_export_objects(
    regs: Regs,
    words: &[u32],
    colours: &[u32],
    bytes: &[u8],
    out: &mut [u32],
    start: u32,
    fields: u32,
    link: u32,
) -> ExportAnswer
    ensures { (record { answer = result; out = out.new }) ≡ export_objects_numbers start fields link (heap regs words.now colours.now bytes.now) out.old }
{
    call_export_objects::export_objects_numbers(
        regs, words, colours, bytes, out, start, fields, link,
    )
}

// Save: the image of the heap, written to the output out, which keeps its bytes past the image. Refused by 1; by 10 where the audit
// turns the heap down; by 13 where the output is shorter than the image.
pub fn dergamoyne_save(
    regs: Regs,
    words: &[u32],
    colours: &[u32],
    bytes: &[u8],
    out: &mut [u8],
) -> Answer
    ensures { (record { answer = result; out = out.new }) ≡ save out.old (heap regs words.now colours.now bytes.now) }
{
    call_save::save(regs, words, colours, bytes, out)
}

// Load: the heap of an image, read into the record and the buffers, at which it doesn't look. Refused by 10 where the bytes aren't the
// image of a heap that the audit accepts, with nothing after it; by 13 where the buffers have other lengths than the image asks for.
pub fn dergamoyne_load(
    regs: &mut Regs,
    words: &mut [u32],
    colours: &mut [u32],
    bytes: &mut [u8],
    image: &[u8],
) -> Answer
    ensures { given (record { regs = regs.new; answer = result }) words.new colours.new bytes.new ≡ load image.now (heap regs.old words.old colours.old bytes.old) }
{
    let loaded = call_load::load(*regs, words, colours, bytes, image);
    *regs = loaded.regs;
    loaded.answer
}

// Why: the reason why the block b is still here: 1 free, 2 doomed, 3 reachable, 4 out of reach and kept. The path of a reachable block
// is written to path, two numbers a pair, with 0 behind it; queue and came end as 0. Refused by 1; by 10 where the audit turns the heap
// down; by 3 where b is no block; by 13 where path has fewer than 2M numbers, or queue or came fewer than M.
pub fn dergamoyne_why(
    regs: Regs,
    words: &[u32],
    colours: &[u32],
    bytes: &[u8],
    path: &mut [u32],
    queue: &mut [u32],
    came: &mut [u32],
    b: u32,
) -> WhyNumbers
    ensures { (record { answer = result; path = path.new; queue = queue.new; came = came.new }) ≡ why_in_numbers path.old queue.old came.old b (heap regs words.now colours.now bytes.now) }
{
    call_why::why_numbers(regs, words, colours, bytes, path, queue, came, b)
}

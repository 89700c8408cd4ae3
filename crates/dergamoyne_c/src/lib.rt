// The symbols of the static library that a host in C links. Each is a call of the library `dergamoyne`, with the same contract.
#![tactic(auto)]

ghost use Rattle.std.specs.Prelude.{◌≡◌, ◌↔◌};
ghost use Rattle.machine.specs.WellFormed.{WellFormed};
ghost use Rattle.machine.specs.Heap.{heap};
ghost use Rattle.machine.specs.Answers.{given};
ghost use Rattle.machine.specs.Format.{format};
ghost use Rattle.machine.specs.Read.{read_refusal, read};
ghost use Rattle.machine.specs.Store.{store_number, store_reference, set_root};
ghost use Rattle.machine.specs.Allocate.{allocate};
ghost use Rattle.machine.specs.Chain.{allocate_chain};
ghost use Rattle.machine.specs.Field.{read_field, store_field_number, store_field_reference};
ghost use Rattle.machine.specs.Work.{work};
ghost use Rattle.machine.specs.Audit.{audit};
ghost use Rattle.machine.specs.Tell.{tell_state};
ghost use Rattle.machine.specs.Save.{save};
ghost use Rattle.machine.specs.Load.{load};
ghost use Rattle.call_why.specs.Numbers.{why_in_numbers};
ghost use Rattle.call_export.specs.Export.{export_numbers};
ghost use Rattle.call_export_objects.specs.Objects.{export_objects_numbers};
ghost use Rattle.dergamoyne.specs.Host.{look_index, version, record_size};

use dergamoyne::LookAnswer;
use machine::{Answer, ReadAnswer, Regs, WhyNumbers};
use part_rows::ExportAnswer;

// The release of the library, as a number: 1,000,000 · major + 1,000 · minor + patch.
#[unsafe(no_mangle)]
pub extern "C" fn dergamoyne_version() -> u32
    ensures { result ≡ version }
{
    dergamoyne::dergamoyne_version()
}

// How many bytes a register record takes in memory.
#[unsafe(no_mangle)]
pub extern "C" fn dergamoyne_record_size() -> u32
    ensures { result ≡ record_size }
{
    dergamoyne::dergamoyne_record_size()
}

// Format (M, U), or refusal 1.
#[unsafe(no_mangle)]
pub extern "C" fn dergamoyne_format(
    regs: &mut Regs,
    words: &mut [u32],
    colours: &mut [u32],
    bytes: &mut [u8],
    m: u32,
    u: u32,
) -> Answer
    ensures { given (record { regs = regs.new; answer = result }) words.new colours.new bytes.new ≡ format m u (heap regs.old words.old colours.old bytes.old) }
{
    dergamoyne::dergamoyne_format(regs, words, colours, bytes, m, u)
}

// Read: word w of the block b, and whether it is a reference.
#[unsafe(no_mangle)]
pub extern "C" fn dergamoyne_read(
    regs: Regs,
    words: &[u32],
    colours: &[u32],
    bytes: &[u8],
    b: u32,
    w: u32,
) -> ReadAnswer
    ensures { (record { answer = result; heap = heap regs words.now colours.now bytes.now }) ≡ read b w (heap regs words.now colours.now bytes.now) }
{
    dergamoyne::dergamoyne_read(regs, words, colours, bytes, b, w)
}

// Look: where in the word buffer the eight words of the block b begin, or the refusal of Read of word 0.
#[unsafe(no_mangle)]
pub extern "C" fn dergamoyne_look(
    regs: Regs,
    words: &[u32],
    colours: &[u32],
    bytes: &[u8],
    b: u32,
) -> LookAnswer
    ensures { (result.refusal ≡ read_refusal b 0 (heap regs words.now colours.now bytes.now)) × (result.at ≡ look_index b (heap regs words.now colours.now bytes.now)) }
{
    dergamoyne::dergamoyne_look(regs, words, colours, bytes, b)
}

// Store number: word w of the block b becomes the number v. No register changes, so none is written back.
#[unsafe(no_mangle)]
pub extern "C" fn dergamoyne_store_number(
    regs: &mut Regs,
    words: &mut [u32],
    colours: &mut [u32],
    bytes: &mut [u8],
    b: u32,
    w: u32,
    v: u32,
) -> Answer
    ensures { given (record { regs = regs.new; answer = result }) words.new colours.new bytes.new ≡ store_number b w v (heap regs.old words.old colours.old bytes.old) }
{
    dergamoyne::dergamoyne_store_number(regs, words, colours, bytes, b, w, v)
}

// Store reference: word w of the block b becomes a reference to t, or the reference 0.
#[unsafe(no_mangle)]
pub extern "C" fn dergamoyne_store_reference(
    regs: &mut Regs,
    words: &mut [u32],
    colours: &mut [u32],
    bytes: &mut [u8],
    b: u32,
    w: u32,
    t: u32,
) -> Answer
    ensures { given (record { regs = regs.new; answer = result }) words.new colours.new bytes.new ≡ store_reference b w t (heap regs.old words.old colours.old bytes.old) }
{
    dergamoyne::dergamoyne_store_reference(regs, words, colours, bytes, b, w, t)
}

// Set root: the root becomes t, or none.
#[unsafe(no_mangle)]
pub extern "C" fn dergamoyne_set_root(
    regs: &mut Regs,
    words: &mut [u32],
    colours: &mut [u32],
    bytes: &mut [u8],
    t: u32,
) -> Answer
    ensures { given (record { regs = regs.new; answer = result }) words.new colours.new bytes.new ≡ set_root t (heap regs.old words.old colours.old bytes.old) }
{
    dergamoyne::dergamoyne_set_root(regs, words, colours, bytes, t)
}

// Allocate: a new block for word w of the block b, or with 0, 0 for the root. Its value is the new block.
#[unsafe(no_mangle)]
pub extern "C" fn dergamoyne_allocate(
    regs: &mut Regs,
    words: &mut [u32],
    colours: &mut [u32],
    bytes: &mut [u8],
    b: u32,
    w: u32,
) -> Answer
    ensures { given (record { regs = regs.new; answer = result }) words.new colours.new bytes.new ≡ allocate b w (heap regs.old words.old colours.old bytes.old) }
{
    dergamoyne::dergamoyne_allocate(regs, words, colours, bytes, b, w)
}

// Allocate chain: n new blocks, 1 to 256, word 7 of each the reference to the next, for word w of the block b, or with 0, 0 for the
// root. Its value is the first.
#[unsafe(no_mangle)]
pub extern "C" fn dergamoyne_allocate_chain(
    regs: &mut Regs,
    words: &mut [u32],
    colours: &mut [u32],
    bytes: &mut [u8],
    b: u32,
    w: u32,
    n: u32,
) -> Answer
    ensures { given (record { regs = regs.new; answer = result }) words.new colours.new bytes.new ≡ allocate_chain b w n (heap regs.old words.old colours.old bytes.old) }
{
    dergamoyne::dergamoyne_allocate_chain(regs, words, colours, bytes, b, w, n)
}

// Read field: field k of the object that starts at the block b, and whether it is a reference.
#[unsafe(no_mangle)]
pub extern "C" fn dergamoyne_read_field(
    regs: Regs,
    words: &[u32],
    colours: &[u32],
    bytes: &[u8],
    b: u32,
    k: u32,
) -> ReadAnswer
    ensures { (record { answer = result; heap = heap regs words.now colours.now bytes.now }) ≡ read_field b k (heap regs words.now colours.now bytes.now) }
{
    dergamoyne::dergamoyne_read_field(regs, words, colours, bytes, b, k)
}

// Store field number: field k of the object that starts at the block b becomes the number v. No register changes.
#[unsafe(no_mangle)]
pub extern "C" fn dergamoyne_store_field_number(
    regs: &mut Regs,
    words: &mut [u32],
    colours: &mut [u32],
    bytes: &mut [u8],
    b: u32,
    k: u32,
    v: u32,
) -> Answer
    ensures { given (record { regs = regs.new; answer = result }) words.new colours.new bytes.new ≡ store_field_number b k v (heap regs.old words.old colours.old bytes.old) }
{
    dergamoyne::dergamoyne_store_field_number(regs, words, colours, bytes, b, k, v)
}

// Store field reference: field k of the object that starts at the block b becomes a reference to t, or the reference 0.
#[unsafe(no_mangle)]
pub extern "C" fn dergamoyne_store_field_reference(
    regs: &mut Regs,
    words: &mut [u32],
    colours: &mut [u32],
    bytes: &mut [u8],
    b: u32,
    k: u32,
    t: u32,
) -> Answer
    ensures { given (record { regs = regs.new; answer = result }) words.new colours.new bytes.new ≡ store_field_reference b k t (heap regs.old words.old colours.old bytes.old) }
{
    dergamoyne::dergamoyne_store_field_reference(regs, words, colours, bytes, b, k, t)
}

// Work: n units, n at most 65,535.
#[unsafe(no_mangle)]
pub extern "C" fn dergamoyne_work(
    regs: &mut Regs,
    words: &mut [u32],
    colours: &mut [u32],
    bytes: &mut [u8],
    n: u32,
) -> Answer
    ensures { given (record { regs = regs.new; answer = result }) words.new colours.new bytes.new ≡ work n (heap regs.old words.old colours.old bytes.old) }
{
    dergamoyne::dergamoyne_work(regs, words, colours, bytes, n)
}

// Audit: 1 for a well-formed heap, else 0. It never refuses and changes nothing.
#[unsafe(no_mangle)]
pub extern "C" fn dergamoyne_audit(
    regs: Regs,
    words: &[u32],
    colours: &[u32],
    bytes: &[u8],
) -> Answer
    ensures answered { (record { answer = result; heap = heap regs words.now colours.now bytes.now }) ≡ audit (heap regs words.now colours.now bytes.now) }
    ensures meaning { (result.value ≡ 1) ↔ WellFormed (heap regs words.now colours.now bytes.now) }
{
    dergamoyne::dergamoyne_audit(regs, words, colours, bytes)
}

// State: what b is, which is any number: value 1 live white, 2 doomed, 3 grey, 4 black, 5 free, 6 outside the layout. It refuses by
// 1 and 2 alone, and changes nothing.
#[unsafe(no_mangle)]
pub extern "C" fn dergamoyne_state(
    regs: Regs,
    words: &[u32],
    colours: &[u32],
    bytes: &[u8],
    b: u32,
) -> Answer
    ensures { (record { answer = result; heap = heap regs words.now colours.now bytes.now }) ≡ tell_state b (heap regs words.now colours.now bytes.now) }
{
    dergamoyne::dergamoyne_state(regs, words, colours, bytes, b)
}

// Export: the rows of the list that starts at the block start, where 0 is the empty list, and goes on by the reference in word
// link, to the buffer out. Complete with the number of rows; or not, with the rows written before it stopped, and the reason.
#[unsafe(no_mangle)]
pub extern "C" fn dergamoyne_export(
    regs: Regs,
    words: &[u32],
    colours: &[u32],
    bytes: &[u8],
    out: &mut [u32],
    start: u32,
    link: u32,
) -> ExportAnswer
    ensures { (record { answer = result; out = out.new }) ≡ export_numbers start link (heap regs words.now colours.now bytes.now) out.old }
{
    dergamoyne::dergamoyne_export(regs, words, colours, bytes, out, start, link)
}

// Export of objects: the rows of the list that starts at the object start, where 0 is the empty list, and goes on by the
// reference in field link, to the buffer out. A row is an object's first fields. The answer is as that of Export.
#[unsafe(no_mangle)]
pub extern "C" fn dergamoyne_export_objects(
    regs: Regs,
    words: &[u32],
    colours: &[u32],
    bytes: &[u8],
    out: &mut [u32],
    start: u32,
    fields: u32,
    link: u32,
) -> ExportAnswer
    ensures { (record { answer = result; out = out.new }) ≡ export_objects_numbers start fields link (heap regs words.now colours.now bytes.now) out.old }
{
    dergamoyne::dergamoyne_export_objects(regs, words, colours, bytes, out, start, fields, link)
}

// Save: the image of the heap, written to the output out, which keeps its bytes past the image. Refused by 1; by 10 where the audit
// turns the heap down; by 13 where the output is shorter than the image.
#[unsafe(no_mangle)]
pub extern "C" fn dergamoyne_save(
    regs: Regs,
    words: &[u32],
    colours: &[u32],
    bytes: &[u8],
    out: &mut [u8],
) -> Answer
    ensures { (record { answer = result; out = out.new }) ≡ save out.old (heap regs words.now colours.now bytes.now) }
{
    dergamoyne::dergamoyne_save(regs, words, colours, bytes, out)
}

// Load: the heap of an image, read into the record and the buffers, at which it doesn't look. Refused by 10 where the bytes aren't the
// image of a heap that the audit accepts, with nothing after it; by 13 where the buffers have other lengths than the image asks for.
#[unsafe(no_mangle)]
pub extern "C" fn dergamoyne_load(
    regs: &mut Regs,
    words: &mut [u32],
    colours: &mut [u32],
    bytes: &mut [u8],
    image: &[u8],
) -> Answer
    ensures { given (record { regs = regs.new; answer = result }) words.new colours.new bytes.new ≡ load image.now (heap regs.old words.old colours.old bytes.old) }
{
    dergamoyne::dergamoyne_load(regs, words, colours, bytes, image)
}

// Why: the reason why the block b is still here: 1 free, 2 doomed, 3 reachable, 4 out of reach and kept. The path of a reachable block
// is written to path, two numbers a pair, with 0 behind it; queue and came end as 0. Refused by 1; by 10 where the audit turns the heap
// down; by 3 where b is no block; by 13 where path has fewer than 2M numbers, or queue or came fewer than M.
#[unsafe(no_mangle)]
pub extern "C" fn dergamoyne_why(
    regs: Regs,
    words: &[u32],
    colours: &[u32],
    bytes: &[u8],
    path: &mut [u32],
    queue: &mut [u32],
    came: &mut [u32],
    b: u32,
) -> WhyNumbers
    ensures { (record { answer = result; path = path.new; queue = queue.new; came = came.new }) ≡ why_in_numbers path.old queue.old came.old b (heap regs words.now colours.now bytes.now) }
{
    dergamoyne::dergamoyne_why(regs, words, colours, bytes, path, queue, came, b)
}

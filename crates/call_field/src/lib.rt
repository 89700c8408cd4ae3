// The fields of an object longer than a block: Read field, Store field number and Store field reference.
// Field k is word k mod 7 of the block that k / 7 links lead to.
#![tactic(auto)]

ghost use Rattle.std.specs.Prelude.{◌≡◌, ◌/◌};
ghost use Rattle.machine.specs.Heap.{heap};
ghost use Rattle.machine.specs.Answers.{given};
ghost use Rattle.machine.specs.Field.{field_refusal, field_store_refusal, field_block, read_field, store_field_number, store_field_reference};
ghost use Rattle.part_field.specs.Finds.{Finds};

use machine::{Outcome, ReadAnswer, Refusal, Regs};

// The block that has field k of the object that starts at the block b, or the first refusal of a call on it.
#[inline(always)]
fn find_field(
    r: Regs,
    words: &[u32],
    colours: &[u32],
    bytes: &[u8],
    b: u32,
    k: u32,
) -> Result<u32, Refusal>
    ensures { Finds result (field_refusal b k (heap r words.now colours.now bytes.now)) (field_block (k / 7) b (heap r words.now colours.now bytes.now)) }
{
    part_checks::entry(r, words, colours, bytes)?;
    part_field::field_place(r.blocks, b, k)?;
    part_field::find(r, words, colours, bytes, b, k / machine::FIELDS)
}

// The same for a store of a reference to t. Refusal 4 comes before the walk, and 8 and 6 for t after it.
#[inline(always)]
fn find_to_store(
    r: Regs,
    words: &[u32],
    colours: &[u32],
    bytes: &[u8],
    b: u32,
    k: u32,
    t: u32,
) -> Result<u32, Refusal>
    ensures { Finds result (field_store_refusal b k t (heap r words.now colours.now bytes.now)) (field_block (k / 7) b (heap r words.now colours.now bytes.now)) }
{
    part_checks::entry(r, words, colours, bytes)?;
    part_field::field_place(r.blocks, b, k)?;
    part_checks::target_place(r.blocks, t)?;
    let x = part_field::find(r, words, colours, bytes, b, k / machine::FIELDS)?;
    part_checks::target_refusal(r.blocks, r.phase, r.position, colours, t)?;
    Ok(x)
}

// Read field: field k of the object that starts at the block b, and whether it is a reference.
pub fn read_field(
    r: Regs,
    words: &[u32],
    colours: &[u32],
    bytes: &[u8],
    b: u32,
    k: u32,
) -> ReadAnswer
    ensures { (record { answer = result; heap = heap r words.now colours.now bytes.now })
        ≡ read_field b k (heap r words.now colours.now bytes.now) }
{
    match find_field(r, words, colours, bytes, b, k) {
        Ok(x) => part_cells::read_word(words, bytes, x, k % machine::FIELDS),
        Err(refusal) => part_checks::unread(refusal.into()),
    }
}

// Store field number: field k of the object that starts at the block b becomes the number v.
pub fn store_field_number(
    r: Regs,
    words: &mut [u32],
    colours: &mut [u32],
    bytes: &mut [u8],
    b: u32,
    k: u32,
    v: u32,
) -> Outcome
    ensures { given result words.new colours.new bytes.new ≡ store_field_number b k v (heap r words.old colours.old bytes.old) }
{
    match find_field(r, &words[..], &colours[..], &bytes[..], b, k) {
        Ok(x) => {
            part_put::put_number(words, bytes, x, k % machine::FIELDS, v);
            part_checks::done(r, 0)
        }
        Err(refusal) => part_checks::refused(r, refusal.into()),
    }
}

// Store field reference: field k of the object that starts at the block b becomes a reference to t, or the reference 0.
pub fn store_field_reference(
    r: Regs,
    words: &mut [u32],
    colours: &mut [u32],
    bytes: &mut [u8],
    b: u32,
    k: u32,
    t: u32,
) -> Outcome
    ensures { given result words.new colours.new bytes.new ≡ store_field_reference b k t (heap r words.old colours.old bytes.old) }
{
    match find_to_store(r, &words[..], &colours[..], &bytes[..], b, k, t) {
        Ok(x) => {
            let s = part_put::barrier(r, colours, t);
            part_put::put_reference(words, bytes, x, k % machine::FIELDS, t);
            part_checks::done(s, 0)
        }
        Err(refusal) => part_checks::refused(r, refusal.into()),
    }
}

// Store number, Store reference and Set root: what the running program writes.
#![tactic(auto)]

ghost use Rattle.std.specs.Prelude.{◌≡◌};
ghost use Rattle.machine.specs.Heap.{heap};
ghost use Rattle.machine.specs.Answers.{given};
ghost use Rattle.machine.specs.Refusal.{refused_by};
ghost use Rattle.machine.specs.Store.{store_number, store_refusal, store_reference, root_refusal, set_root};

use machine::{Outcome, Refusal, Regs};

// Every refusal of Set root: 1, 2, 4, then 8 and 6.
pub fn root_refusal(
    r: Regs,
    words: &[u32],
    colours: &[u32],
    bytes: &[u8],
    t: u32,
) -> Result<(), Refusal>
    ensures { refused_by result ≡ root_refusal t (heap r words.now colours.now bytes.now) }
{
    part_checks::entry(r, words, colours, bytes)?;
    part_checks::target_place(r.blocks, t)?;
    part_checks::target_refusal(r.blocks, r.phase, r.position, colours, t)
}

// Every refusal of Store reference: 1, 2, 3, 4, then 8 and 5 for the block, then 8 and 6 for the target.
pub fn store_refusal(
    r: Regs,
    words: &[u32],
    colours: &[u32],
    bytes: &[u8],
    b: u32,
    w: u32,
    t: u32,
) -> Result<(), Refusal>
    ensures { refused_by result ≡ store_refusal b w t (heap r words.now colours.now bytes.now) }
{
    part_checks::entry(r, words, colours, bytes)?;
    part_checks::word_refusal(r.blocks, b, w)?;
    part_checks::target_place(r.blocks, t)?;
    part_checks::holder_refusal(r.blocks, r.phase, r.position, colours, b)?;
    part_checks::target_refusal(r.blocks, r.phase, r.position, colours, t)
}

// Store number: word w of the block b becomes the number v.
pub fn store_number(
    r: Regs,
    words: &mut [u32],
    colours: &mut [u32],
    bytes: &mut [u8],
    b: u32,
    w: u32,
    v: u32,
) -> Outcome
    ensures { given result words.new colours.new bytes.new ≡ store_number b w v (heap r words.old colours.old bytes.old) }
{
    let checked = part_checks::read_refusal(r, &words[..], &colours[..], &bytes[..], b, w);
    if let Err(refusal) = checked {
        return part_checks::refused(r, refusal.into());
    }
    part_put::put_number(words, bytes, b, w, v);
    part_checks::done(r, 0)
}

// Store reference: word w of the block b becomes a reference to t, or the reference 0.
pub fn store_reference(
    r: Regs,
    words: &mut [u32],
    colours: &mut [u32],
    bytes: &mut [u8],
    b: u32,
    w: u32,
    t: u32,
) -> Outcome
    ensures { given result words.new colours.new bytes.new ≡ store_reference b w t (heap r words.old colours.old bytes.old) }
{
    if let Err(refusal) = store_refusal(r, &words[..], &colours[..], &bytes[..], b, w, t) {
        return part_checks::refused(r, refusal.into());
    }
    let s = part_put::barrier(r, colours, t);
    part_put::put_reference(words, bytes, b, w, t);
    part_checks::done(s, 0)
}

// Set root: the root becomes t, or none.
pub fn set_root(
    r: Regs,
    words: &mut [u32],
    colours: &mut [u32],
    bytes: &mut [u8],
    t: u32,
) -> Outcome
    ensures { given result words.new colours.new bytes.new ≡ set_root t (heap r words.old colours.old bytes.old) }
{
    if let Err(refusal) = root_refusal(r, &words[..], &colours[..], &bytes[..], t) {
        return part_checks::refused(r, refusal.into());
    }
    let mut s = part_put::barrier(r, colours, t);
    s.root = t;
    part_checks::done(s, 0)
}

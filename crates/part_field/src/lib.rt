// The walk along an object's blocks, to the block that has a field: how far it comes, its first refusal, and the block that it finds.
#![tactic(auto)]

ghost use Rattle.std.specs.Prelude.{◌≡◌, ℕ, ◌≤◌};
ghost use Rattle.machine.specs.Tests.{◌▷◌};
ghost use Rattle.machine.specs.WellFormed.{Block};
ghost use Rattle.machine.specs.Heap.{heap};
ghost use Rattle.machine.specs.Ready.{Ready};
ghost use Rattle.machine.specs.State.{holder_refusal};
ghost use Rattle.part_field.specs.Walks.{Walks};
ghost use Rattle.machine.specs.Refusal.{refused_by};
ghost use Rattle.machine.specs.Field.{field_place, field_block, link_refusal, walk_refusal};
ghost use Rattle.part_field.specs.Finds.{Finds};

use machine::{Refusal, Regs};

// How far a walk came: the block where it stands, and the links that are left to follow.
#[derive(Clone, Copy)]
pub struct Walked {
    pub block: u32,
    pub left: u32,
}

// Refusal 3 for a block and a field.
// Kept: beside word_refusal, which differs in the limit. Each is a definition of its own, in one line, and no function of the limit is shorter.
pub fn field_place(m: u32, b: u32, k: u32) -> Result<(), Refusal>
    requires { m ≤ 16384 }
    ensures { refused_by result ≡ field_place m b k }
{
    if part_colours::is_block(m, b) && k <= machine::LAST_FIELD {
        return Ok(());
    }
    Err(Refusal::NoPlace)
}

// Refusals 3 and 8 for following b's link: 3 where it is no reference or null, 8 where it names no block.
fn link_refusal(
    r: Regs,
    words: &[u32],
    colours: &[u32],
    bytes: &[u8],
    b: u32,
) -> Result<(), Refusal>
    requires { Ready (heap r words.now colours.now bytes.now) × Block r.blocks b }
    ensures { refused_by result ≡ link_refusal b (heap r words.now colours.now bytes.now) }
{
    let at = b as usize - 2;
    if part_cells::bit(bytes[at], machine::LINK as usize) {
        let to = words[8 * at + machine::LINK as usize];
        if part_colours::is_block(r.blocks, to) {
            return Ok(());
        }
        if to == 0 {
            return Err(Refusal::NoPlace);
        }
        return Err(Refusal::Damage);
    }
    Err(Refusal::NoPlace)
}

// Refusals 8 and 5 of the block b, then those of its link.
fn follow_refusal(
    r: Regs,
    words: &[u32],
    colours: &[u32],
    bytes: &[u8],
    b: u32,
) -> Result<(), Refusal>
    requires { Ready (heap r words.now colours.now bytes.now) × Block r.blocks b }
    ensures { refused_by result ≡ holder_refusal (heap r words.now colours.now bytes.now) b ▷ link_refusal b (heap r words.now colours.now bytes.now) }
{
    part_checks::holder_refusal(r.blocks, r.phase, r.position, colours, b)?;
    link_refusal(r, words, colours, bytes, b)
}

// The walk along so many links from the block b on. It stops early at a block that it may not follow.
pub fn walk(r: Regs, words: &[u32], colours: &[u32], bytes: &[u8], b: u32, links: u32) -> Walked
    requires { Ready (heap r words.now colours.now bytes.now) × Block r.blocks b }
    ensures { Walks (heap r words.now colours.now bytes.now) links b result }
{
    let mut at = b;
    for followed in 0..links {
        let Ok(()) = follow_refusal(r, words, colours, bytes, at) else {
            return Walked {
                block: at,
                left: links - followed,
            };
        };
        at = words[8 * (at as usize - 2) + machine::LINK as usize];
    }
    Walked { block: at, left: 0 }
}

// The first refusal of a walk that came so far, if any: where it stopped early that of following on, else 8 and 5 of its last block.
pub fn walk_refusal(
    r: Regs,
    words: &[u32],
    colours: &[u32],
    bytes: &[u8],
    x: Walked,
) -> Result<(), Refusal>
    requires { Ready (heap r words.now colours.now bytes.now) × Block r.blocks x.block }
    ensures { (links b : ℕ) → Walks (heap r words.now colours.now bytes.now) links b x → refused_by result ≡ walk_refusal links b (heap r words.now colours.now bytes.now) }
{
    if x.left != 0 {
        return follow_refusal(r, words, colours, bytes, x.block);
    }
    part_checks::holder_refusal(r.blocks, r.phase, r.position, colours, x.block)
}

// The block that so many links lead to from the block b on, or the first refusal on the way.
#[inline(always)]
pub fn find(
    r: Regs,
    words: &[u32],
    colours: &[u32],
    bytes: &[u8],
    b: u32,
    links: u32,
) -> Result<u32, Refusal>
    requires { Ready (heap r words.now colours.now bytes.now) × Block r.blocks b }
    ensures { Finds result (walk_refusal links b (heap r words.now colours.now bytes.now)) (field_block links b (heap r words.now colours.now bytes.now)) }
{
    let x = walk(r, words, colours, bytes, b, links);
    walk_refusal(r, words, colours, bytes, x)?;
    Ok(x.block)
}

// The tests before a call does anything: refusals 1 to 4 by numbers alone, then 8, 5 and 6 by a block's state.
// Then how a call gives back its answer: answered, and for a call that did no units refused and done.
#![tactic(auto)]

ghost use Rattle.std.specs.Prelude.{◌≡◌, ◌≢◌, true, ◌&&◌, ◌||◌, List, ℕ, ◌≤◌, leb, eqb, ◌*◌, length, if◌then◌else◌};
ghost use Rattle.machine.specs.WellFormed.{Block};
ghost use Rattle.machine.specs.Block.{is_block, word_of};
ghost use Rattle.machine.specs.Heap.{heap};
ghost use Rattle.machine.specs.Colouring.{coloured, is_free, CellsFit, head_legal};
ghost use Rattle.machine.specs.State.{refusal_of, holder_refusal, target_refusal};
ghost use Rattle.machine.specs.Entry.{numbers_fit, lengths_fit, fits, is_block_or_none, mark_legal, position_legal, legal, entry, word_refusal, holder_place, target_place};
ghost use Rattle.machine.specs.Refusal.{number, refused_by};
ghost use Rattle.machine.specs.Read.{read_refusal, read_refused};
ghost use Rattle.machine.specs.Answers.{given, answering, refuse, done};
ghost use Rattle.part_checks.specs.Absent.{refused_as};

use machine::{Answer, Outcome, ReadAnswer, Refusal, Regs, State};

// Whether M and the pace fit.
pub fn numbers_fit(m: u32, u: u32) -> bool
    ensures { result ≡ numbers_fit m u }
{
    1 <= m && (m <= machine::MOST_BLOCKS && u <= machine::MOST_PACE)
}

// Whether the buffers have the lengths that m blocks ask for.
pub fn lengths_fit(m: u32, words: usize, colours: usize, bytes: usize) -> bool
    ensures { result ≡ lengths_fit m words colours bytes }
{
    let n = m as usize;
    words == 8 * n && (colours == n && bytes == n)
}

// Whether M, the pace and the buffers' lengths fit.
pub fn fits(m: u32, u: u32, words: usize, colours: usize, bytes: usize) -> bool
    ensures { result ≡ fits m u words colours bytes }
{
    lengths_fit(m, words, colours, bytes) && numbers_fit(m, u)
}

// Whether b is 0 or a block.
pub fn is_block_or_none(m: u32, b: u32) -> bool
    requires { m ≤ 16384 }
    ensures { result ≡ is_block_or_none m b }
{
    b <= m + 1 && b != 1
}

// Whether the grey head and the position are legal when idle.
fn idle_legal(g: u32, position: u32) -> bool
    ensures { result ≡ (eqb g 1 && eqb position 0) }
{
    g == machine::NO_GREY && position == 0
}

// The same while marking.
fn marking_legal(m: u32, g: u32, position: u32) -> bool
    requires { m ≤ 16384 }
    ensures { result ≡ (eqb position 0 && (eqb g 1 || is_block m g)) }
{
    position == 0 && (g == machine::NO_GREY || part_colours::is_block(m, g))
}

// The same while sweeping, up to the block last.
fn sweeping_legal(last: u32, g: u32, position: u32) -> bool
    ensures { result ≡ (eqb g 1 && (leb 2 position && leb position last)) }
{
    g == machine::NO_GREY && (machine::FIRST <= position && position <= last)
}

// Whether the phase is legal, and the grey head and the position in it.
pub fn phase_legal(r: Regs) -> bool
    requires { r.blocks ≤ 16384 }
    ensures { result ≡ (leb r.phase 2 && (head_legal r.blocks r.phase r.grey && position_legal r)) }
{
    let phase = r.phase;
    match phase {
        machine::IDLE => idle_legal(r.grey, r.position),
        machine::MARKING => marking_legal(r.blocks, r.grey, r.position),
        machine::SWEEPING => sweeping_legal(r.mark, r.grey, r.position),
        _ => false,
    }
}

// Whether the mark is legal.
fn mark_legal(r: Regs) -> bool
    requires { r.blocks ≤ 16384 }
    ensures { result ≡ mark_legal r }
{
    1 <= r.mark && r.mark <= r.blocks + 1
}

// Whether the registers are legal. The order of the tests is the cheapest one: they have one refusal number.
pub fn legal(r: Regs) -> bool
    requires { r.blocks ≤ 16384 }
    ensures { result ≡ legal r }
{
    r.count <= r.blocks
        && (mark_legal(r)
            && (phase_legal(r)
                && (is_block_or_none(r.blocks, r.free) && is_block_or_none(r.blocks, r.root))))
}

// Refusals 1 and 2.
#[inline(always)]
pub fn entry(r: Regs, words: &[u32], colours: &[u32], bytes: &[u8]) -> Result<(), Refusal>
    ensures { refused_by result ≡ entry (heap r words.now colours.now bytes.now) }
{
    if !fits(r.blocks, r.pace, words.len(), colours.len(), bytes.len()) {
        return Err(Refusal::Unfit);
    }
    if !legal(r) {
        return Err(Refusal::Illegal);
    }
    Ok(())
}

// Refusal 3 for a block and a word.
pub fn word_refusal(m: u32, b: u32, w: u32) -> Result<(), Refusal>
    requires { m ≤ 16384 }
    ensures { refused_by result ≡ word_refusal m b w }
{
    if part_colours::is_block(m, b) && w <= 7 {
        return Ok(());
    }
    Err(Refusal::NoPlace)
}

// Refusal 3 for the holder of a new block: 0, 0 is the root.
pub fn holder_place(m: u32, b: u32, w: u32) -> Result<(), Refusal>
    requires { m ≤ 16384 }
    ensures { refused_by result ≡ holder_place m b w }
{
    match (b, w) {
        (0, 0) => Ok(()),
        (0, _) => Err(Refusal::NoPlace),
        _ => word_refusal(m, b, w),
    }
}

// Refusal 4 for a target.
pub fn target_place(m: u32, t: u32) -> Result<(), Refusal>
    requires { m ≤ 16384 }
    ensures { refused_by result ≡ target_place m t }
{
    if is_block_or_none(m, t) {
        return Ok(());
    }
    Err(Refusal::NoTarget)
}

// Why a block isn't there for a call: it is free or doomed, or its colour is outside the layout.
#[derive(Clone, Copy, PartialEq, Eq)]
pub enum Absent {
    Gone,
    Outside,
}

// Whether a block in that state is there for a call. What refuses one that is gone is the caller's to say.
pub fn presence(s: State) -> Result<(), Absent>
    ensures { (gone : ℕ) → refused_as gone result ≡ refusal_of gone s }
{
    match s {
        State::LiveWhite | State::Grey | State::Black => Ok(()),
        State::Doomed | State::Free => Err(Absent::Gone),
        State::Outside => Err(Absent::Outside),
    }
}

// The same as a test, where a block that is gone is refused so.
fn present(gone: Refusal, s: State) -> Result<(), Refusal>
    ensures { refused_by result ≡ refusal_of (number gone) s }
{
    match presence(s) {
        Ok(()) => Ok(()),
        Err(Absent::Gone) => Err(gone),
        Err(Absent::Outside) => Err(Refusal::Damage),
    }
}

// Refusals 8 and 5 for the block to read or write.
pub fn holder_refusal(
    m: u32,
    phase: u32,
    position: u32,
    colours: &[u32],
    b: u32,
) -> Result<(), Refusal>
    requires { (m ≤ 16384) × CellsFit m colours.now × Block m b }
    ensures { (r : Regs) (ws bs : List ℕ) → r.blocks ≡ m → r.phase ≡ phase → r.position ≡ position → refused_by result ≡ holder_refusal (heap r ws colours.now bs) b }
{
    present(
        Refusal::Gone,
        part_state::state_at(m, phase, position, colours, b),
    )
}

// Refusals 8 and 5 for the holder of new blocks, which is tested again after the units. With b 0 the holder is the root, which is refused
// by neither.
pub fn holder_after(r: Regs, colours: &[u32], b: u32) -> Result<(), Refusal>
    requires { (r.blocks ≤ 16384) × CellsFit r.blocks colours.now × (b ≢ 0 → Block r.blocks b) }
    ensures { (ws bs : List ℕ) → refused_by result ≡ (if eqb b 0 then 0 else holder_refusal (heap r ws colours.now bs) b) }
{
    if b == 0 {
        return Ok(());
    }
    holder_refusal(r.blocks, r.phase, r.position, colours, b)
}

// Refusals 8 and 6 for the target, which is 0 or a block.
#[inline(always)]
pub fn target_refusal(
    m: u32,
    phase: u32,
    position: u32,
    colours: &[u32],
    t: u32,
) -> Result<(), Refusal>
    requires { (m ≤ 16384) × CellsFit m colours.now × (t ≢ 0 → Block m t) }
    ensures { (r : Regs) (ws bs : List ℕ) → r.blocks ≡ m → r.phase ≡ phase → r.position ≡ position → refused_by result ≡ target_refusal (heap r ws colours.now bs) t }
{
    if t == 0 {
        return Ok(());
    }
    present(
        Refusal::TargetGone,
        part_state::state_at(m, phase, position, colours, t),
    )
}

// Whether the block a can be taken off the free list: it is coloured free, and its link is 0 or a block.
pub fn can_be_taken(m: u32, words: &[u32], colours: &[u32], a: u32) -> bool
    requires { (m ≤ 16384) × (length words.now ≡ 8 * m) × CellsFit m colours.now × Block m a }
    ensures { (g : ℕ) → result ≡ (is_free (coloured m g colours.now) a && is_block_or_none m (word_of words.now a 0)) }
{
    part_colours::free_at(m, colours, a) && is_block_or_none(m, words[8 * (a as usize - 2)])
}

// Every refusal of Read, where 1 and 2 are known, e: then 3, then 8 and 5. Who reads many blocks tests for 1 and 2 once.
pub fn read_refusal_after(
    e: Result<(), Refusal>,
    r: Regs,
    words: &[u32],
    colours: &[u32],
    bytes: &[u8],
    b: u32,
    w: u32,
) -> Result<(), Refusal>
    requires { refused_by e ≡ entry (heap r words.now colours.now bytes.now) }
    ensures { refused_by result ≡ read_refusal b w (heap r words.now colours.now bytes.now) }
{
    e?;
    word_refusal(r.blocks, b, w)?;
    holder_refusal(r.blocks, r.phase, r.position, colours, b)
}

// Every refusal of Read: 1, 2, 3, then 8 and 5.
#[inline(always)]
pub fn read_refusal(
    r: Regs,
    words: &[u32],
    colours: &[u32],
    bytes: &[u8],
    b: u32,
    w: u32,
) -> Result<(), Refusal>
    ensures { refused_by result ≡ read_refusal b w (heap r words.now colours.now bytes.now) }
{
    let e = entry(r, words, colours, bytes);
    read_refusal_after(e, r, words, colours, bytes, b, w)
}

// What a call gives back: the registers afterwards, the refusal or 0, the value and the units done.
pub fn answered(r: Regs, refusal: u32, value: u32, units: u32) -> Outcome
    ensures { (ws cs bs : List ℕ) → given result ws cs bs ≡ answering refusal value units (heap r ws cs bs) }
{
    Outcome {
        regs: r,
        answer: Answer {
            refusal,
            value,
            units,
        },
    }
}

// Refused by n: no value, no units, the registers as they were.
pub fn refused(r: Regs, n: u32) -> Outcome
    ensures { (ws cs bs : List ℕ) → given result ws cs bs ≡ refuse n (heap r ws cs bs) }
{
    answered(r, n, 0, 0)
}

// Done with the value v, and no units.
pub fn done(r: Regs, v: u32) -> Outcome
    ensures { (ws cs bs : List ℕ) → given result ws cs bs ≡ done v (heap r ws cs bs) }
{
    answered(r, 0, v, 0)
}

// What Read answers where it is refused by n: no value.
pub fn unread(n: u32) -> ReadAnswer
    ensures { result ≡ read_refused n }
{
    ReadAnswer {
        refusal: n,
        ..ReadAnswer::default()
    }
}

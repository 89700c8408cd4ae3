// Why: the reason why a block is still here, and for a reachable one a shortest path to it from the root.
// The heap is audited first, and stays as it is. Its cost is linear in M and in the lent buffers' lengths; what
// it writes to is these three buffers alone.
#![tactic(auto)]

ghost use Rattle.std.specs.Prelude.{◌≡◌, ◌≢◌, true, ◌&&◌, List, ℕ, ◌*◌, ◌≤◌, leb, length};
ghost use Rattle.machine.specs.declared.State.TheVariants.{Outside};
ghost use Rattle.machine.specs.WellFormed.{Block};
ghost use Rattle.machine.specs.Heap.{Heap, heap};
ghost use Rattle.machine.specs.State.{state_of, is_live};
ghost use Rattle.machine.specs.Frame.{Sized};
ghost use Rattle.machine.specs.Search.{path_numbers};
ghost use Rattle.machine.specs.Why.{path_of, live_reason, reason_from, reason_of, padded, why};
ghost use Rattle.call_why.specs.Numbers.{why_in_numbers};

use machine::{Colour, Reason, Refusal, Regs, State, Why, WhyNumbers};

// Whether the lent buffers are long enough for m blocks: two numbers a pair of the path, one a block in each working buffer.
fn long_enough(m: u32, path: usize, queue: usize, came: usize) -> bool
    requires { m ≤ 16384 }
    ensures { result ≡ (leb (2 * m) path && (leb m queue && leb m came)) }
{
    let n = m as usize;
    2 * n <= path && (n <= queue && n <= came)
}

// The reason of a block of colour c that is allocated and not doomed: reachable, or kept. The path is written, if there is one.
fn live_reason(
    m: u32,
    root: u32,
    words: &[u32],
    bytes: &[u8],
    path: &mut [u32],
    queue: &mut [u32],
    came: &mut [u32],
    b: u32,
    c: Colour,
) -> Reason
    requires { (m ≤ 16384) × (length words.now ≡ 8 * m) × (length bytes.now ≡ m) × (2 * m ≤ length path.old) × (length queue.old ≡ m)
        × (length came.old ≡ m) × Block m b }
    ensures { (r : Regs) (cs : List ℕ) → r.blocks ≡ m → r.root ≡ root
        → is_live (state_of (heap r words.now cs bytes.now) b) ≡ true
        → (result ≡ live_reason (heap r words.now cs bytes.now) b c)
        × (path.new ≡ padded (path_numbers (path_of (heap r words.now cs bytes.now) b)) (length path.old)) }
{
    part_search::search(m, root, words, bytes, queue, came);
    let pairs = part_path::put_path(&came[..], b, path);
    if part_path::way_to(&came[..], b) == 0 {
        return Reason::Kept(c);
    }
    Reason::Reachable(pairs)
}

// The colour of a block in this state, if it is allocated and not doomed.
fn colour_of(s: State) -> Colour
    ensures { (h : Heap) (b : ℕ) → is_live s ≡ true → reason_from h b s ≡ live_reason h b result }
{
    match s {
        State::LiveWhite => Colour::White,
        State::Doomed => Colour::White,
        State::Grey => Colour::Grey,
        State::Black => Colour::Black,
        State::Free => Colour::Free,
        State::Outside => Colour::Outside,
    }
}

// The reason of the block b, and the path to it, if there is one; else the path is cleared. The working buffers have M numbers each.
fn reason(
    r: Regs,
    words: &[u32],
    colours: &[u32],
    bytes: &[u8],
    path: &mut [u32],
    queue: &mut [u32],
    came: &mut [u32],
    b: u32,
) -> Reason
    requires { Sized (heap r words.now colours.now bytes.now) × (2 * r.blocks ≤ length path.old) × (length queue.old ≡ r.blocks)
        × (length came.old ≡ r.blocks) × Block r.blocks b × (state_of (heap r words.now colours.now bytes.now) b ≢ Outside) }
    ensures { (result ≡ reason_of (heap r words.now colours.now bytes.now) b)
        × (path.new ≡ padded (path_numbers (path_of (heap r words.now colours.now bytes.now) b)) (length path.old)) }
{
    let s = part_state::state_of(r.blocks, r.phase, r.position, colours, b);
    match s {
        State::Doomed => {
            path.fill(0);
            Reason::Doomed
        }
        State::Free => {
            path.fill(0);
            Reason::Free
        }
        State::LiveWhite | State::Grey | State::Black | State::Outside => {
            live_reason(
                r.blocks,
                r.root,
                words,
                bytes,
                path,
                queue,
                came,
                b,
                colour_of(s),
            )
        }
    }
}

// Why: refused by 1 where M, the pace or a length doesn't fit, by 10 where the audit turns the heap down, by 3 where b is no block, by 13
// where a lent buffer is too short; else the reason is told, the path is written, with 0 behind it, and the working buffers end as 0.
// Kept: the refusal as its number: the definition `why` tells it so, and `theory_why` rests on it.
pub fn why(
    r: Regs,
    words: &[u32],
    colours: &[u32],
    bytes: &[u8],
    path: &mut [u32],
    queue: &mut [u32],
    came: &mut [u32],
    b: u32,
) -> Result<Why, u32>
    ensures { (record { answer = result; path = path.new; queue = queue.new; came = came.new })
        ≡ why path.old queue.old came.old b (heap r words.now colours.now bytes.now) }
{
    if !part_checks::fits(r.blocks, r.pace, words.len(), colours.len(), bytes.len()) {
        return Err(Refusal::Unfit.into());
    }
    if !call_audit::passes(r, words, colours, bytes) {
        return Err(Refusal::BadHeap.into());
    }
    if !part_colours::is_block(r.blocks, b) {
        return Err(Refusal::NoPlace.into());
    }
    if !long_enough(r.blocks, path.len(), queue.len(), came.len()) {
        return Err(Refusal::BadLength.into());
    }
    let m = r.blocks as usize;
    let reason = reason(
        r,
        words,
        colours,
        bytes,
        path,
        &mut queue[0..m],
        &mut came[0..m],
        b,
    );
    queue.fill(0);
    came.fill(0);
    Ok(Why { reason })
}

// The same call, with its answer in numbers.
pub fn why_numbers(
    r: Regs,
    words: &[u32],
    colours: &[u32],
    bytes: &[u8],
    path: &mut [u32],
    queue: &mut [u32],
    came: &mut [u32],
    b: u32,
) -> WhyNumbers
    ensures { (record { answer = result; path = path.new; queue = queue.new; came = came.new })
        ≡ why_in_numbers path.old queue.old came.old b (heap r words.now colours.now bytes.now) }
{
    WhyNumbers::from(why(r, words, colours, bytes, path, queue, came, b))
}

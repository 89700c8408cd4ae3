// The path to a block, read off a search: from the block back to the root, by how each block was come to.
#![tactic(auto)]

ghost use Rattle.std.specs.Prelude.{◌≡◌, ◌++◌, ◌*◌, ◌≤◌, length, drop};
ghost use Rattle.machine.specs.WellFormed.{Block};
ghost use Rattle.machine.specs.Search.{came_to, path_to, path_numbers};
ghost use Rattle.machine.specs.Searched.{Ways};
ghost use Rattle.machine.specs.Why.{padded};
ghost use Rattle.part_path.specs.Paths.{Traced};

// How the block x was come to.
pub fn way_to(came: &[u32], x: u32) -> u32
    requires { Block (length came.now) x }
    ensures { result ≡ came_to came.now x }
{
    came[x as usize - 2]
}

// How many pairs the path to the block x has.
fn pairs(came: &[u32], x: u32) -> usize
    requires { Traced came.now x }
    ensures { result ≡ length (path_to (length came.now) came.now x) }
{
    let mut at = x;
    for n in 0..came.len() {
        let way = way_to(came, at);
        if way <= 1 {
            return n;
        }
        at = way / 8;
    }
    came.len()
}

// The path to the block x, which has n pairs, at the front of the buffer. It is written from its last pair on.
fn write(came: &[u32], x: u32, n: usize, path: &mut [u32])
    requires { Traced came.now x × (n ≡ length (path_to (length came.now) came.now x)) × (2 * n ≤ length path.old) }
    ensures { path.new ≡ path_numbers (path_to (length came.now) came.now x) ++ drop (2 * n) path.old }
{
    let mut at = x;
    // Kept: written by index. With rchunks_exact_mut the proof does not close: of a buffer lent out by chunks it knows the length alone.
    for pair in (0..n).rev() {
        let way = way_to(came, at);
        path[2 * pair] = way / 8;
        path[2 * pair + 1] = way % 8;
        at = way / 8;
    }
}

// The path to the block x, and behind it 0 up to the buffer's end. Answers how many pairs it has.
#[tactic(auto, using(crate::proofs::Walks::path_most))]
pub fn put_path(came: &[u32], x: u32, path: &mut [u32]) -> u32
    requires { Traced came.now x × (2 * length came.now ≤ length path.old) }
    ensures { (result ≡ length (path_to (length came.now) came.now x))
        × (path.new ≡ padded (path_numbers (path_to (length came.now) came.now x)) (length path.old)) }
{
    let n = pairs(came, x);
    write(came, x, n, path);
    path[2 * n..].fill(0);
    n as u32
}

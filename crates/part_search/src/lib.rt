// The search from the root, breadth first, in two lent buffers of M numbers each: `queue` gets the blocks found, in the order found,
// and `came` how each block was come to. Each block is visited once, and each of its references looked at once.
#![tactic(auto)]

ghost use Rattle.std.specs.Prelude.{◌≡◌, ◌*◌, ◌≤◌, ◌<◌, length};
ghost use Rattle.machine.specs.WellFormed.{Block};
ghost use Rattle.machine.specs.Search.{named_in, meet, visit, begun, search};
ghost use Rattle.part_search.specs.Lying.{so_far, Lies, Gives, named_by};

// Kept: two buffers and a number, passed one by one. With a struct that holds the two, the proof of `search` didn't close: where such a
// struct ends, a lent slice is known by its length alone. Tried: its fields' names kept, an end by value, a lifetime for each buffer.

// Word w of the block b names x, which is any number: a block that wasn't found yet is found. Answers the number found afterwards.
fn meet(m: u32, b: u32, w: u32, x: u32, queue: &mut [u32], came: &mut [u32], n: usize) -> usize
    requires { (m ≤ 16384) × Block m b × (w < 8) × Lies m n queue.old came.old }
    ensures { Gives result queue.new came.new (meet m b w x (so_far n queue.old came.old)) }
{
    let i = part_colours::less_two(x);
    if i < m {
        if came[i as usize] == 0 {
            came[i as usize] = 8 * b + w;
            queue[n] = x;
            return n + 1;
        }
    }
    n
}

// The references among the eight words of the block b, from set bit to set bit of its byte. Answers the number found afterwards.
// Kept: the loop keeps what is left of the byte, and its trailing zeros choose the next word (docs/DECISIONS.md). It counts no index.
pub fn visit(
    m: u32,
    part: &[u32],
    byte: u8,
    b: u32,
    queue: &mut [u32],
    came: &mut [u32],
    n: usize,
) -> usize
    requires { (m ≤ 16384) × (length part.now ≡ 8) × Block m b × Lies m n queue.old came.old }
    ensures { Gives result queue.new came.new (visit m b (named_in part.now byte) (so_far n queue.old came.old)) }
{
    let mut k = n;
    let mut rest = byte as u32;
    while rest != 0 {
        let t = rest.trailing_zeros();
        k = meet(m, b, t, part[t as usize], queue, came, k);
        rest -= 1u32 << t;
    }
    k
}

// Where the search begins: at the root, or nowhere where there is none. Answers the number found.
fn begin(m: u32, root: u32, queue: &mut [u32], came: &mut [u32]) -> usize
    requires { (m ≤ 16384) × (length queue.old ≡ m) × (length came.old ≡ m) }
    ensures { Gives result queue.new came.new (begun m root) }
{
    came.fill(0);
    if part_colours::is_block(m, root) {
        came[root as usize - 2] = 1;
        queue[0] = root;
        return 1;
    }
    0
}

// The whole search, whatever the buffers held. Answers the number found.
pub fn search(
    m: u32,
    root: u32,
    words: &[u32],
    bytes: &[u8],
    queue: &mut [u32],
    came: &mut [u32],
) -> usize
    requires { (m ≤ 16384) × (length words.now ≡ 8 * m) × (length bytes.now ≡ m) × (length queue.old ≡ m) × (length came.old ≡ m) }
    ensures { Gives result queue.new came.new (search m root (named_by words.now bytes.now)) }
{
    let mut k = begin(m, root, queue, came);
    let mut i: usize = 0;
    // Kept: the queue grows meanwhile, so that no range or slice is gone through.
    while i < k {
        let b = queue[i];
        let at = b as usize - 2;
        k = visit(m, &words[8 * at..8 * at + 8], bytes[at], b, queue, came, k);
        i += 1;
    }
    k
}

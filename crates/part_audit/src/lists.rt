// The audit's lists: the grey list has exactly the grey blocks, the free list exactly the free ones, and free count of them. A walk of as
// many steps as there are blocks of the colour, which meets only such and is at the end then, has exactly them.
ghost use Rattle.std.specs.Prelude.{◌≡◌, ◌≢◌, ℕ};
ghost use Rattle.machine.specs.declared.Colour.TheVariants.{Outside};
ghost use Rattle.machine.specs.WellFormed.{Block};
ghost use Rattle.machine.specs.Block.{word_of};
ghost use Rattle.machine.specs.Colouring.{word_in, greys_pass};
ghost use Rattle.machine.specs.Heap.{colouring};
ghost use Rattle.machine.specs.Lists.{count_from, walk};
ghost use Rattle.machine.specs.Audit.{frees_pass};
ghost use Rattle.part_audit.specs.Hues.{has_colour};

use machine::Colour;
use part_block::read::Blocks;

// Whether b, which is any number, is a block of the colour.
fn has_colour<B: Blocks>(blocks: &B, c: Colour, b: u32) -> bool
    ensures { result ≡ has_colour (colouring (B.held blocks.now)) c b }
{
    part_block::colour_of(blocks, b) == c
}

// The number of blocks of the colour.
fn count<B: Blocks>(blocks: &B, c: Colour) -> u32
    ensures { result ≡ count_from (has_colour (colouring (B.held blocks.now)) c) (B.held blocks.now).regs.blocks 2 }
{
    let mut n = 0;
    for b in machine::FIRST..blocks.registers().blocks + 2 {
        n += u32::from(has_colour(blocks, c, b));
    }
    n
}

// Whether n steps by next from head on meet only blocks of the colour and lead to the end.
fn walk<B: Blocks, N: Fn(u32) -> u32>(
    blocks: &B,
    c: Colour,
    n: u32,
    head: u32,
    next: N,
    end: u32,
) -> bool
    requires { (c ≢ Outside) × ((b : ℕ) → Block (B.held blocks.now).regs.blocks b → N.pre next b) }
    ensures { (link : ℕ → ℕ) → ((b x : ℕ) → Block (B.held blocks.now).regs.blocks b → N.post next b x → x ≡ link b) → result ≡ walk (has_colour (colouring (B.held blocks.now)) c) link end n head }
{
    let mut a = head;
    for _ in 0..n {
        if !has_colour(blocks, c, a) {
            return false;
        }
        a = next(a);
    }
    a == end
}

// Whether the grey list has exactly the grey blocks.
pub fn greys_pass<B: Blocks>(blocks: &B) -> bool
    ensures { result ≡ greys_pass (colouring (B.held blocks.now)) }
{
    let n = count(blocks, Colour::Grey);
    let head = part_colours::first_grey(blocks.registers().grey);
    let next = |b: u32| -> u32
        requires { Block (B.held blocks.now).regs.blocks b }
        ensures { result ≡ word_in (colouring (B.held blocks.entry.now)) b }
    { blocks.next_grey(b) };
    walk(blocks, Colour::Grey, n, head, next, part_colours::GREY_END)
}

// Whether the free list has exactly the free blocks, and free count of them.
pub fn frees_pass<B: Blocks>(blocks: &B) -> bool
    ensures { result ≡ frees_pass (B.held blocks.now).regs (B.held blocks.now).words (colouring (B.held blocks.now)) }
{
    let r = blocks.registers();
    let next = |b: u32| -> u32
        requires { Block (B.held blocks.now).regs.blocks b }
        ensures { result ≡ word_of (B.held blocks.entry.now).words b 0 }
    { blocks.word(b, 0) };
    count(blocks, Colour::Free) == r.count && walk(blocks, Colour::Free, r.count, r.free, next, 0)
}

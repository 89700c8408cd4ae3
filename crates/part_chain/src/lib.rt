// A chain is laid: the first n of the free list are taken, and each names the next by its word 7.
#![tactic(auto)]

ghost use Rattle.std.specs.Prelude.{◌≡◌, ◌≢◌, ◌≤◌};
ghost use Rattle.machine.specs.WellFormed.{Block};
ghost use Rattle.machine.specs.Heap.{heap};
ghost use Rattle.machine.specs.Ready.{Ready};
ghost use Rattle.machine.specs.Several.{first_frees, take_several_refusal, serve};
ghost use Rattle.machine.specs.Chain.{chain};

use machine::Regs;

// The first n of the free list are taken, and chained in its order: word w of b holds the first, or the root where b is 0, and word 7
// of each block the next one. Answers the registers afterwards. Each link is written once: the block that follows is the first free
// one as soon as a block is taken.
pub fn serve_chain(
    r: Regs,
    words: &mut [u32],
    colours: &mut [u32],
    bytes: &mut [u8],
    b: u32,
    w: u32,
    n: u32,
) -> Regs
    requires { Ready (heap r words.old colours.old bytes.old) × (b ≢ 0 → Block r.blocks b × (w ≤ 7)) × (1 ≤ n) × (take_several_refusal n b (heap r words.old colours.old bytes.old) ≡ 0) }
    ensures { heap result words.new colours.new bytes.new ≡ serve chain b w (first_frees n (heap r words.old colours.old bytes.old)) n 0 (heap r words.old colours.old bytes.old) }
{
    let mut s = part_take::hold(r, words, bytes, b, w, r.free);
    for _ in 1..n {
        let x = s.free;
        s = part_take::take(s, words, colours);
        part_put::put_reference(words, bytes, x, machine::LINK, s.free);
    }
    let last = s.free;
    s = part_take::take(s, words, colours);
    part_put::put_reference(words, bytes, last, machine::LINK, 0);
    s
}

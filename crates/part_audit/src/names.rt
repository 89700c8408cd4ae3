// The audit's test of references: what a word that holds a reference, and the root, may name.
ghost use Rattle.std.specs.Prelude.{◌≡◌, List, ℕ, ◌≤◌, get_or};
ghost use Rattle.machine.specs.WellFormed.{Block};
ghost use Rattle.machine.specs.Block.{references, word_of};
ghost use Rattle.machine.specs.Heap.{colouring, references_of};
ghost use Rattle.machine.specs.Audit.{may_name, may_name_all};

use part_block::read::Blocks;

// Whether a reference may hold x: 0, or a block that may be named.
pub fn may_name<B: Blocks>(blocks: &B, strict: bool, x: u32) -> bool
    ensures { result ≡ may_name (B.held blocks.now).regs (colouring (B.held blocks.now)) strict x }
{
    x == 0 || part_block::may_be_named(strict, part_block::state_of(blocks, x))
}

// Whether every reference among eight words, asked for one by one, may hold what it holds, from set bit to set bit of their byte.
// Kept: the rest of the byte is what such a loop keeps, by its trailing zeros (docs/DECISIONS.md); it counts no index.
pub fn may_name_each<B: Blocks, W: Fn(u32) -> u32>(
    blocks: &B,
    strict: bool,
    byte: u8,
    word: W,
) -> bool
    requires { (w : ℕ) → w ≤ 7 → W.pre word w }
    ensures { (part : List ℕ) → ((w x : ℕ) → w ≤ 7 → W.post word w x → x ≡ get_or part w 0) → result ≡ may_name_all (B.held blocks.now).regs (colouring (B.held blocks.now)) strict (references part byte) }
{
    let mut rest = byte as u32;
    while rest != 0 {
        let t = u32::trailing_zeros(rest);
        if !may_name(blocks, strict, word(t)) {
            return false;
        }
        rest -= 1u32 << t;
    }
    true
}

// The same of the words of the block b.
pub fn may_name_all<B: Blocks>(blocks: &B, strict: bool, b: u32) -> bool
    requires { Block (B.held blocks.now).regs.blocks b }
    ensures { result ≡ may_name_all (B.held blocks.now).regs (colouring (B.held blocks.now)) strict (references_of (B.held blocks.now) b) }
{
    let word = |w: u32| -> u32
        requires { (w ≤ 7) × Block (B.held blocks.now).regs.blocks b }
        ensures { result ≡ word_of (B.held blocks.entry.now).words b w }
    { blocks.word(b, w) };
    may_name_each(blocks, strict, blocks.reference_byte(b), word)
}

// The audit, over what is read of the blocks, so that it is the same for a heap's buffers and for an image. Its cost is linear in M, and
// it keeps no memory of its own.
#![tactic(auto)]

pub mod lists; // lists.rt: the grey list and the free list
pub mod names; // names.rt: what a reference may name

ghost use Rattle.std.specs.Prelude.{◌≡◌, true};
ghost use Rattle.machine.specs.WellFormed.{Block};
ghost use Rattle.machine.specs.Heap.{colouring, references_of};
ghost use Rattle.machine.specs.Ready.{Ready};
ghost use Rattle.machine.specs.Entry.{entry};
ghost use Rattle.machine.specs.Lists.{all_from};
ghost use Rattle.machine.specs.Audit.{layout_passes, may_name_all, block_passes, passes};
ghost use Rattle.part_block.specs.Asked.{answered};

use part_block::Asked;
use part_block::read::Blocks;

// Whether the block b passes, of which this is left to ask.
fn passes_asked<B: Blocks>(blocks: &B, b: u32, asked: Asked) -> bool
    requires { Block (B.held blocks.now).regs.blocks b }
    ensures { result ≡ answered asked (λ strict. may_name_all (B.held blocks.now).regs (colouring (B.held blocks.now)) strict (references_of (B.held blocks.now) b)) }
{
    match asked {
        Asked::Passes => true,
        Asked::Fails => false,
        Asked::Names => names::may_name_all(blocks, false, b),
        Asked::NamesStrictly => names::may_name_all(blocks, true, b),
    }
}

// Whether the block b passes.
fn block_passes<B: Blocks>(blocks: &B, b: u32) -> bool
    requires { Block (B.held blocks.now).regs.blocks b }
    ensures { result ≡ block_passes (B.held blocks.now) b }
{
    passes_asked(blocks, b, part_block::ask(blocks, b))
}

// Whether every block passes.
fn blocks_pass<B: Blocks>(blocks: &B) -> bool
    ensures { result ≡ all_from (block_passes (B.held blocks.now)) (B.held blocks.now).regs.blocks 2 }
{
    for b in machine::FIRST..blocks.registers().blocks + 2 {
        if !block_passes(blocks, b) {
            return false;
        }
    }
    true
}

// Whether the grey list has exactly the grey blocks, asked where every block passes: then a block is grey only while marking.
fn greys<B: Blocks>(blocks: &B) -> bool
    ensures { Ready (B.held blocks.now) → all_from (block_passes (B.held blocks.now)) (B.held blocks.now).regs.blocks 2 ≡ true → result ≡ layout_passes (colouring (B.held blocks.now)) }
{
    if blocks.registers().phase != machine::MARKING {
        return true;
    }
    lists::greys_pass(blocks)
}

// Whether the heap is well-formed, asked where it passes tests 1 and 2. Only a block whose colour is legal passes, so legal colours are
// not looked for apart.
pub fn passes<B: Blocks>(blocks: &B) -> bool
    ensures { entry (B.held blocks.now) ≡ 0 → result ≡ passes (B.held blocks.now) }
{
    let r = blocks.registers();
    blocks_pass(blocks)
        && greys(blocks)
        && names::may_name(blocks, r.phase == machine::MARKING, r.root)
        && lists::frees_pass(blocks)
}

// What is read of a heap's blocks, one by one. The heap's buffers and the sections of an image are two ways in which blocks lie; all that
// asks of them asks this trait.
ghost use Rattle.std.specs.Prelude.{◌≡◌, ◌≤◌};
ghost use Rattle.machine.specs.WellFormed.{Block};
ghost use Rattle.machine.specs.Block.{word_of, byte_of};
ghost use Rattle.machine.specs.Colouring.{word_in};
ghost use Rattle.machine.specs.Heap.{Heap, colouring, colour_of};

use machine::{Colour, Regs};

pub trait Blocks {
    // The heap whose blocks they are.
    ghost held: { Self → Heap };

    // Its registers.
    fn registers(&self) -> Regs
        ensures told { result ≡ (held self.now).regs }
        ensures most { result.blocks ≤ 16384 };

    // The colour of the block b.
    fn colour(&self, b: u32) -> Colour
        requires { Block (held self.now).regs.blocks b }
        ensures { result ≡ colour_of (held self.now) b };

    // The block behind the block b in the grey list, or the list's end.
    fn next_grey(&self, b: u32) -> u32
        requires { Block (held self.now).regs.blocks b }
        ensures { result ≡ word_in (colouring (held self.now)) b };

    // Its reference byte.
    fn reference_byte(&self, b: u32) -> u8
        requires { Block (held self.now).regs.blocks b }
        ensures { result ≡ byte_of (held self.now).bytes b };

    // Its word w.
    fn word(&self, b: u32, w: u32) -> u32
        requires { (w ≤ 7) × Block (held self.now).regs.blocks b }
        ensures { result ≡ word_of (held self.now).words b w };
}

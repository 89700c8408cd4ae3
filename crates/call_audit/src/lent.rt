// A heap's blocks as they lie in its lent buffers.
ghost use Rattle.machine.specs.Heap.{heap};
ghost use Rattle.machine.specs.Frame.{Sized};

use machine::{Colour, Regs};
use part_block::read::Blocks;

// The registers, and buffers of the lengths that their M asks for.
#[derive(Clone, Copy)]
pub struct Lent<'a> {
    pub regs: Regs,
    pub words: &'a [u32],
    pub colours: &'a [u32],
    pub bytes: &'a [u8],
    pub ghost sized: { Sized (heap regs words.now colours.now bytes.now) },
}

impl<'a> Blocks for Lent<'a> {
    ghost held = { λ s. heap s.regs s.words.now s.colours.now s.bytes.now };

    fn registers(&self) -> Regs {
        self.regs
    }

    fn colour(&self, b: u32) -> Colour {
        part_colours::colour_at(self.regs.blocks, self.colours, b)
    }

    fn next_grey(&self, b: u32) -> u32 {
        part_colours::next_grey(self.colours, b)
    }

    fn reference_byte(&self, b: u32) -> u8 {
        self.bytes[b as usize - 2]
    }

    fn word(&self, b: u32, w: u32) -> u32 {
        self.words[8 * (b as usize - 2) + w as usize]
    }
}

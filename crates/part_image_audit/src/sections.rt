// A heap's blocks as they lie in an image: in the sections behind its registers.
ghost use Rattle.std.specs.Prelude.{◌≡◌};
ghost use Rattle.machine.specs.WellFormed.{Block};
ghost use Rattle.machine.specs.Colouring.{colour_word};
ghost use Rattle.machine.specs.Image.{heap_in, colours_in};
ghost use Rattle.part_image_audit.specs.Laid.{Laid};

use machine::{Colour, Regs};
use part_block::read::Blocks;
use part_image::{frame, number_at};

// The registers, and sections of the counts and the length that their M asks for.
#[derive(Clone, Copy)]
pub struct Sections<'a> {
    pub regs: Regs,
    pub sections: &'a [u8],
    pub ghost laid: { Laid regs.blocks sections.now },
}

impl<'a> Sections<'a> {
    // The colour word of the block b. Beside `part_colours`, this alone knows how colours are kept: an image has them so.
    fn colour_word(&self, b: u32) -> u32
        requires { Block self.now.regs.blocks b }
        ensures { result ≡ colour_word (colours_in self.now.sections.now) b }
    {
        number_at(self.sections, 4 + 4 * (b as usize - 2))
    }
}

impl<'a> Blocks for Sections<'a> {
    ghost held = { λ s. heap_in s.regs s.sections.now };

    fn registers(&self) -> Regs {
        self.regs
    }

    fn colour(&self, b: u32) -> Colour {
        part_colours::colour(self.regs.blocks, self.colour_word(b))
    }

    fn next_grey(&self, b: u32) -> u32 {
        self.colour_word(b)
    }

    fn reference_byte(&self, b: u32) -> u8 {
        let at = frame::bytes_at(self.regs.blocks as usize) + 4;
        self.sections[at + (b as usize - 2)]
    }

    fn word(&self, b: u32, w: u32) -> u32 {
        let at = frame::words_at(self.regs.blocks as usize) + 4;
        number_at(self.sections, at + 32 * (b as usize - 2) + 4 * w as usize)
    }
}

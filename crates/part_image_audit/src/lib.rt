// The audit of an image, as it lies: whether it is that of a well-formed heap. The tests are those of the heap's audit; what stands
// here is where the block that is tested lies, in the sections behind the registers.
#![tactic(auto)]

pub mod sections; // sections.rt: the blocks in an image's sections

ghost use Rattle.std.specs.Prelude.{◌≡◌, true};
ghost use Rattle.machine.specs.Audit.{passes};
ghost use Rattle.machine.specs.Image.{decode, is_image};
ghost use Rattle.machine.specs.Frame.{framed};

use part_image::{frame, number_at};
use sections::Sections;

// Whether the heap that the image holds is well-formed. M and U are tested first.
fn passes(image: &[u8]) -> bool
    requires { framed image.now ≡ true }
    ensures { result ≡ passes (decode image.now) }
{
    if !part_checks::numbers_fit(number_at(image, 4), number_at(image, 8)) {
        return false;
    }
    let regs = frame::get_registers(image);
    let sections = frame::behind_registers(image);
    part_checks::legal(regs) && part_audit::passes(&Sections { regs, sections })
}

// Whether the bytes are the image of a heap that the audit accepts, with nothing after it.
pub fn is_image(image: &[u8]) -> bool
    ensures { result ≡ is_image image.now }
{
    frame::framed(image) && passes(image)
}

// Where the sections of an image lie, the test of their counts and of its length, and its registers. Places are counted from the end of
// the registers, so that they are the same whether there are ten or nine.
ghost use Rattle.std.specs.Prelude.{◌≡◌, true, ◌^◌, ◌≤◌, ◌<◌, length};
ghost use Rattle.machine.specs.Image.{number, past_numbers, decode, count_known};
ghost use Rattle.machine.specs.Frame.{blocks_at, bytes_at, words_at, blocks_length, image_length, at, blocks_framed, framed};

use super::{get_items, number_at};
use machine::Regs;

// How many registers an image has.
const REGISTERS: u32 = 10;

// How many one had before there was a mark. Such an image is read, too.
const EARLIER: u32 = 9;

// How long the shortest image is but for its blocks.
const BARE: usize = 52;

// Where the sections behind the registers begin, in an image as it is written.
pub const BLOCKS_AT: usize = 44;

// Where, behind the registers, the section of reference bytes of m blocks begins.
pub fn bytes_at(m: usize) -> usize
    requires { m < 2 ^ 32 }
    ensures { result ≡ bytes_at m }
{
    4 + 4 * m
}

// Where the words' section begins.
pub fn words_at(m: usize) -> usize
    requires { m < 2 ^ 32 }
    ensures { result ≡ words_at m }
{
    bytes_at(m) + 4 + m
}

// How long the sections behind the registers are.
fn blocks_length(m: usize) -> usize
    requires { m < 2 ^ 32 }
    ensures { result ≡ blocks_length m }
{
    words_at(m) + 4 + 32 * m
}

// How long the image is.
pub fn image_length(m: usize) -> usize
    requires { m < 2 ^ 32 }
    ensures { result ≡ image_length m }
{
    BLOCKS_AT + blocks_length(m)
}

// Whether an image may have n registers.
#[tactic(auto, unfolding(machine::specs::Image::count_known))]
fn count_known(n: u32) -> bool
    ensures { result ≡ count_known n }
{
    matches!(n, REGISTERS | EARLIER)
}

// Whether the counts and the length of the sections behind the registers are those of m blocks.
fn blocks_framed(sections: &[u8], m: usize) -> bool
    requires { m < 2 ^ 32 }
    ensures { result ≡ blocks_framed m sections.now }
{
    if sections.len() != blocks_length(m) {
        return false;
    }
    if number_at(sections, 0) as usize != m {
        return false;
    }
    if number_at(sections, bytes_at(m)) as usize != m {
        return false;
    }
    number_at(sections, words_at(m)) as usize == 8 * m
}

// What stands behind the registers.
pub fn behind_registers(image: &[u8]) -> &[u8]
    requires { blocks_at (number image.now) ≤ length image.now }
    ensures { result.now ≡ past_numbers image.now }
{
    let at = 4 + 4 * number_at(image, 0) as usize;
    &image[at..]
}

// Whether the counts and the length are those of an image of as many blocks as its first register says.
pub fn framed(image: &[u8]) -> bool
    ensures { result ≡ framed image.now }
{
    if image.len() < BARE {
        return false;
    }
    if count_known(number_at(image, 0)) {
        return blocks_framed(behind_registers(image), number_at(image, 4) as usize);
    }
    false
}

// The mark: the tenth register, or M + 1 where there are nine.
#[tactic(auto, using(crate::proofs::Framing::framed_least))]
fn get_mark(image: &[u8]) -> u32
    requires { (framed image.now ≡ true) × (at image.now 4 ≤ 16384) }
    ensures { result ≡ (decode image.now).regs.mark }
{
    if number_at(image, 0) == EARLIER {
        return number_at(image, 4) + 1;
    }
    number_at(image, 40)
}

// The registers.
#[tactic(auto, using(crate::proofs::Framing::framed_least))]
pub fn get_registers(image: &[u8]) -> Regs
    requires { (framed image.now ≡ true) × (at image.now 4 ≤ 16384) }
    ensures { result ≡ (decode image.now).regs }
{
    let mut registers = [0u32; 9];
    get_items(image, 4, &mut registers);
    let [
        blocks,
        pace,
        phase,
        grey,
        free,
        count,
        position,
        root,
        cycle,
    ] = registers;
    Regs {
        blocks,
        pace,
        phase,
        grey,
        free,
        count,
        position,
        root,
        cycle,
        mark: get_mark(image),
    }
}

// What an image is made of: numbers as four bytes, the lowest first, and sections of numbers and of single bytes.
#![tactic(auto)]

pub mod frame; // frame.rt: where the sections lie, the test of their counts, and the registers

ghost use Rattle.std.specs.Prelude.{◌≡◌, ◌+◌, ◌*◌, ◌^◌, ◌≤◌, ◌<◌, ℕ, List, ◌++◌, length, take, drop};
ghost use Rattle.machine.specs.Image.{four, fours_of, number, numbers_from};
ghost use Rattle.machine.proofs.Fours.{fours_length};
ghost use Rattle.std.proofs.Common.{rules};
ghost use Rattle.part_image.specs.Placing.{placed};

// The number whose bytes begin at this place.
pub fn number_at(image: &[u8], at: usize) -> u32
    requires { at + 4 ≤ length image.now }
    ensures { result ≡ number (drop at image.now) }
{
    u32::from_le_bytes([image[at], image[at + 1], image[at + 2], image[at + 3]])
}

// The four bytes of n, from this place on.
pub fn put_four(out: &mut [u8], at: usize, n: u32)
    requires { at + 4 ≤ length out.old }
    ensures { out.new ≡ placed at (four n) out.old }
{
    out[at..at + 4].copy_from_slice(&n.to_le_bytes());
}

// What a section holds, items of SIZE bytes each: numbers, or single bytes.
pub trait Item: Copy {
    const SIZE: usize;

    ghost SIZE: { ℕ };

    // The bytes of items, and so many items read from the front of bytes.
    ghost bytes_of: { List Self → List ℕ };

    ghost items_from: { ℕ → List ℕ → List Self };

    // The items at the front of the output.
    fn put(xs: &[Self], out: &mut [u8])
        requires { SIZE * length xs.now ≤ length out.old }
        ensures { out.new ≡ placed 0 (bytes_of xs.now) out.old };

    // As many items as there is room for, from the front of the image.
    fn get(image: &[u8], to: &mut [Self])
        requires { SIZE * length to.old ≤ length image.now }
        ensures { to.new ≡ items_from (length to.old) image.now };

    ghost sized: { (xs : List Self) → length (bytes_of xs) ≡ SIZE * length xs };
}

impl Item for u32 {
    const SIZE: usize = 4;

    ghost SIZE = { 4 };

    ghost bytes_of = { fours_of };

    ghost items_from = { numbers_from };

    ghost sized = { fours_length };

    fn put(xs: &[u32], out: &mut [u8]) {
        for (k, x) in xs.iter().enumerate() {
            put_four(out, 4 * k, *x);
        }
    }

    fn get(image: &[u8], to: &mut [u32]) {
        for (k, x) in to.iter_mut().enumerate() {
            *x = number_at(image, 4 * k);
        }
    }
}

impl Item for u8 {
    const SIZE: usize = 1;

    ghost SIZE = { 1 };

    ghost bytes_of = { λ xs. xs };

    ghost items_from = { take };

    ghost sized = { λ xs. Prim.search rules };

    // Kept: byte by byte, here and in `get`, since `copy_from_slice` is compiled to a call of `memmove` where the length isn't known, and the
    // archive needs no symbol but `memset` (`tests/c/run`).
    fn put(xs: &[u8], out: &mut [u8]) {
        for (k, x) in xs.iter().enumerate() {
            out[k] = *x;
        }
    }

    fn get(image: &[u8], to: &mut [u8]) {
        for (k, x) in to.iter_mut().enumerate() {
            *x = image[k];
        }
    }
}

// A section, from this place on: the count of the items, and they.
pub fn put_section<T: Item>(out: &mut [u8], at: usize, xs: &[T])
    requires { (at + (4 + T.SIZE * length xs.now) ≤ length out.old) × (length xs.now < 2 ^ 32) }
    ensures { out.new ≡ placed at (four (length xs.now) ++ T.bytes_of xs.now) out.old }
{
    put_four(out, at, xs.len() as u32);
    T::put(xs, &mut out[at + 4..]);
}

// The items from this place on, as many as there is room for.
pub fn get_items<T: Item>(image: &[u8], at: usize, to: &mut [T])
    requires { at + T.SIZE * length to.old ≤ length image.now }
    ensures { to.new ≡ T.items_from (length to.old) (drop at image.now) }
{
    T::get(&image[at..], to);
}

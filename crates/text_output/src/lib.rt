// What waits to be written on standard output: bytes of a buffer. They are written out when the buffer has no room left, and at the end.
#![tactic(auto)]

ghost use Rattle.std.specs.Prelude.{◌≡◌, true, ◌≤◌};
ghost use Rattle.text_output.specs.Output.{Roomy, Flushed, Spelt, Put, PutThree};

// The buffer's length.
const SIZE: usize = 65536;

// The most bytes that a number of 64 bits takes in decimal.
const MOST_DIGITS: usize = 20;

// A place up to which a number and a byte still fit behind it.
const LAST_PLACE: usize = 65515;

// The buffer, how many of its bytes wait, and whether every write so far was done whole.
// Kept: the flag, since bytes are put and counted after a failure too.
#[derive(Clone, Copy)]
pub struct Output {
    pub buffer: [u8; SIZE],
    pub used: usize,
    pub well: bool,
}

// Says on standard error that output is lost. Where that can't be written either, there is nowhere left to say it.
fn say_unwritten<R: Eprint>(rt: &R) {
    let _ = rt.eprintln("standard output could not be written: what was printed is not all");
}

// The number n in decimal and the byte stop, from a place on. Answers the place after them.
#[tactic(auto, using(crate::proofs::Writing::few))]
fn spell(out: &mut [u8; SIZE], at: usize, n: u64, stop: u8) -> usize
    requires { at ≤ 65515 }
    ensures { Spelt out.old at n stop result out.new }
{
    let mut text = [0u8; MOST_DIGITS];
    let k = io::decimal(n, &mut text);
    out[at..at + k].copy_from_slice(&text[..k]);
    out[at + k] = stop;
    at + k + 1
}

impl Output {
    // Nothing waits, and nothing has failed.
    pub fn new() -> Self
        ensures { (result.used ≡ 0) × (result.well ≡ true) }
    {
        Output {
            buffer: [0; SIZE],
            used: 0,
            well: true,
        }
    }

    // Whether every write so far was done whole.
    pub fn is_well(&self) -> bool
        ensures { result ≡ self.now.well }
    {
        self.well
    }

    // Writes out what waits, after which nothing waits. A write that fails is said on standard error, once: after it nothing is written.
    pub fn flush<R: Print + Eprint>(&mut self, rt: &R)
        ensures { Flushed self.old self.new }
    {
        // Any value may be handed in: no more waits than the buffer holds.
        let waits = self.used.min(SIZE);
        let written = self.well && rt.write_all(&self.buffer[..waits]).is_ok();
        if self.well && !written {
            say_unwritten(rt);
        }
        self.used = 0;
        self.well = written;
    }

    // Sees to it that there is room for a number and a byte: where there is none, what waits is written out.
    fn make_room<R: Print + Eprint>(&mut self, rt: &R)
        ensures { Roomy self.old self.new }
    {
        if LAST_PLACE < self.used {
            self.flush(rt);
        }
    }

    // Puts the number n in decimal and the byte stop after what waits.
    pub fn put<R: Print + Eprint>(&mut self, rt: &R, n: u64, stop: u8)
        ensures { Put self.old n stop self.new }
    {
        self.make_room(rt);
        let at = self.used;
        self.used = spell(&mut self.buffer, at, n, stop);
    }

    // Puts three numbers, parted by spaces and ended by byte 10.
    pub fn put_three<R: Print + Eprint>(&mut self, rt: &R, first: u32, second: u32, third: u32)
        ensures { PutThree self.old first second third self.new }
    {
        self.put(rt, u64::from(first), b' ');
        self.put(rt, u64::from(second), b' ');
        self.put(rt, u64::from(third), b'\n');
    }
}

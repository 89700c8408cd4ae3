// Lines out of standard input, read into a buffer. The memory taken is constant, and of a line as many bytes are kept as its own buffer holds.
ghost use Rattle.std.specs.Prelude.{◌≡◌, ◌&&◌, true, false, ◌≤◌, min, length, take, Some, MatchOption, IfOk, MatchResult};
ghost use Rattle.text_streams.specs.Input.{begun, ended, read_gives, WentOn, ReadOnce, Next};

use super::cutting::cut_line;
use std::io::{BufRead, Read};
use text_output::Output;

// How many bytes are read at once, at most.
const SIZE: usize = 65536;

// Where reading stands: the place in the buffer to go on at, how many bytes of the buffer were read, how many bytes of a line are kept,
// whether that line is whole, and whether more may come.
// Kept: the two flags, since each of their four pairs occurs, and the bytes kept are counted in each.
#[derive(Clone, Copy)]
pub struct Input {
    pub at: usize,
    pub upto: usize,
    pub kept: usize,
    pub ready: bool,
    pub more: bool,
}

// What was read last, the line that is read, of which N bytes are kept at most, and where reading stands. Any value may be handed in: where
// it tells of more bytes than a buffer holds, the buffer's are meant.
#[derive(Drop)]
pub struct Reader<const N: usize> {
    pub buffer: [u8; SIZE],
    pub line: [u8; N],
    pub state: Input,
}

// Nothing is read any more, and no line is whole.
fn no_more() -> Input
    ensures { result ≡ ended }
{
    Input {
        at: 0,
        upto: 0,
        kept: 0,
        ready: false,
        more: false,
    }
}

// Says on standard error that input is lost. Where that can't be written, there is nowhere left to say it.
fn say_unread<R: Eprint>(rt: &R) {
    let _ = rt.eprintln("standard input could not be read to its end: what was printed is not all");
}

// Where reading stands after a read that gave n bytes, 0 at the end of the input. At the end a line that has any byte is whole.
#[tactic(auto, unfolding(crate::specs::Input::read_gives))]
fn after_bytes(n: usize, kept: usize) -> Input
    ensures { result ≡ read_gives (Some n) kept }
{
    if n == 0 {
        return Input {
            at: 0,
            upto: 0,
            kept,
            ready: 0 < kept,
            more: false,
        };
    }
    Input {
        at: 0,
        upto: n,
        kept,
        ready: false,
        more: true,
    }
}

// Where reading stands after a read. One that failed is said: no line is whole then. A read that a signal broke off counts as failed, as it
// does in std.
fn after_read<R: Eprint>(rt: &R, read: std::io::Result<usize>, kept: usize) -> Input
    requires { IfOk read (λ n. n ≤ 65536) }
    ensures once { ReadOnce kept result }
    ensures gives { MatchResult read (λ n. result ≡ read_gives (Some n) kept) (λ e. result ≡ ended) }
{
    match read {
        Ok(n) => after_bytes(n, kept),
        Err(_) => {
            say_unread(rt);
            no_more()
        }
    }
}

// How many bytes are kept of the line that is gone on with, most being what its buffer holds: none where the last one was whole.
fn begun(s: Input, most: usize) -> usize
    ensures kept { result ≡ begun s most }
    ensures fits { result ≤ most }
{
    if s.ready { 0 } else { s.kept.min(most) }
}

// Goes on in the first n bytes of the buffer, from a place of theirs up to the end of the line or of those bytes.
fn go_on(buffer: &[u8], at: usize, n: usize, line: &mut [u8], kept: usize) -> Input
    requires { (at ≤ n) × (n ≤ length buffer.now) × (kept ≤ length line.old) }
    ensures { WentOn buffer.now at n line.old kept result line.new }
{
    let c = cut_line(&buffer[..n], at, line, kept);
    Input {
        at: c.at,
        upto: n,
        kept: c.length,
        ready: c.ended,
        more: true,
    }
}

// Reads once.
fn read_once<R: std::io::Input + Eprint>(rt: &R, buffer: &mut [u8; SIZE], kept: usize) -> Input
    ensures { ReadOnce kept result }
{
    let mut reader = rt.reader();
    let read = reader.read(buffer);
    after_read(rt, read, kept)
}

// Nothing is read yet.
pub fn start() -> Input
    ensures { result ≡ (record { at = 0; upto = 0; kept = 0; ready = false; more = true }) }
{
    Input {
        more: true,
        ..no_more()
    }
}

// Whether there is more to do: input may come, and no write has failed.
pub fn goes_on(s: Input, out: &Output) -> bool
    ensures { result ≡ (s.more && out.now.well) }
{
    s.more && out.is_well()
}

// Goes on to the end of a line, or of what was read, with a line's buffer of any length. Where nothing of what was read is left, writes out
// what waits, since a read may wait long, and then reads once. Where that write fails, nothing is read any more.
pub fn next<R: std::io::Input + Print + Eprint>(
    rt: &R,
    s: Input,
    buffer: &mut [u8; SIZE],
    line: &mut [u8],
    out: &mut Output,
) -> Input
    ensures { Next s out.old buffer.old line.old result out.new buffer.new line.new }
{
    let kept = begun(s, line.len());
    let upto = s.upto.min(SIZE);
    if s.at < upto {
        return go_on(buffer, s.at, upto, line, kept);
    }
    out.flush(rt);
    if out.is_well() {
        read_once(rt, buffer, kept)
    } else {
        no_more()
    }
}

impl<const N: usize> Reader<N> {
    // Nothing is read yet.
    pub fn new() -> Self
        ensures { result.state ≡ (record { at = 0; upto = 0; kept = 0; ready = false; more = true }) }
    {
        Reader {
            buffer: [0; SIZE],
            line: [0; N],
            state: start(),
        }
    }

    // The line that was read, where it is whole: as many of its bytes as are kept.
    pub fn line(&self) -> Option<&[u8]>
        ensures { MatchOption result (self.now.state.ready ≡ false) (λ l. (self.now.state.ready ≡ true) × (l.now ≡ take self.now.state.kept self.now.line)) }
    {
        if !self.state.ready {
            return None;
        }
        Some(&self.line[..self.state.kept.min(N)])
    }

    // Whether there is more to do: input may come, and no write has failed.
    pub fn goes_on(&self, out: &Output) -> bool
        ensures { result ≡ (self.now.state.more && out.now.well) }
    {
        goes_on(self.state, out)
    }

    // Goes on to the end of a line, or of what was read. Where nothing of that is left, writes out what waits, since a read may wait long,
    // and then reads once. Where that write fails, nothing is read any more.
    pub fn next<R: std::io::Input + Print + Eprint>(&mut self, rt: &R, out: &mut Output)
        ensures { Next self.old.state out.old self.old.buffer self.old.line self.new.state out.new self.new.buffer self.new.line }
    {
        self.state = next(rt, self.state, &mut self.buffer, &mut self.line, out);
    }
}

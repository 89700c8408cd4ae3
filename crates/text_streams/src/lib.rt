// Lines out of standard input, and a word on standard error where reading fails. What waits to be written is written before each read.
#![tactic(auto)]

mod cutting; // cutting.rt: lines out of what was read
mod input; // input.rt: reading

ghost use Rattle.std.specs.Prelude.{◌≡◌};

pub use input::{Input, Reader, goes_on, next, start};
use text_output::Output;

// Goes on until the input has come to its end or what is said can't be written: hands on each line, or None for a turn that ended none, and
// writes out what waits in the end. A proved loop has to end, and nothing says that the input does: so it has as many turns as no run
// uses up.
pub fn drive<
    const N: usize,
    R: std::io::Input + Print + Eprint,
    F: FnMut(Option<&[u8]>, &mut Output),
>(rt: &R, reader: &mut Reader<N>, out: &mut Output, mut each: F)
    requires { F.IsAlwaysCallable each }
    ensures { out.new.used ≡ 0 }
{
    for _ in 0..u64::MAX {
        if !reader.goes_on(out) {
            break;
        }
        reader.next(rt, out);
        each(reader.line(), out);
    }
    out.flush(rt);
}

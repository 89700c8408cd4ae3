// Lines out of what was read: cutting them.
// A line that runs over the edge of what was read is gone on with when more is read, so none is lost or cut there.
ghost use Rattle.std.specs.Prelude.{◌≤◌, length};
ghost use Rattle.text_streams.specs.Streams.{CutOut};

// The byte that ends a line.
const LINE_END: u8 = b'\n';

// How a cut ended: the place to go on at, how many bytes of the line are kept, and whether the line ended there.
// Kept: the flag, since the place and the count are told in both cases.
#[derive(Clone, Copy)]
pub(crate) struct Cut {
    pub(crate) at: usize,
    pub(crate) length: usize,
    pub(crate) ended: bool,
}

// Goes on with a line of which so many bytes are kept, from a place of the input up to its byte 10 or to the end of the input. Of what
// comes to the line, as much is kept as there is room for.
pub(crate) fn cut_line(input: &[u8], from: usize, line: &mut [u8], kept: usize) -> Cut
    requires { (from ≤ length input.now) × (kept ≤ length line.old) }
    ensures { CutOut input.now from line.old kept result line.new }
{
    let rest = &input[from..];
    let end = rest.iter().position(|b| *b == LINE_END);
    let passed = end.unwrap_or(rest.len());
    let room = passed.min(line.len() - kept);
    line[kept..kept + room].copy_from_slice(&rest[..room]);
    Cut {
        at: from + passed + usize::from(end.is_some()),
        length: kept + room,
        ended: end.is_some(),
    }
}

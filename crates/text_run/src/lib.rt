// Lines from standard input, done one after another, with what they say on standard output. The memory taken is constant.
#![tactic(auto)]

ghost use Rattle.text_run.specs.Doing.{Turn};

use text_lines::Heap;
use text_output::Output;
use text_streams::Reader;

// The greatest heap has so many blocks, and 8 words for each.
const BLOCKS: usize = 1024;

const WORDS: usize = 8192;

// Of a line so many bytes are kept: more than 40 break the rules.
const KEPT: usize = 41;

// Does the line, where one is whole, and puts its three numbers.
fn do_line<R: Print + Eprint>(
    rt: &R,
    heap: &mut Heap<WORDS, BLOCKS>,
    line: Option<&[u8]>,
    out: &mut Output,
)
    ensures { Turn heap.old.regs heap.old.words heap.old.colours heap.old.bytes line.entry out.old heap.new.regs heap.new.words heap.new.colours heap.new.bytes out.new }
{
    if let Some(text) = line {
        let said = heap.line(text);
        out.put_three(rt, said.first, said.second, said.third);
    }
}

// Does the lines of standard input on a heap of at most 1,024 blocks.
pub fn run<R: std::io::Input + Print + Eprint>(rt: &R) {
    let mut heap = Heap::<WORDS, BLOCKS>::new();
    let mut reader = Reader::<KEPT>::new();
    let mut out = Output::new();
    text_streams::drive(rt, &mut reader, &mut out, |line, out| {
        do_line(rt, &mut heap, line, out)
    });
}

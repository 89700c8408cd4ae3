// Cases from standard input: a call with its arguments, on a heap given whole, and the answer with the whole heap afterwards.
#![tactic(auto)]

mod cases; // cases.rt: reading a case
mod heaps; // heaps.rt: the numbers of a heap, in their order

use machine::Regs;
use text_commands::Said;
use text_lines::Heap;
use text_output::Output;
use text_streams::Reader;

// A case has at most so many words and blocks.
const WORDS: usize = 64;

const BLOCKS: usize = 8;

// Of a line so many bytes are kept: more than 1,200 are no case.
const KEPT: usize = 1201;

// What is said of Look: the length of the part, its first word and its eighth.
fn looked(regs: Regs, words: &[u32], colours: &[u32], bytes: &[u8], b: u32) -> Said {
    let (first, second, third) = match call_read::look(regs, words, colours, bytes, b) {
        &[first, _, _, _, _, _, _, eighth] => (8, first, eighth),
        _ => (0, 0, 0),
    };
    Said {
        regs,
        first,
        second,
        third,
    }
}

// Does what a case asks for, on its buffers, where it asks for anything.
fn do_call(
    letter: u8,
    arguments: [u32; 3],
    regs: Regs,
    words: &mut [u32],
    colours: &mut [u32],
    bytes: &mut [u8],
) -> Option<Said> {
    if let (b'L', [b, 0, 0]) = (letter, arguments) {
        return Some(looked(regs, words, colours, bytes, b));
    }
    let c = cases::command(letter, &arguments)?;
    Some(text_lines::perform(regs, words, colours, bytes, c))
}

// Fills the buffers, whose lengths are the case's, from a place of the text up to its end.
fn fill_all(
    text: &[u8],
    at: usize,
    words: &mut [u32],
    colours: &mut [u32],
    bytes: &mut [u8],
) -> Option<()> {
    let colours_at = cases::fill(text, at, words)?;
    let bytes_at = cases::fill(text, colours_at, colours)?;
    let end = cases::fill(text, bytes_at, bytes)?;
    if end < text.len() {
        return None;
    }
    Some(())
}

// Reads a line as a case, does it on the parts of the buffers that it takes, and puts what comes of it; None for a line that is no case.
fn do_case<R: Print + Eprint>(
    rt: &R,
    text: &[u8],
    heap: &mut Heap<WORDS, BLOCKS>,
    out: &mut Output,
) -> Option<()> {
    let (head, at) = cases::read_head(text)?;
    let Heap {
        words,
        colours,
        bytes,
        ..
    } = heap;
    let words = words.get_mut(..head.words)?;
    let colours = colours.get_mut(..head.colours)?;
    let bytes = bytes.get_mut(..head.bytes)?;
    fill_all(text, at, words, colours, bytes)?;
    let said = do_call(
        head.letter,
        head.arguments,
        head.regs,
        words,
        colours,
        bytes,
    )?;
    heaps::put(rt, out, said, words, colours, bytes);
    Some(())
}

// Does the line, where one is whole. A line that is no case says 99 0 0.
fn do_line<R: Print + Eprint>(
    rt: &R,
    heap: &mut Heap<WORDS, BLOCKS>,
    line: Option<&[u8]>,
    out: &mut Output,
) {
    let Some(text) = line else {
        return;
    };
    let done = do_case(rt, text, heap, out);
    if done.is_none() {
        out.put_three(rt, 99, 0, 0);
    }
}

// Does the cases of standard input, with at most 64 words, 8 colours and 8 bytes.
pub fn run<R: std::io::Input + Print + Eprint>(rt: &R) {
    let mut heap = Heap::<WORDS, BLOCKS>::new();
    let mut reader = Reader::<KEPT>::new();
    let mut out = Output::new();
    text_streams::drive(rt, &mut reader, &mut out, |line, out| {
        do_line(rt, &mut heap, line, out)
    });
}

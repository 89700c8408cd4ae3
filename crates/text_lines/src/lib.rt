// A line of text is done. What a line gives is in specs/Line.antt.
// The lent buffers are those of the greatest heap that the caller wants; a line acts on the parts of them that M blocks take.
#![tactic(auto)]

ghost use Rattle.std.specs.Prelude.{◌≡◌};
ghost use Rattle.machine.specs.Heap.{heap};
ghost use Rattle.text_commands.specs.Saying.{said};
ghost use Rattle.text_lines.specs.Line.{performed, line_gives};

use machine::{Outcome, Regs};
use text_commands::{Command, Said};

// Does what a line asks for, on buffers of the heap's own lengths.
pub fn perform(
    r: Regs,
    words: &mut [u32],
    colours: &mut [u32],
    bytes: &mut [u8],
    c: Command,
) -> Said
    ensures { said result words.new colours.new bytes.new ≡ performed c (heap r words.old colours.old bytes.old) }
{
    match c {
        Command::Format(m, u) => Said::from(call_format::format(r, words, colours, bytes, m, u)),
        Command::Read(b, w) => Said::of_read(r, call_read::read(r, words, colours, bytes, b, w)),
        Command::StoreNumber(b, w, v) => {
            Said::from(call_store::store_number(r, words, colours, bytes, b, w, v))
        }
        Command::StoreReference(b, w, t) => {
            Said::from(call_store::store_reference(r, words, colours, bytes, b, w, t))
        }
        Command::SetRoot(t) => Said::from(call_store::set_root(r, words, colours, bytes, t)),
        Command::Allocate(b, w) => {
            Said::from(call_allocate::allocate(r, words, colours, bytes, b, w))
        }
        Command::Work(n) => Said::from(call_work::work(r, words, colours, bytes, n)),
        Command::Audit => Said::from(Outcome {
            regs: r,
            answer: call_audit::audit(r, words, colours, bytes),
        }),
    }
}

// Reads a line, given without its byte 10, and does what it asks for.
pub fn line(r: Regs, words: &mut [u32], colours: &mut [u32], bytes: &mut [u8], text: &[u8]) -> Said
    ensures { said result words.new colours.new bytes.new ≡ line_gives text.now (heap r words.old colours.old bytes.old) }
{
    let Some(c) = text_commands::command_of(text) else {
        return Said::of_broken_line(r);
    };
    let m = c.blocks(r) as usize;
    let a = (8 * m).min(words.len());
    let b = m.min(colours.len());
    let d = m.min(bytes.len());
    perform(r, &mut words[..a], &mut colours[..b], &mut bytes[..d], c)
}

// A heap that a program keeps: the registers, and buffers for N blocks, of W words in all. W is 8N; an array's length can't be worked out
// from a parameter.
#[derive(Drop)]
pub struct Heap<const W: usize, const N: usize> {
    pub regs: Regs,
    pub words: [u32; W],
    pub colours: [u32; N],
    pub bytes: [u8; N],
}

impl<const W: usize, const N: usize> Heap<W, N> {
    // Before a first Format the registers are all 0, and so are the buffers.
    pub fn new() -> Self
        ensures { result.regs.blocks ≡ 0 }
    {
        Heap {
            regs: Regs::default(),
            words: [0; W],
            colours: [0; N],
            bytes: [0; N],
        }
    }

    // Does what a command asks for, on all of the buffers.
    pub fn perform(&mut self, c: Command) -> Said
        ensures said { said result self.new.words self.new.colours self.new.bytes ≡ performed c (heap self.old.regs self.old.words self.old.colours self.old.bytes) }
        ensures regs { self.new.regs ≡ result.regs }
    {
        let said = perform(
            self.regs,
            &mut self.words,
            &mut self.colours,
            &mut self.bytes,
            c,
        );
        self.regs = said.regs;
        said
    }

    // Reads a line, given without its byte 10, and does what it asks for, on the parts of the buffers that its blocks take.
    pub fn line(&mut self, text: &[u8]) -> Said
        ensures said { said result self.new.words self.new.colours self.new.bytes ≡ line_gives text.now (heap self.old.regs self.old.words self.old.colours self.old.bytes) }
        ensures regs { self.new.regs ≡ result.regs }
    {
        let given = line(
            self.regs,
            &mut self.words,
            &mut self.colours,
            &mut self.bytes,
            text,
        );
        self.regs = given.regs;
        given
    }
}

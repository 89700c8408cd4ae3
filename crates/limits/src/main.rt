// The cases of document 01 at the limits: each line is what a call answers, or a number of cases 12 and 13. The calls on the greatest
// heap stand in two tables, and are done as heaprun does them.
#![tactic(auto)]

use text_commands::{Command, Said};
use text_lines::Heap;
use text_output::Output;

// The greatest heap's blocks, and 8 words for each; one block more, and its words.
const BLOCKS: usize = 16_384;

const WORDS: usize = 131_072;

const TOO_MANY_BLOCKS: usize = 16_385;

const TOO_MANY_WORDS: usize = 131_080;

// Case 11: the greatest M and pace, a block, the greatest Work, and one more. Then a heap, of which all blocks but one are to get used.
const GREATEST: [Command; 6] = [
    Command::Format(machine::MOST_BLOCKS, machine::MOST_PACE),
    Command::Allocate(0, 0),
    Command::Work(machine::MOST_UNITS),
    Command::Work(65536),
    Command::Format(machine::MOST_BLOCKS, 1),
    Command::Allocate(0, 0),
];

// The last free block is taken; it is found, written, read and audited; no block is free.
const FULL: [Command; 7] = [
    Command::Allocate(16384, 0),
    Command::Read(16384, 0),
    Command::Read(16385, 0),
    Command::StoreNumber(16385, 7, 4294967295),
    Command::Read(16385, 7),
    Command::Audit,
    Command::Allocate(16385, 0),
];

// Puts what a call answered.
fn put_said<R: Print + Eprint>(rt: &R, out: &mut Output, said: Said) {
    out.put_three(rt, said.first, said.second, said.third);
}

// Puts a number as a line.
fn put_number<R: Print + Eprint>(rt: &R, out: &mut Output, number: u64) {
    out.put(rt, number, b'\n');
}

// Calls one after another, and what each answered is put.
fn calls<R: Print + Eprint>(
    rt: &R,
    heap: &mut Heap<WORDS, BLOCKS>,
    out: &mut Output,
    commands: &[Command],
) {
    for c in commands {
        put_said(rt, out, heap.perform(*c));
    }
}

// Blocks are allocated in a chain, each named by the one before, until one is left.
fn chain(heap: &mut Heap<WORDS, BLOCKS>) {
    for b in 2..16384 {
        heap.perform(Command::Allocate(b, 0));
    }
}

// Case 11 on the greatest heap, and a heap all in use.
fn greatest<R: Print + Eprint>(rt: &R, out: &mut Output) {
    let mut heap = Heap::<WORDS, BLOCKS>::new();
    calls(rt, &mut heap, out, &GREATEST);
    chain(&mut heap);
    calls(rt, &mut heap, out, &FULL);
}

// Case 11 where M is out of its range: on buffers that fit 16,385 blocks, M of 0 and of 16,385 is refused.
fn refused(m: u32) -> Said {
    let mut heap = Heap::<TOO_MANY_WORDS, TOO_MANY_BLOCKS>::new();
    heap.perform(Command::Format(m, 1))
}

// Cases 12 and 13: 1 stands for yes and 0 for no.
fn sizes<R: Print + Eprint>(rt: &R, out: &mut Output) {
    put_number(rt, out, call_size::most_in_a_cycle(1024, 10));
    put_number(rt, out, u64::from(call_size::has_room(1024, 10, 614)));
    put_number(rt, out, u64::from(call_size::has_room(1024, 10, 615)));
    put_number(rt, out, call_size::most_in_a_cycle(3, 8));
    put_number(rt, out, u64::from(call_size::has_room(3, 8, 1)));
}

fn main(rt: HostRuntime) {
    let mut out = Output::new();
    for m in [0, 16385] {
        put_said(&rt, &mut out, refused(m));
    }
    greatest(&rt, &mut out);
    sizes(&rt, &mut out);
    out.flush(&rt);
}

// A night: rows are stored behind one another, with garbage made after each, and exported. A row is an object of 14 fields in two
// blocks. Its field 0 links it to the next, the others hold numbers.
use machine::{Answer, Outcome};
use part_rows::Stopped;
use text_commands::Command;
use text_lines::Heap;

// The heap's blocks, and 8 words for each.
pub(crate) const BLOCKS: usize = 16_384;

pub(crate) const WORDS: usize = 131_072;

// How many rows there are, and how many fields each has.
pub(crate) const ROWS: u32 = 7000;

pub(crate) const FIELDS: u32 = 14;

// Room for as many rows as the heap has blocks.
pub(crate) const ROOM: usize = 229_376;

// The list while it grows: the heap, the list's first and its last row, row 6,144 with its second block, the row following it, and how many
// calls were refused.
#[derive(Drop)]
pub(crate) struct Night {
    pub(crate) heap: Heap<WORDS, BLOCKS>,
    pub(crate) first: u32,
    pub(crate) last: u32,
    pub(crate) marked: u32,
    pub(crate) second: u32,
    pub(crate) following: u32,
    pub(crate) refused: u32,
}

// The answer of a call, whose registers the heap keeps.
fn kept(heap: &mut Heap<WORDS, BLOCKS>, o: Outcome) -> Answer {
    heap.regs = o.regs;
    o.answer
}

// An object of two blocks, held by word w of the block b.
fn object(heap: &mut Heap<WORDS, BLOCKS>, b: u32, w: u32) -> Answer {
    let o = call_chain::allocate_chain(
        heap.regs,
        &mut heap.words,
        &mut heap.colours,
        &mut heap.bytes,
        b,
        w,
        2,
    );
    kept(heap, o)
}

// Field k of an object becomes a number.
fn store_number(heap: &mut Heap<WORDS, BLOCKS>, b: u32, k: u32, v: u32) -> Answer {
    let o = call_field::store_field_number(
        heap.regs,
        &mut heap.words,
        &mut heap.colours,
        &mut heap.bytes,
        b,
        k,
        v,
    );
    kept(heap, o)
}

// Field k of an object becomes a reference.
fn store_reference(heap: &mut Heap<WORDS, BLOCKS>, b: u32, k: u32, t: u32) -> Answer {
    let o = call_field::store_field_reference(
        heap.regs,
        &mut heap.words,
        &mut heap.colours,
        &mut heap.bytes,
        b,
        k,
        t,
    );
    kept(heap, o)
}

// What field k of row n holds: k in the upper half of the word, n in the lower.
fn number(n: u32, k: u32) -> u32 {
    (k << 16).wrapping_add(n)
}

impl Night {
    // A night before its first call.
    pub(crate) fn new() -> Self {
        Night {
            heap: Heap::new(),
            first: 0,
            last: 0,
            marked: 0,
            second: 0,
            following: 0,
            refused: 0,
        }
    }

    // One call more, refused with this number, or not with 0.
    fn count(&mut self, refusal: u32) {
        if refusal != 0 {
            self.refused = self.refused.wrapping_add(1);
        }
    }

    // A call of document 01. Answers the value that it gave.
    pub(crate) fn call(&mut self, c: Command) -> u32 {
        let said = self.heap.perform(c);
        self.count(said.first);
        said.second
    }

    // An object of two blocks, held by word w of the block b. Answers its first block.
    fn object(&mut self, b: u32, w: u32) -> u32 {
        let a = object(&mut self.heap, b, w);
        self.count(a.refusal);
        a.value
    }

    // Row n was taken: it is the last one.
    fn grow(&mut self, row: u32, n: u32) {
        self.last = row;
        match n {
            1 => self.first = row,
            6144 => self.marked = row,
            6145 => self.following = row,
            _ => {}
        }
    }

    // The fields of row n, the last one: its field 0 is the null reference, the others hold numbers.
    fn fill(&mut self, n: u32) {
        let row = self.last;
        let a = store_reference(&mut self.heap, row, 0, 0);
        self.count(a.refusal);
        for k in 1..FIELDS {
            let a = store_number(&mut self.heap, row, k, number(n, k));
            self.count(a.refusal);
        }
    }

    // Row n, held by the last row or by the root, and two objects of garbage after it: the root's word 1 holds each until the next.
    fn row(&mut self, n: u32) {
        let row = self.object(self.last, 0);
        self.grow(row, n);
        self.fill(n);
        let root = self.heap.regs.root;
        self.object(root, 1);
        self.object(root, 1);
    }

    // A whole night: an empty heap, the block that holds the list in its word 0, and the rows.
    pub(crate) fn spend(&mut self) {
        self.call(Command::Format(16384, 28));
        self.last = self.call(Command::Allocate(0, 0));
        for n in 1..=ROWS {
            self.row(n);
        }
        let marked = self.marked;
        self.second = self.call(Command::Read(marked, 7));
    }

    // The export of the night's list.
    pub(crate) fn exported(&self, out: &mut [u32]) -> Result<u32, Stopped> {
        let heap = &self.heap;
        call_export_objects::export_objects(
            heap.regs,
            &heap.words,
            &heap.colours,
            &heap.bytes,
            out,
            self.first,
            FIELDS,
            0,
        )
    }
}

// Whether a row of the buffer has the numbers that were stored in row n.
fn as_stored(row: &[u32], n: u32) -> bool {
    row.iter()
        .zip(0..FIELDS)
        .skip(1)
        .all(|(word, k)| *word == number(n, k))
}

// How many of the rows of the night are not as they were stored.
pub(crate) fn unlike(out: &[u32; ROOM]) -> usize {
    out.chunks_exact(FIELDS as usize)
        .zip(1..=ROWS)
        .filter(|(row, n)| !as_stored(row, *n))
        .count()
}

// A night's list: 7,000 rows of 14 fields are stored on a heap of 16,384 blocks, two blocks each, while two objects of garbage are made
// after each row, and the list is exported. Then it is damaged, a way at a time, and each export says that it is not complete, and why.
#![tactic(auto)]

mod damage;
mod night;
mod printing;

use machine::Regs;
use night::{Night, ROOM, ROWS};
use printing::{Told, yes};
use std::io;

// How many cycles came to their end.
fn finished(r: Regs) -> u32 {
    if r.phase == machine::IDLE {
        return r.cycle;
    }
    r.cycle.wrapping_sub(1)
}

// Whether 16,384 blocks at this pace are enough for the rows' 14,000 blocks, the root's, and the two of an object of garbage, where a
// call asks for two blocks at the most: K + 2N + B - 1 ≤ M, with K = 14,003 and B = 2.
fn enough(pace: u32) -> bool {
    call_size::has_room(16384, pace, 14004)
}

// What was done.
fn tell<R: Print>(rt: &R, night: &Night) -> io::Result<()> {
    for pace in [28, 27] {
        let answer = yes(enough(pace));
        println!(rt; "16384 blocks at pace {pace} are enough for 14003 in use: {answer}")?;
    }
    println!(rt;
        "rows of 14 fields stored, each followed by two objects of garbage: {}",
        ROWS
    )?;
    println!(rt; "calls refused: {}", night.refused)?;
    let heap = &night.heap;
    println!(rt;
        "collector cycles finished meanwhile: {}",
        finished(heap.regs)
    )?;
    let audited = call_audit::audit(heap.regs, &heap.words, &heap.colours, &heap.bytes);
    println!(rt; "heap well-formed: {}", yes(audited.value == 1))
}

// The export of the list under these words, and how many rows of the buffer are not as they were stored.
fn show<R: Print>(rt: &R, night: &Night, out: &mut [u32; ROOM], text: &str) -> io::Result<()> {
    let told = Told(night.exported(out));
    println!(rt; "{text}: {told}")?;
    println!(rt;
        "rows that are not as they were stored: {}",
        night::unlike(out)
    )
}

// The export into a buffer of 5,000 rows.
fn shorten<R: Print>(rt: &R, night: &Night) -> io::Result<()> {
    let mut out = [0u32; 70000];
    let told = Told(night.exported(&mut out));
    println!(rt; "into a buffer of 5000 rows: {told}")
}

// The export of the rows' first blocks, eight words each.
fn show_blocks<R: Print>(rt: &R, night: &Night, out: &mut [u32; ROOM]) -> io::Result<()> {
    let heap = &night.heap;
    let told = Told(call_export::export(
        heap.regs,
        &heap.words,
        &heap.colours,
        &heap.bytes,
        out,
        night.first,
        0,
    ));
    println!(rt; "of the rows' first blocks alone: {told}")
}

// The list damaged in five ways, one after another, and mended each time.
fn damaged<R: Print>(rt: &R, night: &mut Night, out: &mut [u32; ROOM]) -> io::Result<()> {
    let told = Told(damage::unlinked(night, out));
    println!(rt; "with row 6144's link stored as a number: {told}")?;
    let told = Told(damage::halved(night, out));
    println!(rt; "with the reference to row 6144's second block stored as a number: {told}")?;
    let told = Told(damage::discoloured(night, out, night.marked));
    println!(rt; "with the colour word of row 6144's first block outside the layout: {told}")?;
    let told = Told(damage::discoloured(night, out, night.second));
    println!(rt; "with the colour word of row 6144's second block outside the layout: {told}")?;
    let told = Told(damage::circled(night, out));
    println!(rt; "with the last row linked to the first: {told}")
}

// A night, and all that is said of it.
fn run<R: Print>(rt: &R, night: &mut Night, out: &mut [u32; ROOM]) -> io::Result<()> {
    tell(rt, night)?;
    show(rt, night, out, "export")?;
    shorten(rt, night)?;
    show_blocks(rt, night, out)?;
    damaged(rt, night, out)?;
    show(rt, night, out, "with all of that mended")?;
    let told = Told(damage::dropped(night, out));
    println!(rt; "once the root let go of it and the collector came by: {told}")?;
    println!(rt; "calls refused, in all: {}", night.refused)
}

// A night, and all that is said of it; on standard error a word where not all could be written.
fn main(rt: HostRuntime) {
    let mut night = Night::new();
    night.spend();
    let mut out = [0u32; ROOM];
    if run(&rt, &mut night, &mut out).is_err() {
        let _ = rt.eprintln("standard output could not be written: what was printed is not all");
    }
}

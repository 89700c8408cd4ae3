// The list damaged a way at a time, exported so, and mended.
use crate::night::{Night, ROOM};
use part_rows::Stopped;
use text_commands::Command;

// A colour word outside the layout.
const NO_COLOUR: u32 = 4_294_967_293;

// The export after one call, and then another call.
fn between(
    night: &mut Night,
    out: &mut [u32; ROOM],
    c: Command,
    d: Command,
) -> Result<u32, Stopped> {
    night.call(c);
    let found = night.exported(out);
    night.call(d);
    found
}

// The link of row 6,144 is stored as a number, and after the export as the reference that it was.
pub(crate) fn unlinked(night: &mut Night, out: &mut [u32; ROOM]) -> Result<u32, Stopped> {
    let (row, next) = (night.marked, night.following);
    between(
        night,
        out,
        Command::StoreNumber(row, 0, next),
        Command::StoreReference(row, 0, next),
    )
}

// The reference to row 6,144's second block is stored as a number, and after the export as the reference that it was.
pub(crate) fn halved(night: &mut Night, out: &mut [u32; ROOM]) -> Result<u32, Stopped> {
    let (row, second) = (night.marked, night.second);
    between(
        night,
        out,
        Command::StoreNumber(row, 7, second),
        Command::StoreReference(row, 7, second),
    )
}

// The last row is linked to the first, and after the export to none.
pub(crate) fn circled(night: &mut Night, out: &mut [u32; ROOM]) -> Result<u32, Stopped> {
    let (last, first) = (night.last, night.first);
    between(
        night,
        out,
        Command::StoreReference(last, 0, first),
        Command::StoreReference(last, 0, 0),
    )
}

// The root lets go of the list, and the collector goes through more than two cycles; after the export the heap is audited.
pub(crate) fn dropped(night: &mut Night, out: &mut [u32; ROOM]) -> Result<u32, Stopped> {
    let root = night.heap.regs.root;
    night.call(Command::StoreReference(root, 0, 0));
    between(night, out, Command::Work(65535), Command::Audit)
}

// The colour word of the block b becomes c. Answers what it was, or c where there is none.
fn recolour(colours: &mut [u32], b: u32, c: u32) -> u32 {
    let Some(at) = b.checked_sub(2) else {
        return c;
    };
    let Some(word) = colours.get_mut(at as usize) else {
        return c;
    };
    std::mem::replace(word, c)
}

// The colour word of the block b is put outside the layout, and after the export it is what it was.
pub(crate) fn discoloured(
    night: &mut Night,
    out: &mut [u32; ROOM],
    b: u32,
) -> Result<u32, Stopped> {
    let heap = &mut night.heap;
    let old = recolour(&mut heap.colours, b, NO_COLOUR);
    let found = night.exported(out);
    let heap = &mut night.heap;
    recolour(&mut heap.colours, b, old);
    found
}

// The numbers of a heap in the order of a case: its words, its colours, its bytes.
use text_commands::Said;
use text_output::Output;

// Puts the answer and the whole heap as a line: the answer's three numbers, the ten registers, then the buffers. Each number waits for the
// next one, since the last one ends the line.
pub(crate) fn put<R: Print + Eprint>(
    rt: &R,
    out: &mut Output,
    s: Said,
    words: &[u32],
    colours: &[u32],
    bytes: &[u8],
) {
    let r = s.regs;
    let told = [
        s.first, s.second, s.third, r.blocks, r.pace, r.phase, r.grey, r.free, r.count, r.position,
        r.root, r.cycle,
    ];
    for number in told {
        out.put(rt, u64::from(number), b' ');
    }
    let mut last = r.mark;
    for word in words.iter().chain(colours) {
        out.put(rt, u64::from(last), b' ');
        last = *word;
    }
    for byte in bytes {
        out.put(rt, u64::from(last), b' ');
        last = u32::from(*byte);
    }
    out.put(rt, u64::from(last), b'\n');
}

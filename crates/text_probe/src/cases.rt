// Reading a case: a line LETTER x y z lw lc lb M U phase grey free count position root cycle mark, then lw words, lc colours and lb
// bytes, each number after a space.
use machine::Regs;
use text_commands::Command;
use text_numbers::Cursor;

// A longer line is no case.
const MOST_BYTES: usize = 1200;

// What a case says before its buffers: the call and its arguments, the lengths of the buffers, and the registers.
#[derive(Clone, Copy)]
pub(crate) struct Head {
    pub(crate) letter: u8,
    pub(crate) arguments: [u32; 3],
    pub(crate) words: usize,
    pub(crate) colours: usize,
    pub(crate) bytes: usize,
    pub(crate) regs: Regs,
}

// The number after the space at a place, and the place where it ends.
fn next(text: &[u8], at: usize) -> Option<(u32, usize)> {
    let &b = text.get(at)?;
    if b != b' ' {
        return None;
    }
    let number = text_numbers::number_at(text, Cursor { at: at + 1 })?;
    Some((number.value, number.end.at))
}

// Fills a buffer with numbers, from a place of the text on. Answers the place where the last one ends. A number that no place of the text
// is left for, or that is too great for the buffer, breaks the case.
pub(crate) fn fill<T: Copy + TryFrom<u32>>(
    text: &[u8],
    start: usize,
    buffer: &mut [T],
) -> Option<usize>
where
    T::Error: Drop,
{
    let mut at = start;
    for place in buffer.iter_mut() {
        let (number, end) = next(text, at)?;
        *place = T::try_from(number).ok()?;
        at = end;
    }
    Some(at)
}

// What a case says before its buffers, where it stands there, and the place where they begin.
pub(crate) fn read_head(text: &[u8]) -> Option<(Head, usize)> {
    let &letter = text.first()?;
    if MOST_BYTES < text.len() {
        return None;
    }
    let mut numbers = [0u32; 16];
    let at = fill(text, 1, &mut numbers)?;
    let [
        x,
        y,
        z,
        words,
        colours,
        bytes,
        blocks,
        pace,
        phase,
        grey,
        free,
        count,
        position,
        root,
        cycle,
        mark,
    ] = numbers;
    let head = Head {
        letter,
        arguments: [x, y, z],
        words: words as usize,
        colours: colours as usize,
        bytes: bytes as usize,
        regs: Regs {
            blocks,
            pace,
            phase,
            grey,
            free,
            count,
            position,
            root,
            cycle,
            mark,
        },
    };
    Some((head, at))
}

// What a case asks for, Look apart: what a line of its letter and arguments does, the others being 0.
pub(crate) fn command(letter: u8, arguments: &[u32; 3]) -> Option<Command> {
    let taken = match letter {
        b'C' => 0,
        b'T' | b'W' => 1,
        b'F' | b'R' | b'A' => 2,
        b'N' | b'S' => 3,
        _ => return None,
    };
    let (mine, others) = arguments.split_at(taken);
    if others.iter().any(|x| *x != 0) {
        return None;
    }
    text_commands::asked(letter, mine)
}

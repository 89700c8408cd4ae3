// Numbers in a line of text: reading them. What a text is parted into, and which parts are numbers, is in specs/.
#![tactic(auto)]

ghost use Rattle.std.specs.Prelude.{◌≡◌, Some, None, if◌then◌else◌};
ghost use Rattle.text_numbers.specs.Numbers.{piece, value, is_number, number_at};

// The greatest number of 32 bits has so many digits.
const MOST_DIGITS: usize = 10;

// A place in a text.
#[derive(Clone, Copy)]
pub struct Cursor {
    pub at: usize,
}

// A number in a text, and the place where its digits end.
#[derive(Clone, Copy)]
pub struct Number {
    pub value: u32,
    pub end: Cursor,
}

// The bytes up to the first space, or to the end.
pub fn piece(text: &[u8]) -> &[u8]
    ensures { result.now ≡ piece text.now }
{
    let end = text.iter().position(|b| *b == b' ').unwrap_or(text.len());
    &text[..end]
}

// The number that a piece is, where it is one.
fn number_of(piece: &[u8]) -> Option<u32>
    ensures { result ≡ (if is_number piece.now then Some (value 0 piece.now) else None) }
{
    if piece.is_empty() || MOST_DIGITS < piece.len() {
        return None;
    }
    let mut n: u64 = 0;
    for b in piece {
        if !b.is_ascii_digit() {
            return None;
        }
        n = 10 * n + u64::from(b - b'0');
    }
    u32::try_from(n).ok()
}

// The number that starts at a place and ends at a space or at the end of the text.
pub fn number_at(text: &[u8], start: Cursor) -> Option<Number>
    ensures { result ≡ number_at text.now start.at }
{
    let digits = piece(text.get(start.at..)?);
    let value = number_of(digits)?;
    let end = Cursor {
        at: start.at + digits.len(),
    };
    Some(Number { value, end })
}

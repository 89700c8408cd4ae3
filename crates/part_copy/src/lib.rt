// The fields of an object copied to a buffer: seven words of each block, and as many of the last as are left. Nothing is tested.
#![tactic(auto)]

ghost use Rattle.std.specs.Prelude.{◌≡◌, ◌-◌, ◌/◌, ◌≤◌, length};
ghost use Rattle.part_copy.specs.Chains.{Chained, chain_words};

const FIELDS: usize = machine::FIELDS as usize;

const LINK: usize = machine::LINK as usize;

// Words to as many words.
// Kept: word by word, since `copy_from_slice` of a length that only the call knows is compiled to a call of `memmove`, and the archive needs
// no symbol but `memset` (`tests/c/run`).
fn copy(to: &mut [u32], from: &[u32])
    requires { length to.old ≡ length from.now }
    ensures { to.new ≡ from.now }
{
    for i in 0..to.len() {
        to[i] = from[i];
    }
}

// The fields of the object that begins at the block b to the row, as many as it has words.
// Kept: the row's parts by their places, since of a row that is lent out by `chunks_mut` a proof knows the length afterwards, and no word.
pub fn write_row(words: &[u32], row: &mut [u32], b: u32)
    requires { (1 ≤ length row.old) × Chained ((length row.old - 1) / 7) b words.now }
    ensures { row.new ≡ chain_words ((length row.old - 1) / 7) (length row.old) b words.now }
{
    let links = (row.len() - 1) / FIELDS;
    let mut at = b;
    for i in 0..links {
        let from = 8 * (at as usize - 2);
        let to = FIELDS * i;
        row[to..to + FIELDS].copy_from_slice(&words[from..from + FIELDS]);
        at = words[from + LINK];
    }
    let from = 8 * (at as usize - 2);
    let to = FIELDS * links;
    let n = row.len() - to;
    copy(&mut row[to..], &words[from..from + n]);
}

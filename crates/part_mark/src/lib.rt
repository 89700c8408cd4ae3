// A unit that marks a block: what the block names is looked over first, then it is made black and what is white is greyed.
#![tactic(auto)]

ghost use Rattle.std.specs.Prelude.{◌≡◌, ◌≢◌, ℕ, ◌≤◌, ◌<◌, length};
ghost use Rattle.machine.specs.declared.Step.TheVariants.{Mark};
ghost use Rattle.machine.specs.Registers.{marking};
ghost use Rattle.machine.specs.WellFormed.{Block};
ghost use Rattle.machine.specs.Block.{references};
ghost use Rattle.machine.specs.Colouring.{coloured, grey_all, CellsFit};
ghost use Rattle.machine.specs.Heap.{heap};
ghost use Rattle.machine.specs.Ready.{Ready};
ghost use Rattle.machine.specs.Seen.{Named};
ghost use Rattle.machine.specs.OneUnit.{all_sound, act, unit, ended};
ghost use Rattle.part_step.specs.Going.{Went};
ghost use Rattle.part_mark.specs.Whites.{whites, looked};

use machine::{Damaged, Ran, Regs, Seen, Step};

// The first pass over the references among a block's eight words, from set bit to set bit of the byte. It answers the byte of the words
// that name white blocks, or that a reference is neither 0 nor an allocated block.
// Kept: the loops over a byte keep what is left of it, and its trailing zeros choose the next word (docs/DECISIONS.md). They count no index.
pub fn seen_all(m: u32, colours: &[u32], part: &[u32], byte: u8) -> Result<u32, Damaged>
    requires { (m ≤ 16384) × CellsFit m colours.now × (length part.now ≡ 8) }
    ensures { (g : ℕ) → result ≡ looked (all_sound (coloured m g colours.now) (references part.now byte)) (whites (coloured m g colours.now) part.now byte) }
{
    let mut rest = byte as u32;
    let mut white: u32 = 0;
    while rest != 0 {
        let t = u32::trailing_zeros(rest);
        let bit = 1u32 << t;
        match part_colours::seen(m, colours, part[t as usize]) {
            Seen::Settled => {}
            Seen::ToGrey => {
                white += bit;
            }
            Seen::Damaged => {
                return Err(Damaged);
            }
        }
        rest -= bit;
    }
    Ok(white)
}

// Each white block named by a word whose bit is set becomes grey, in order. Answers the grey head afterwards.
pub fn grey_all(head: u32, colours: &mut [u32], part: &[u32], bits: u32) -> u32
    requires { (bits < 256) × (length part.now ≡ 8) × Named (length colours.old) (references part.now bits) }
    ensures { (m : ℕ) → CellsFit m colours.old → coloured m result colours.new ≡ grey_all (references part.now bits) (coloured m head colours.old) }
{
    let mut g = head;
    let mut rest = bits;
    while rest != 0 {
        let t = u32::trailing_zeros(rest);
        g = part_colours::grey_white(g, colours, part[t as usize]);
        rest -= 1u32 << t;
    }
    g
}

// The first grey block becomes black, and the white blocks that it names grey.
pub fn mark(r: Regs, words: &[u32], colours: &mut [u32], bytes: &[u8]) -> Result<Regs, Damaged>
    requires { Ready (heap r words.now colours.old bytes.now) × Block r.blocks r.grey }
    ensures { ended r result words.now colours.new bytes.now ≡ act Mark (heap r words.now colours.old bytes.now) }
{
    let i = r.grey as usize - 2;
    let at = 8 * i;
    let byte = bytes[i];
    let white = seen_all(r.blocks, &colours[..], &words[at..at + 8], byte)?;
    let next = part_colours::to_black(r.grey, colours);
    let head = grey_all(next, colours, &words[at..at + 8], white);
    Ok(machine::with_grey(r, head))
}

// A unit while marking, with a grey block.
pub fn mark_unit(r: Regs, words: &[u32], colours: &mut [u32], bytes: &[u8]) -> Result<Regs, Damaged>
    requires { Ready (heap r words.now colours.old bytes.now) × (r.phase ≡ marking) × (r.grey ≢ 1) }
    ensures { ended r result words.now colours.new bytes.now ≡ unit (heap r words.now colours.old bytes.now) }
{
    let word = part_colours::word_of(&colours[..], r.grey);
    if let Step::Mark = part_step::step(r.blocks, r.phase, r.grey, word) {
        return mark(r, words, colours, bytes);
    }
    Err(Damaged)
}

// At most n units, as long as there is a grey block.
// Kept: what is left is counted down. A range costs 26 instructions for a block without references where this costs 17, and checked C takes 24.
pub fn marks(r: Regs, words: &[u32], colours: &mut [u32], bytes: &[u8], n: u32) -> Ran
    requires { Ready (heap r words.now colours.old bytes.now) × (r.phase ≡ marking) × (r.grey ≢ 1) × (1 ≤ n) }
    ensures { Went n (heap r words.now colours.old bytes.now) result words.now colours.new bytes.now }
{
    let mut s = r;
    let mut left = n;
    while left != 0 && s.grey != machine::NO_GREY {
        let Ok(next) = mark_unit(s, words, colours, bytes) else {
            return Ran {
                regs: s,
                units: n - left,
                end: Err(Damaged),
            };
        };
        s = next;
        left -= 1;
    }
    Ran {
        regs: s,
        units: n - left,
        end: Ok(()),
    }
}

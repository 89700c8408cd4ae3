// A line of text: what it asks for, and how what a call gives is said. What a line asks for is in specs/Command.antt.
#![tactic(auto)]

ghost use Rattle.std.specs.Prelude.{◌≡◌, List, ℕ, ◌<◌, length, get_or, drop};
ghost use Rattle.machine.specs.Heap.{heap};
ghost use Rattle.machine.specs.Answers.{Given, ReadGiven};
ghost use Rattle.text_numbers.specs.Numbers.{space, later};
ghost use Rattle.text_commands.specs.Command.{NumbersOf, meant, command_of};
ghost use Rattle.text_commands.specs.Saying.{spoken, said, plainly, reading, blocks_of};

use machine::{Outcome, ReadAnswer, Regs};
use text_numbers::Cursor;

// A longer line breaks the rules.
const MOST_BYTES: usize = 40;

// A command has at most so many numbers.
const MOST_NUMBERS: usize = 3;

// What a line asks for.
#[derive(Clone, Copy)]
pub enum Command {
    Format(u32, u32),
    Read(u32, u32),
    StoreNumber(u32, u32, u32),
    StoreReference(u32, u32, u32),
    SetRoot(u32),
    Allocate(u32, u32),
    Work(u32),
    Audit,
}

// What a line gives: the registers afterwards, and the three numbers to print.
#[derive(Clone, Copy)]
pub struct Said {
    pub regs: Regs,
    pub first: u32,
    pub second: u32,
    pub third: u32,
}

// Reads the numbers after a place, which is that of a space or the end: one after each space. Answers how many there are, where all that
// stands there are numbers, and no more than a command has.
fn numbers_after(text: &[u8], start: Cursor, numbers: &mut [u32; MOST_NUMBERS]) -> Option<usize>
    requires { start.at < length text.now → get_or text.now start.at 0 ≡ space }
    ensures { NumbersOf (later (drop start.at text.now)) result numbers.new }
{
    let mut at = start.at;
    for (count, number) in numbers.iter_mut().enumerate() {
        if text.len() <= at {
            return Some(count);
        }
        let found = text_numbers::number_at(text, Cursor { at: at + 1 })?;
        *number = found.value;
        at = found.end.at;
    }
    if at < text.len() {
        return None;
    }
    Some(MOST_NUMBERS)
}

// What a letter and numbers ask for, where they ask for anything.
#[tactic(auto, using(crate::proofs::Meaning::by_count))]
pub fn asked(letter: u8, numbers: &[u32]) -> Option<Command>
    ensures { result ≡ meant letter numbers.now }
{
    match numbers {
        [] => match letter {
            b'C' => Some(Command::Audit),
            _ => None,
        },
        &[x] => match letter {
            b'T' => Some(Command::SetRoot(x)),
            b'W' => Some(Command::Work(x)),
            _ => None,
        },
        &[x, y] => match letter {
            b'F' => Some(Command::Format(x, y)),
            b'R' => Some(Command::Read(x, y)),
            b'A' => Some(Command::Allocate(x, y)),
            _ => None,
        },
        &[x, y, z] => match letter {
            b'N' => Some(Command::StoreNumber(x, y, z)),
            b'S' => Some(Command::StoreReference(x, y, z)),
            _ => None,
        },
        _ => None,
    }
}

// What a line asks for; None where it breaks the rules.
pub fn command_of(text: &[u8]) -> Option<Command>
    ensures { result ≡ command_of text.now }
{
    if MOST_BYTES < text.len() {
        return None;
    }
    let &[letter] = text_numbers::piece(text) else {
        return None;
    };
    let mut numbers = [0u32; MOST_NUMBERS];
    let count = numbers_after(text, Cursor { at: 1 }, &mut numbers)?;
    asked(letter, &numbers[..count])
}

// What is said of a call's answer.
impl From<Outcome> for Said {
    ghost from_gives = { λ o s. (ws cs bs : List ℕ) (g : Given) → (record { answer = o.answer; heap = heap o.regs ws cs bs }) ≡ g → said s ws cs bs ≡ plainly g };

    fn from(o: Outcome) -> Said {
        let a = o.answer;
        Said {
            regs: o.regs,
            first: a.refusal,
            second: a.value,
            third: a.units,
        }
    }
}

impl Said {
    // What is said of Read's answer.
    pub fn of_read(regs: Regs, a: ReadAnswer) -> Said
        ensures { (ws cs bs : List ℕ) (g : ReadGiven) → (record { answer = a; heap = heap regs ws cs bs }) ≡ g → said result ws cs bs ≡ reading g }
    {
        Said {
            regs,
            first: a.refusal,
            second: a.value,
            third: a.reference,
        }
    }

    // A line that breaks the rules says 99 0 0.
    pub fn of_broken_line(regs: Regs) -> Said
        ensures { (ws cs bs : List ℕ) → said result ws cs bs ≡ spoken 99 0 0 (heap regs ws cs bs) }
    {
        Said {
            regs,
            first: 99,
            second: 0,
            third: 0,
        }
    }
}

impl Command {
    // How many blocks the command acts on: Format's own M, else that of the registers.
    pub fn blocks(self, regs: Regs) -> u32
        ensures { result ≡ blocks_of self regs }
    {
        match self {
            Command::Format(m, _) => m,
            _ => regs.blocks,
        }
    }
}

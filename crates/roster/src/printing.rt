// What an export answered, in plain words.
use part_rows::{Reason, Stopped};
use std::fmt;

// Whether it is complete, with the number of rows; where it isn't, why.
#[derive(Drop)]
pub(crate) struct Told(pub(crate) Result<u32, Stopped>);

// Why an export stopped.
#[derive(Drop)]
struct Because(Reason);

impl fmt::Display for Because {
    fn fmt<W: fmt::Write>(&self, f: &mut fmt::Formatter<W>) -> fmt::Result {
        match self.0 {
            Reason::Circle => write!(f, "the list runs in a circle"),
            Reason::NoRoom => write!(f, "no room for the next"),
            Reason::Refused(n) => write!(f, "a read of the next is refused by {n}"),
            Reason::NoReference => write!(f, "the link of the next is no reference"),
        }
    }
}

impl fmt::Display for Told {
    fn fmt<W: fmt::Write>(&self, f: &mut fmt::Formatter<W>) -> fmt::Result {
        match self.0 {
            Ok(rows) => write!(f, "complete, rows: {rows}"),
            Err(Stopped { rows, reason }) => {
                let why = Because(reason);
                write!(f, "NOT complete, rows: {rows}; {why}")
            }
        }
    }
}

// Yes or no.
pub(crate) fn yes(b: bool) -> &'static str {
    if b { "yes" } else { "no" }
}

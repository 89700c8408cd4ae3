// What the exports share: what a list's rows are to an export, the export itself, why one stops, and its answer in numbers.
#![tactic(auto)]

ghost use Rattle.std.specs.Prelude.{◌≡◌, IsOk, length};
ghost use Rattle.machine.specs.Refusal.{number};
ghost use Rattle.part_rows.specs.declared.Reason.TheVariants.{Refused};
ghost use Rattle.part_rows.specs.Shape.{Shape};
ghost use Rattle.part_rows.specs.Rows.{after, followed, lead, export_rows};
ghost use Rattle.part_rows.specs.Numbers.{reason_number, refusal_number, numbers_of};

use machine::{ReadAnswer, Refusal};

// Why an export stopped: it has M rows and there is one more, so that the list runs in a circle; the next row doesn't fit
// the buffer; reading the row is refused, by this number; its link is no reference.
// Kept: a refusal's number and not the refusal: the definitions of the rows (`block_rows`, `object_rows`) and the theorem `export_means`
// tell it by what Read and Read field answer.
#[derive(Clone, Copy, PartialEq, Eq, Debug)]
pub enum Reason {
    Circle,
    NoRoom,
    Refused(u32),
    NoReference,
}

impl From<Refusal> for Reason {
    ghost from_gives = { λ r reason. reason ≡ Refused (number r) };

    fn from(r: Refusal) -> Reason {
        Reason::Refused(r.into())
    }
}

impl Reason {
    // 1 for a circle, 2 for no room, 3 where reading a row was refused, 4 for a link that is no reference.
    fn number(self) -> u32
        ensures { result ≡ reason_number self }
    {
        match self {
            Reason::Circle => 1,
            Reason::NoRoom => 2,
            Reason::Refused(_) => 3,
            Reason::NoReference => 4,
        }
    }

    // The number by which reading a row was refused, else 0.
    fn refusal(self) -> u32
        ensures { result ≡ refusal_number self }
    {
        match self {
            Reason::Refused(n) => n,
            _ => 0,
        }
    }

    // An export that stopped for this reason, with so many rows written.
    pub fn after(self, rows: u32) -> Stopped
        ensures { result ≡ after rows self }
    {
        Stopped { rows, reason: self }
    }
}

// What an export answers that is not complete: the rows that it has written, and why it stopped.
#[derive(Clone, Copy, PartialEq, Eq, Debug)]
pub struct Stopped {
    pub rows: u32,
    pub reason: Reason,
}

// What the link of a row leads to, by what reading it answers: the next row or 0, or nothing, for this reason.
#[tactic(auto, unfolding(crate::specs::Rows::followed))]
pub fn followed(a: ReadAnswer) -> Result<u32, Reason>
    ensures { result ≡ followed a }
{
    if a.refusal != 0 {
        return Err(Reason::Refused(a.refusal));
    }
    if a.reference != 1 {
        return Err(Reason::NoReference);
    }
    Ok(a.value)
}

// The rows of a list, as an export goes along them. A row has the number of its first block.
pub trait Rows {
    ghost shape: { Self → Shape };

    // The words of a row.
    fn width(&self) -> usize
        ensures { result ≡ (shape self.now).width };

    // The most rows that a list has.
    fn most(&self) -> u32
        ensures { result ≡ (shape self.now).most };

    // The row that the link of the row b leads to, or why it leads to none.
    fn follow(&self, b: u32) -> Result<u32, Reason>
        ensures { result ≡ lead (shape self.now) b };

    // The words of the row b to its place in the buffer.
    fn write(&self, b: u32, row: &mut [u32])
        requires { IsOk (lead (shape self.now) b) × (length row.old ≡ (shape self.now).width) }
        ensures { row.new ≡ (shape self.now).row b };
}

// Export: the rows of the list that starts at the row start, where 0 is the empty list. It is complete, with the number of rows, or
// it is not. Each row passes the four tests, in the order of Reason, before it is written.
// Kept: the row's place is counted, since of a buffer that is lent out by `chunks_exact_mut` a proof knows the length afterwards, and no word.
pub fn export_rows<R: Rows>(rows: &R, start: u32, out: &mut [u32]) -> Result<u32, Stopped>
    ensures { (record { answer = result; out = out.new }) ≡ export_rows (R.shape rows.now) start out.old }
{
    let width = rows.width();
    let most = rows.most();
    let mut b = start;
    let mut n: u32 = 0;
    let mut at: usize = 0;
    while b != 0 {
        if n == most {
            return Err(Reason::Circle.after(n));
        }
        if out.len() - at < width {
            return Err(Reason::NoRoom.after(n));
        }
        let next = rows.follow(b).map_err(|reason| reason.after(n))?;
        rows.write(b, &mut out[at..at + width]);
        b = next;
        n += 1;
        at += width;
    }
    Ok(n)
}

// An export's answer in numbers: complete is 1 or 0; reason is 0 where it is complete, else the reason's number; refusal is the
// refusal's number with reason 3, else 0.
#[repr(C)]
#[derive(Clone, Copy)]
pub struct ExportAnswer {
    pub complete: u32,
    pub rows: u32,
    pub reason: u32,
    pub refusal: u32,
}

impl From<Result<u32, Stopped>> for ExportAnswer {
    ghost from_gives = { λ x answer. answer ≡ numbers_of x };

    fn from(x: Result<u32, Stopped>) -> ExportAnswer {
        match x {
            Ok(rows) => ExportAnswer {
                complete: 1,
                rows,
                reason: 0,
                refusal: 0,
            },
            Err(Stopped { rows, reason }) => ExportAnswer {
                complete: 0,
                rows,
                reason: reason.number(),
                refusal: reason.refusal(),
            },
        }
    }
}

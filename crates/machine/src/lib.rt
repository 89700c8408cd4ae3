// The declared types of the block heap: what the calls take, keep and answer.
// The machine itself, document 01 as definitions, is in specs/.
#![tactic(auto)]

pub mod numbers; // numbers.rt: what Why answers, in numbers

ghost use Rattle.std.specs.Prelude.{◌≡◌};
ghost use Rattle.machine.specs.Registers.{with_grey};
ghost use Rattle.machine.specs.Refusal.{number};

// The largest heap, pace and count of units that Work takes.
pub const MOST_BLOCKS: u32 = 16_384;

pub const MOST_PACE: u32 = 65_535;

pub const MOST_UNITS: u32 = 65_535;

// An object: how many fields each of its blocks has, the word that names its next block, and the last field of the longest one.
pub const FIELDS: u32 = 7;

pub const LINK: u32 = 7;

pub const LAST_FIELD: u32 = 1_791;

// The longest chain, in blocks.
pub const MOST_CHAIN: u32 = 256;

// The phases.
// Kept: numbers, since C holds them in the record, and a call takes a record with any number in it.
pub const IDLE: u32 = 0;

pub const MARKING: u32 = 1;

pub const SWEEPING: u32 = 2;

// The end of the grey list, the mark when no block was handed out, and the first block.
pub const NO_GREY: u32 = 1;

pub const NONE_USED: u32 = 1;

pub const FIRST: u32 = 2;

// The colour words that are no link.
// Kept: numbers, since C lends the buffer of them, and any word may stand there. What a word means is the enum Colour.
pub const WHITE: u32 = 0;

pub const BLACK: u32 = 4_294_967_295;

pub const FREE: u32 = 4_294_967_294;

// Why a call is refused. As a number each is the refusal number of document 01, and the last two of document 02.
#[derive(Clone, Copy, PartialEq, Eq)]
pub enum Refusal {
    // M, U or a length doesn't fit.
    Unfit = 1,
    // The registers aren't legal.
    Illegal = 2,
    // There is no such block or word.
    NoPlace = 3,
    // The target is neither 0 nor a block.
    NoTarget = 4,
    // The block is free or doomed.
    Gone = 5,
    // The target is.
    TargetGone = 6,
    // No block is free.
    NoRoom = 7,
    // A colour or link met is outside the layout.
    Damage = 8,
    // Work is asked for too many units.
    TooManyUnits = 9,
    // The heap or the image is none that the audit accepts.
    BadHeap = 10,
    // A lent buffer has another length than it should, or is too short.
    BadLength = 13,
}

impl From<Refusal> for u32 {
    ghost from_gives = { λ r n. n ≡ number r };

    fn from(r: Refusal) -> u32 {
        r as u32
    }
}

// The numbers by which a state is told to the host.
// Kept: numbers, since the C header names them: enum dergamoyne_block_state, and below enum dergamoyne_why_reason.
pub const TOLD_LIVE_WHITE: u32 = 1;

pub const TOLD_DOOMED: u32 = 2;

pub const TOLD_GREY: u32 = 3;

pub const TOLD_BLACK: u32 = 4;

pub const TOLD_FREE: u32 = 5;

pub const TOLD_OUTSIDE: u32 = 6;

// The numbers by which a reason is told to the host.
pub const WHY_FREE: u32 = 1;

pub const WHY_DOOMED: u32 = 2;

pub const WHY_REACHABLE: u32 = 3;

pub const WHY_KEPT: u32 = 4;

// The register record, in document 01's order, then the mark: the highest block handed out since format.
#[repr(C)]
#[derive(Clone, Copy, Default, PartialEq, Eq)]
pub struct Regs {
    pub blocks: u32,
    pub pace: u32,
    pub phase: u32,
    pub grey: u32,
    pub free: u32,
    pub count: u32,
    pub position: u32,
    pub root: u32,
    pub cycle: u32,
    pub mark: u32,
}

// The registers with the grey head g.
pub fn with_grey(r: Regs, g: u32) -> Regs
    ensures { result ≡ with_grey g r }
{
    Regs { grey: g, ..r }
}

// What a call answers: a refusal number or 0, a value (0 if none), and the units done.
#[repr(C)]
#[derive(Clone, Copy, Default, PartialEq, Eq)]
pub struct Answer {
    pub refusal: u32,
    pub value: u32,
    pub units: u32,
}

// What Read answers: its `reference` is 1 for a word that is a reference, else 0.
#[repr(C)]
#[derive(Clone, Copy, Default, PartialEq, Eq)]
pub struct ReadAnswer {
    pub refusal: u32,
    pub value: u32,
    pub units: u32,
    pub reference: u32,
}

// What a call gives back: the registers afterwards and its answer.
#[derive(Clone, Copy)]
pub struct Outcome {
    pub regs: Regs,
    pub answer: Answer,
}

// What a colour word means.
#[derive(Clone, Copy, PartialEq, Eq)]
pub enum Colour {
    White,
    Grey,
    Black,
    Free,
    Outside,
}

// What a number is to a call: a block that is allocated and not doomed, by its colour; a doomed block; a free one; or outside the layout,
// as a number is that is no block.
#[derive(Clone, Copy)]
pub enum State {
    LiveWhite,
    Doomed,
    Grey,
    Black,
    Free,
    Outside,
}

// Why a block is still here, of document 02's request L6: it is free; it is doomed; it is reachable, by a path of so many pairs; or it
// is out of reach and not doomed, with its colour.
#[derive(Clone, Copy)]
pub enum Reason {
    Free,
    Doomed,
    Reachable(u32),
    Kept(Colour),
}

// The record that holds the reason.
#[derive(Clone, Copy)]
pub struct Why {
    pub reason: Reason,
}

// What Why answers, in numbers: reason is 0 where refusal isn't, else 1 for a free block, 2 for a doomed one, 3 for a reachable one, whose path
// has so many pairs, 4 for one that is kept, whose state is told as State tells it.
#[repr(C)]
#[derive(Clone, Copy)]
pub struct WhyNumbers {
    pub refusal: u32,
    pub reason: u32,
    pub pairs: u32,
    pub state: u32,
}

// The step that a unit takes.
#[derive(Clone, Copy)]
pub enum Step {
    Begin,
    Mark,
    Turn,
    Reclaim,
    Whiten,
    Pass,
    Damage,
}

// What marking sees of a reference before it writes: it is 0 or a block that isn't white; a white block, which is to be greyed; or
// neither 0 nor an allocated block.
#[derive(Clone, Copy)]
pub enum Seen {
    Settled,
    ToGrey,
    Damaged,
}

// A unit met damage, and did nothing. Where it is none, a unit answers the registers after it.
#[derive(Clone, Copy, PartialEq, Eq)]
pub struct Damaged;

// What units in a row answer: the registers after them, the units finished, and whether damage ended them.
#[derive(Clone, Copy)]
pub struct Ran {
    pub regs: Regs,
    pub units: u32,
    pub end: Result<(), Damaged>,
}

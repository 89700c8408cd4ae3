// Why's answer in numbers, for a caller that takes no enum.
ghost use Rattle.std.specs.Prelude.{◌≡◌};
ghost use Rattle.machine.specs.Why.{told, kept_number, reason_numbers, why_numbers};

use super::{Colour, Reason, Why, WhyNumbers};

// The number of a kept block's colour, as State tells it.
fn kept_number(c: Colour) -> u32
    ensures { result ≡ kept_number c }
{
    match c {
        Colour::White => super::TOLD_LIVE_WHITE,
        Colour::Grey => super::TOLD_GREY,
        Colour::Black => super::TOLD_BLACK,
        Colour::Free => super::TOLD_FREE,
        Colour::Outside => super::TOLD_OUTSIDE,
    }
}

// What was told, in these numbers.
fn told(reason: u32, pairs: u32, state: u32) -> WhyNumbers
    ensures { result ≡ told reason pairs state }
{
    WhyNumbers {
        refusal: 0,
        reason,
        pairs,
        state,
    }
}

// A reason in numbers.
impl From<Reason> for WhyNumbers {
    ghost from_gives = { λ x n. n ≡ reason_numbers x };

    fn from(x: Reason) -> WhyNumbers {
        match x {
            Reason::Free => told(super::WHY_FREE, 0, 0),
            Reason::Doomed => told(super::WHY_DOOMED, 0, 0),
            Reason::Reachable(pairs) => told(super::WHY_REACHABLE, pairs, 0),
            Reason::Kept(c) => told(super::WHY_KEPT, 0, kept_number(c)),
        }
    }
}

// An answer in numbers.
impl From<Result<Why, u32>> for WhyNumbers {
    ghost from_gives = { λ a n. n ≡ why_numbers a };

    fn from(a: Result<Why, u32>) -> WhyNumbers {
        match a {
            Ok(w) => WhyNumbers::from(w.reason),
            Err(n) => WhyNumbers {
                refusal: n,
                reason: 0,
                pairs: 0,
                state: 0,
            },
        }
    }
}

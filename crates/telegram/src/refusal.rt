ghost use Rattle.std.specs.Prelude.{◌≡◌};
ghost use Rattle.telegram.specs.Refusals.{number_of, from_list};

use order::ListRefusal;

/// Why a telegram is refused.
#[derive(Clone, Copy, Debug, PartialEq, Eq)]
pub enum Refusal {
    EndsEarly,
    LeftOver,
    TooManyOrders,
    BadMap,
    BadClass,
    BadListCount,
    RepeatedCell,
}

/// The number of the refusal.
// By a match, so that an edit of one number is refused by the check and not by the compiler.
impl From<Refusal> for u8 {
    ghost from_gives = { λ r n. n ≡ number_of r };

    fn from(refusal: Refusal) -> u8 {
        match refusal {
            Refusal::EndsEarly => 1,
            Refusal::LeftOver => 2,
            Refusal::TooManyOrders => 3,
            Refusal::BadMap => 4,
            Refusal::BadClass => 5,
            Refusal::BadListCount => 6,
            Refusal::RepeatedCell => 7,
        }
    }
}

impl Refusal {
    /// The refusal beside its place.
    pub(super) fn at(self, place: usize) -> Refused
        ensures refusal { result.refusal ≡ self }
        ensures place { result.place ≡ place }
    {
        Refused {
            refusal: self,
            place,
        }
    }
}

impl From<ListRefusal> for Refusal {
    ghost from_gives = { λ l r. r ≡ from_list l };

    fn from(refusal: ListRefusal) -> Refusal {
        match refusal {
            ListRefusal::TooMany => Refusal::BadListCount,
            ListRefusal::Repeated => Refusal::RepeatedCell,
        }
    }
}

/// A refusal beside its place: the byte that offends, or the telegram's length where it ends early.
#[derive(Clone, Copy, Debug, PartialEq, Eq)]
pub struct Refused {
    pub refusal: Refusal,
    pub place: usize,
}

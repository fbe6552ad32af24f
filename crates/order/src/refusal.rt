ghost use Rattle.std.specs.Prelude.{◌≡◌};
ghost use Rattle.order.specs.Refusals.{number_of};

/// Why a list takes no further cell.
#[derive(Clone, Copy, Debug, PartialEq, Eq)]
pub enum ListRefusal {
    TooMany,
    Repeated,
}

/// The number of the refusal.
// By a match, so that an edit of one number is refused by the check and not by the compiler.
impl From<ListRefusal> for u8 {
    ghost from_gives = { λ r n. n ≡ number_of r };

    fn from(refusal: ListRefusal) -> u8 {
        match refusal {
            ListRefusal::TooMany => 6,
            ListRefusal::Repeated => 7,
        }
    }
}

ghost use Rattle.std.specs.Prelude.{◌≡◌};
ghost use Rattle.store.specs.Faults.{cause_number, missing, passed_up, raised};

/// Why a store refuses a cell.
#[derive(Clone, Copy, PartialEq, Eq, Debug)]
pub enum Cause {
    NoSuchCell,
    OutsideWindow,
}

/// A cell that a store refuses.
#[derive(Clone, Copy, PartialEq, Eq, Debug)]
pub struct Fault {
    pub cause: Cause,
    /// The cell as the refusing store or layer was asked for it.
    pub cell: u16,
    /// The number of layers above the one that refused.
    pub depth: u16,
}

/// The number of the cause.
// By a match, so that an edit of one number is refused by the check and not by the compiler.
impl From<Cause> for u8 {
    ghost from_gives = { λ c n. n ≡ cause_number c };

    fn from(cause: Cause) -> u8 {
        match cause {
            Cause::NoSuchCell => 1,
            Cause::OutsideWindow => 2,
        }
    }
}

impl Fault {
    /// The fault as the layer above passes it up.
    pub fn passed_up(self) -> Fault
        ensures { result ≡ passed_up self }
    {
        Fault {
            depth: self.depth.saturating_add(1),
            ..self
        }
    }
}

/// The answer of the store below as a layer passes it up.
pub fn pass_up<T>(answer: Result<T, Fault>) -> Result<T, Fault>
    ensures { result ≡ raised answer }
{
    answer.map_err(Fault::passed_up)
}

/// The fault of a cell that the store does not have.
pub fn no_such_cell(cell: u16) -> Fault
    ensures { result ≡ missing cell }
{
    Fault {
        cause: Cause::NoSuchCell,
        cell,
        depth: 0,
    }
}

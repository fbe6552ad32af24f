ghost use Rattle.std.specs.Prelude.{◌≡◌};
ghost use Rattle.store.specs.Slices.{refusal_number, unless_taken};

/// Why no store is built over lent slices.
#[derive(Clone, Copy, PartialEq, Eq, Debug)]
pub enum Refusal {
    /// A slice has more than 16,384 elements, two differ in length, or the cell numbers do not rise strictly.
    BadSlices,
}

/// The number of the refusal.
// By a match, as the numbers of the other refusals.
impl From<Refusal> for u8 {
    ghost from_gives = { λ r n. n ≡ refusal_number r };

    fn from(refusal: Refusal) -> u8 {
        match refusal {
            Refusal::BadSlices => 13,
        }
    }
}

/// A store as it was built; if the slices were refused, the refusal, beside a store without cells.
// No Result, since the store is used on, without cells, and gives the lent memory back.
#[derive(Drop)]
pub struct Built<S> {
    pub store: S,
    pub refused: Option<Refusal>,
}

/// The most cells that a store over lent slices has.
pub const MAX_CELLS: usize = 16384;

/// The refusal, unless the slices are taken.
// No Result, since it answers what `Built` holds.
pub fn refusal_unless(taken: bool) -> Option<Refusal>
    ensures { result ≡ unless_taken taken }
{
    (!taken).then_some(Refusal::BadSlices)
}

//! What a keeper may rely on, whichever store it is.
ghost use Rattle.store.specs.Laws.{WritesAreReadBack, OtherCellsStay, FaultsChangeNothing, CellsNeverChange, WindowsShowTheirPart, FifteenHalvings};

/// A write is read back, no other cell changes, a refused write changes nothing, and the set of cells and the faults never
/// change.
#[tactic(auto, using(crate::proofs::Writes::cells_never_change))]
pub fn writes_are_kept()
    ensures back { WritesAreReadBack }
    ensures others { OtherCellsStay }
    ensures faults { FaultsChangeNothing }
    ensures cells { CellsNeverChange }
{}

/// A window shows exactly its part of the store below.
pub fn windows_show_their_part()
    ensures { WindowsShowTheirPart }
{}

/// A sparse store finds a cell by at most fifteen halvings.
#[tactic(auto, using(crate::proofs::Halving::fifteen_halvings))]
pub fn halving_is_short()
    ensures { FifteenHalvings }
{}

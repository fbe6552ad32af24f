ghost use Rattle.std.specs.Prelude.{◌≡◌, ℕ, ◌<◌, Option, Some};

/// Where in a lent slice the value of each cell stands.
pub trait Layout: Drop {
    /// The place of a cell's value among so many values; none if the cell is not in the set.
    ghost place: { Self → ℕ → ℕ → Option ℕ };

    /// The place of a cell's value among `len` values.
    fn place(&self, len: usize, cell: u16) -> Option<usize>
        ensures { result ≡ place self.now len cell };

    /// A place is one of the values.
    ghost within: { (it : Self) (n c i : ℕ) → place it n c ≡ Some i → i < n };

    /// No two cells share a place.
    ghost apart: { (it : Self) (n c d i : ℕ) → place it n c ≡ Some i → place it n d ≡ Some i → c ≡ d };
}

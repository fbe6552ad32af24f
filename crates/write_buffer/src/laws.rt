//! What a keeper may rely on, over whichever store a buffer stands.
ghost use Rattle.write_buffer.specs.Laws.{AtMostSixteen, RewritesRenewNoAge, CellsAreThoseBelow, FlushShowsNothing};

/// At most sixteen values are held, none twice for a cell, and a rewrite renews no age.
#[tactic(auto, using(crate::proofs::Bounds::ages_stay))]
pub fn buffers_are_bounded()
    ensures sixteen { AtMostSixteen }
    ensures ages { RewritesRenewNoAge }
{}

/// The cells and the faults are those of the store below, and a flush changes nothing that a reader sees.
#[tactic(auto, using(crate::proofs::Laid::laid_reads))]
pub fn buffers_are_not_seen()
    ensures cells { CellsAreThoseBelow }
    ensures flush { FlushShowsNothing }
{}

//! Laws of the entries, each asked for by a function's contract.
ghost use Rattle.packing.specs.Laws.{EntriesAgree, LimitsAre, RefusalsAreExact};

/// Nothing is turned away just where everything is in order: no number above 1,000,000, and no more than 24 pans.
pub fn refusals_are_exact()
    ensures exact { RefusalsAreExact }
    ensures limits { LimitsAre }
{}

/// The entry over a room answers and leaves what the entry without one does.
pub fn entries_agree()
    ensures { EntriesAgree }
{}

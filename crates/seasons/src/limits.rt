//! How long a season may be.
ghost use Rattle.std.specs.Prelude.{◌≡◌};

/// A season has at most so many bags.
pub const LONGEST: u32 = 1_000_000;

/// A season of 1,000,000 bags is played, and none that is longer.
///
/// Does nothing when it is called: its contract is the law, which is proved.
pub fn limits_are()
    ensures { LONGEST ≡ 1000000 }
{}

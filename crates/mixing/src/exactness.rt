//! Laws of mixed bags, each asked for by a function's contract.
ghost use Rattle.mixing.specs.Laws.{MixRefusalsAreExact};

/// Nothing is turned away just where the rule, the pans and the kinds are in order.
///
/// Does nothing when it is called: its contract is the law, which is proved.
pub fn mix_refusals_are_exact()
    ensures { MixRefusalsAreExact }
{}

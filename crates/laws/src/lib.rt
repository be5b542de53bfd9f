//! Laws of every ring and of every row of bags, each asked for by a function's contract.
#![tactic(auto)]

ghost use Rattle.laws.specs.Examples.{EmptyAndOld, FewerPans, FirstPair};
ghost use Rattle.laws.specs.Laws.{BagsWeighEnough, NoPanWaitsTooLong, NothingLost, OneBestOrNone, RowsLoseNothing};

use engines::Kind;

/// Either one choice is best, and only one, or no choice fits.
pub fn one_is_best_or_none()
    ensures { OneBestOrNone }
{}

/// What goes into a bag leaves the pans, whatever is chosen; and of every kind of bag: what goes into bags leaves the pans,
/// and what falls between bags is all that is added.
pub fn nothing_is_lost<R, K: Kind<R>>()
    ensures bag { NothingLost }
    ensures row { RowsLoseNothing K.allows K.after }
{}

/// Of every kind of bag: bag after bag no pan's age comes above the kind's.
pub fn no_pan_waits_too_long<R, K: Kind<R>>()
    ensures { NoPanWaitsTooLong K.allows K.age K.after }
{}

/// Of every kind of bag: so many bags weigh at least so many times the least, and at most so many times the most.
pub fn bags_weigh_enough<R, K: Kind<R>>()
    ensures { BagsWeighEnough K.allows K.least K.top K.after }
{}

/// Three rings worked out by hand hold of the definitions.
pub fn worked_examples()
    ensures pair { FirstPair }
    ensures fewer { FewerPans }
    ensures none { EmptyAndOld }
{}

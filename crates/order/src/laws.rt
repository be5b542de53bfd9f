// The laws of the order of choices, each asked for by a function's contract.
ghost use Rattle.order.specs.Laws.{BestIsOne, BestOfMore, BetterGoesOn, FoundCarriesOver, FoundOfMore, NoneOfMore, OneIsBetter};

/// Of two choices of one ring that differ one is better and not the other; and what is better than a better one is better.
///
/// Does nothing when it is called: its contract is the law, which is proved.
pub fn better_is_an_order()
    ensures one { OneIsBetter }
    ensures on { BetterGoesOn }
{}

/// Whatever is allowed, at most one choice of a ring is the best.
///
/// Does nothing when it is called: its contract is the law, which is proved.
pub fn best_is_one()
    ensures { BestIsOne }
{}

/// What a search finds by one test and one list of weights is found by any other test that allows the same choices, where
/// these weigh the same.
///
/// Does nothing when it is called: its contract is the law, which is proved.
pub fn found_carries_over()
    ensures { FoundCarriesOver }
{}

/// The best choice by a wider test is the best by a narrower one too, if the narrower one allows it; and where the wider
/// one allows nothing, neither does the narrower one. So a search by the wider test may be tried first.
///
/// Does nothing when it is called: its contract is the law, which is proved.
pub fn best_of_more()
    ensures best { BestOfMore }
    ensures none { NoneOfMore }
    ensures found { FoundOfMore }
{}

// The laws of changed rings and rules, each asked for by a function's contract.
ghost use Rattle.narrowed.specs.Laws.{EmptiedStayShut, LooserFinds, LooserStillFits, MarksStandForAges, NarrowedFits, NarrowedWeighs, NoneStays, OldStayOpen};

/// Where pans are emptied, what fits is just what fitted before and opens none of them; and it weighs what it did.
///
/// Their ages stay: an old pan that is emptied so blocks the ring. Does nothing when it is called: its contract is the law.
pub fn emptied_stay_shut()
    ensures fits { EmptiedStayShut }
    ensures weighs { NarrowedWeighs }
{}

/// Where pans are given the rule's age, what fits is just what fitted before and opens all of them.
///
/// Does nothing when it is called: its contract is the law.
pub fn old_stay_open()
    ensures { OldStayOpen }
{}

/// Ages may be replaced by marks, 1 for a pan that is old and 0 for all others, if the rule's age is replaced by 1. A
/// mark of 1 for another pan forces it open.
///
/// Holds for every age of the rule, 0 included, by which every pan is old. Does nothing when it is called: its contract
/// is the law.
pub fn marks_stand_for_ages()
    ensures { MarksStandForAges }
{}

/// Emptied pans and marks in one ring: what fits it is just what fits the whole ring, opens none of the emptied pans
/// and opens all the marked ones.
///
/// Does nothing when it is called: its contract is the law.
pub fn narrowed_answers()
    ensures { NarrowedFits }
{}

/// What fits a rule fits every looser one: one with no higher target, no lower target + above, no fewer pans and no lower age.
///
/// Does nothing when it is called: its contract is the law.
pub fn looser_still_fits()
    ensures { LooserStillFits }
{}

/// Where a rule has a bag, every looser rule has one too, and its best is no heavier; where the looser rule has none,
/// neither has the stricter one.
///
/// Does nothing when it is called: its contract is the law.
pub fn looser_finds()
    ensures finds { LooserFinds }
    ensures none { NoneStays }
{}

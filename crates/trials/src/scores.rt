// How many cases were tried, and in how many of them both ways agree.
ghost use Rattle.trials.specs.Counted.{Noted};

use std::fmt;

#[derive(Clone, Copy, Default)]
pub struct Score {
    pub tried: u32,
    pub agree: u32,
}

impl Score {
    pub fn note(&mut self, agreed: bool)
        ensures { Noted agreed self.old.tried self.old.agree self.new.tried self.new.agree }
    {
        self.tried = self.tried.saturating_add(1);
        if agreed {
            self.agree = self.agree.saturating_add(1);
        }
    }
}

impl fmt::Display for Score {
    fn fmt<W: fmt::Write>(&self, f: &mut fmt::Formatter<W>) -> fmt::Result {
        let tried = self.tried;
        let agree = self.agree;
        let differ = tried.saturating_sub(agree);
        write!(f, "{tried} rings tried, {agree} agree, {differ} differ")
    }
}

// A score for each way to a bag.
#[derive(Clone, Copy, Default)]
pub struct Scores {
    pub bag: Score,
    pub bag_by_table: Score,
    pub bag_by_halves: Score,
    pub scan: Score,
    pub halves: Score,
    pub table: Score,
}

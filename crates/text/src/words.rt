// The words that a command begins with: how each is spelled, and how many numbers it takes.
ghost use Rattle.std.specs.Prelude.{◌≡◌, ◌≢◌, MatchResult, Some};
ghost use Rattle.std.specs.Io.{StartsWith};
ghost use Rattle.text.specs.Counts.{takes, takes_many, takes_some};
ghost use Rattle.text.specs.Table.{count_of, spelling};
ghost use Rattle.text.specs.declared.faults.Fault.TheVariants.{Unreadable};

use crate::faults::Fault;
use std::fmt;

/// A word that a command begins with.
#[derive(Clone, Copy)]
pub enum Word {
    Rule,
    Pans,
    Ages,
    Handfuls,
    Bag,
    Fall,
    Bags,
    Kinds,
    Mix,
}

/// How many numbers a word takes.
#[derive(Clone, Copy)]
pub enum Count {
    /// So many, and no others.
    Just(usize),
    /// Any number of them.
    Any,
    /// None or one.
    NoneOrOne,
    /// One, and then any number of pairs.
    OneAndPairs,
}

/// A row for each word, in the order in which `Word` has them: the word, how it is spelled, how many numbers it takes, and how
/// its command is written and what it does.
pub const ROWS: [(Word, &str, Count, &str); 9] = [
    (
        Word::Rule,
        "rule",
        Count::Any,
        "rule T A P O: a bag weighs T to T + A, of at most P pans, among them each that has waited O bags or more",
    ),
    (
        Word::Pans,
        "pans",
        Count::Any,
        "pans W..: what lies in each pan, from pan 0 on; 0 is an empty pan",
    ),
    (
        Word::Ages,
        "ages",
        Count::Any,
        "ages A..: for how many bags each pan has waited",
    ),
    (
        Word::Handfuls,
        "handfuls",
        Count::Any,
        "handfuls W..: the list that a season takes handfuls from",
    ),
    (
        Word::Bag,
        "bag",
        Count::Just(0),
        "bag: makes the best bag, `open 2 3 6 7: 100`, or `none`",
    ),
    (
        Word::Fall,
        "fall",
        Count::Just(2),
        "fall P W: what weighs W falls into pan P, which is there and empty",
    ),
    (
        Word::Bags,
        "bags",
        Count::Just(1),
        "bags N: a season of N bags, at most 1000000",
    ),
    (
        Word::Kinds,
        "kinds",
        Count::Any,
        "kinds K..: the kind of each pan, from 0 on",
    ),
    (
        Word::Mix,
        "mix",
        Count::NoneOrOne,
        "mix, mix N: a bag, or a season of N bags, with so much of each kind: behind P and O the rule has a least and a most of each",
    ),
];

impl Count {
    /// Whether these are as many numbers as may be.
    pub fn takes(self, numbers: usize) -> bool
        ensures { result ≡ takes self numbers }
    {
        match self {
            Count::Just(k) => numbers == k,
            Count::Any => true,
            Count::NoneOrOne => numbers <= 1,
            Count::OneAndPairs => numbers % 2 == 1,
        }
    }

    /// Whether there may be more than two.
    pub fn takes_many(self) -> bool
        ensures { result ≡ takes_many self }
    {
        match self {
            Count::Just(k) => k > 2,
            Count::Any | Count::OneAndPairs => true,
            Count::NoneOrOne => false,
        }
    }

    /// Whether there may be a number at all.
    pub fn takes_some(self) -> bool
        ensures { result ≡ takes_some self }
    {
        !matches!(self, Count::Just(0))
    }
}

impl Word {
    /// How the word is spelled.
    pub fn spelling(self) -> &'static str
        ensures { result.now ≡ spelling self }
    {
        ROWS.as_slice()[self as usize].1
    }

    /// How many numbers the word takes.
    pub fn count(self) -> Count
        ensures { result ≡ count_of self }
    {
        ROWS.as_slice()[self as usize].2
    }

    /// How the word's command is written and what it does, in a line that begins with the word.
    pub fn usage(self) -> &'static str
        ensures { StartsWith result.now (spelling self) }
    {
        ROWS.as_slice()[self as usize].3
    }
}

impl fmt::Display for Word {
    ghost output = { λ word. Some (spelling word) };

    fn fmt<W: fmt::Write>(&self, f: &mut fmt::Formatter<W>) -> fmt::Result {
        f.write_str(self.spelling())
    }
}

impl TryFrom<&[u8]> for Word {
    type Error = Fault;

    ghost use Rattle.text.specs.declared.words.Word.{Word};

    ghost try_from_gives = { λ name r. MatchResult r (λ word. name.now ≡ spelling word) (λ fault. (fault ≡ Unreadable) × ((word : Word) → name.now ≢ spelling word)) };

    fn try_from(name: &[u8]) -> Result<Word, Fault> {
        let rows = ROWS.as_slice();
        for (word, spelling, _, _) in rows {
            if spelling.as_bytes() == name {
                return Ok(*word);
            }
        }
        Err(Fault::Unreadable)
    }
}

// The reasons, in words.
use crate::flaws::Flaw;
use std::fmt;
use text::Word;

/// Why a line was turned away. Places of a line count its bytes from 0; `Display` says what is wrong and what to write.
#[derive(Clone, Copy)]
pub enum Reason {
    /// Something that stands in no command, and where.
    Flawed(Flaw, usize),
    /// It begins with no known word; the nearest that is known, if one is near.
    Unknown(Option<Word>),
    /// Something among the numbers that is no digit, and where.
    Stray(usize),
    /// A command of this word that can't be obeyed.
    Usage(Word),
    /// Which number of the rule is wrong.
    Rule(u64),
    /// How many pans or ages there are.
    Pans(u64),
    /// Which number is too large.
    Number(u64),
    /// How many entries the lent room needs.
    Room(u64),
    /// A refusal from 6 on, and where it applies.
    Further { number: u64, place: u64 },
}

impl fmt::Display for Flaw {
    fn fmt<W: fmt::Write>(&self, f: &mut fmt::Formatter<W>) -> fmt::Result {
        f.write_str(match self {
            Flaw::CarriageReturn =>
                "a carriage return: the file has another system's line ends; write it with line feeds alone",
            Flaw::Tab => "a tab: put one blank in its place",
            Flaw::Blank =>
                "a blank too many: single blanks stand between the numbers, and none at either end",
            Flaw::Sign => "a sign: numbers are written without one",
            Flaw::LeadingZero => "a number that begins with 0: write it without leading zeros",
        })
    }
}

fn put_unknown<W: fmt::Write>(f: &mut fmt::Formatter<W>, near: Option<Word>) -> fmt::Result {
    f.write_str("no command begins with this word")?;
    match near {
        Some(word) => write!(f, ": did you mean `{word}`?"),
        None => f.write_str("; --help lists the commands"),
    }
}

impl fmt::Display for Reason {
    fn fmt<W: fmt::Write>(&self, f: &mut fmt::Formatter<W>) -> fmt::Result {
        match *self {
            Reason::Flawed(flaw, place) => write!(f, "at byte {place}, {flaw}"),
            Reason::Unknown(near) => put_unknown(f, near),
            Reason::Stray(place) => write!(
                f,
                "at byte {place}, no digit: behind the word stand only numbers"
            ),
            Reason::Usage(word) => write!(f, "the command is {}", word.usage()),
            Reason::Rule(place) => write!(
                f,
                "number {place} of the rule is wrong: `rule T A P O` are four numbers of at most 1000000, T at least 1"
            ),
            Reason::Pans(count) => write!(
                f,
                "{count} pans or ages: give `pans` 1 to 24 weights and `ages` as many ages"
            ),
            Reason::Number(place) => write!(
                f,
                "number {place} of the pans, then ages, then handfuls is above 1000000: give a smaller one"
            ),
            Reason::Room(entries) => write!(f, "the lent room has to have {entries} entries"),
            Reason::Further { number, place } => write!(
                f,
                "refusal {number} at {place}: the guide says what it means for this kind of bag"
            ),
        }
    }
}

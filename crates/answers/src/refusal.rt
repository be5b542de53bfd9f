//! What is turned away, and where.

/// Why something is turned away, with its place in what was given; places count from 0.
///
/// The list of refusals is open at its end: a kind of bag or a question of its own adds `Further` ones.
#[derive(Clone, Copy, Debug, PartialEq, Eq)]
pub enum Refusal {
    /// 1: which number of the rule.
    Rule(u64),
    /// 2: how many pans, or how many ages.
    Pans(u64),
    /// 3: which weight or age, ages after weights, further lists behind these.
    Number(u64),
    /// 4: it can't be done as asked; its place is the line that asks, which only the one who reads lines knows.
    Line,
    /// 5: how many entries the room has to have.
    Room(u64),
    /// From 6 on: a refusal behind these in the list, by its number and its place.
    Further { number: u64, place: u64 },
}

impl Refusal {
    ghost use Rattle.std.specs.Prelude.{◌≡◌};
    ghost use Rattle.answers.specs.Refusals.{lacked, passed, refusal_number, refusal_place};

    /// Refusal 5 where a room has less than is taken of it.
    pub fn unless_room(takes: usize, has: usize) -> Result<(), Refusal>
        ensures { result ≡ passed (lacked takes has) tt }
    {
        if takes <= has {
            Ok(())
        } else {
            Err(Refusal::Room(takes as u64))
        }
    }

    /// The refusal's number in the list of refusals, from 1 on.
    pub fn number(self) -> u64
        ensures { result ≡ refusal_number self }
    {
        match self {
            Refusal::Rule(_) => 1,
            Refusal::Pans(_) => 2,
            Refusal::Number(_) => 3,
            Refusal::Line => 4,
            Refusal::Room(_) => 5,
            Refusal::Further { number, .. } => number,
        }
    }

    /// Its place, counted from 0, where `line` is what asked for it.
    pub fn place(self, line: u64) -> u64
        ensures { result ≡ refusal_place self line }
    {
        match self {
            Refusal::Rule(place) => place,
            Refusal::Pans(count) => count,
            Refusal::Number(place) => place,
            Refusal::Line => line,
            Refusal::Room(entries) => entries,
            Refusal::Further { place, .. } => place,
        }
    }
}

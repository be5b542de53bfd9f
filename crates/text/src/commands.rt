// A command: a word and its numbers.
ghost use Rattle.std.specs.Prelude.{◌≡◌, Some, IsTrue, length};
ghost use Rattle.text.specs.Counts.{takes, takes_many};
ghost use Rattle.text.specs.Held.{is_many, numbers_in};
ghost use Rattle.text.specs.Table.{count_of};
ghost use Rattle.text.specs.Written.{written};

use crate::numbers::put_line;
use crate::words::Word;
use std::fmt;

/// The numbers of a command. Memory is asked for only where there may be more than two.
#[derive(Drop)]
pub enum Numbers {
    Zero,
    One([u32; 1]),
    Two([u32; 2]),
    /// However many there are.
    Many(Vec<u32>),
}

impl Numbers {
    /// The numbers in their order.
    pub fn as_slice(&self) -> &[u32]
        ensures { result.now ≡ numbers_in self.now }
    {
        match self {
            Numbers::Zero => &[],
            Numbers::One(numbers) => numbers,
            Numbers::Two(numbers) => numbers,
            Numbers::Many(numbers) => numbers.as_slice(),
        }
    }
}

/// A line of the language: a word, and as many numbers as it takes.
#[derive(Drop)]
pub struct Command {
    pub word: Word,
    pub numbers: Numbers,
    pub ghost counted: { IsTrue (takes (count_of word) (length (numbers_in numbers))) },
    pub ghost held: { is_many numbers ≡ takes_many (count_of word) },
}

impl fmt::Display for Command {
    ghost output = { λ c. Some (written c.word (numbers_in c.numbers)) };

    fn fmt<W: fmt::Write>(&self, f: &mut fmt::Formatter<W>) -> fmt::Result {
        put_line(f, self.word, self.numbers.as_slice())
    }
}

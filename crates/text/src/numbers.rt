// Numbers in a line, each after a blank.
ghost use Rattle.std.specs.Fmt.{WritesOnOk};
ghost use Rattle.text.specs.Written.{spaced, written};
ghost use Rattle.std.specs.Prelude.{[], ◌∷◌};

use crate::words::Word;
use std::fmt;

/// Writes a number after a blank.
pub fn put_number<W: fmt::Write>(f: &mut fmt::Formatter<W>, n: u32) -> fmt::Result
    ensures { WritesOnOk W.write_str_gives f.old result (spaced (n ∷ [])) f.new }
{
    write!(f, " {n}")
}

// The numbers in their order.
fn put_numbers<W: fmt::Write>(f: &mut fmt::Formatter<W>, numbers: &[u32]) -> fmt::Result
    ensures { WritesOnOk W.write_str_gives f.old result (spaced numbers.now) f.new }
{
    for n in numbers {
        put_number(f, *n)?;
    }
    Ok(())
}

// A word and its numbers, as a command is written.
pub fn put_line<W: fmt::Write>(
    f: &mut fmt::Formatter<W>,
    word: Word,
    numbers: &[u32],
) -> fmt::Result
    ensures { WritesOnOk W.write_str_gives f.old result (written word numbers.now) f.new }
{
    write!(f, "{word}")?;
    put_numbers(f, numbers)
}

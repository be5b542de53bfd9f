// Which reason is told for a line and what it was turned away with.
ghost use Rattle.explaining.specs.Reasons.{Cause, Told, WordEnds, is_stray};
ghost use Rattle.std.specs.List.{position};
ghost use Rattle.std.specs.Prelude.{◌≡◌, IfOk};

use crate::flaws::first_flaw;
use crate::reasons::Reason;
use crate::words::nearest;
use answers::Refusal;
use std::alloc::{AllocError, Global};
use text::Word;

// Where the first blank stands, or the line's end.
fn word_end(line: &[u8]) -> usize
    ensures { WordEnds line.now result }
{
    line.iter().position(|b| *b == b' ').unwrap_or(line.len())
}

// The place of the first byte that is neither a digit nor a blank.
fn first_stray(numbers: &[u8]) -> Option<usize>
    ensures { result ≡ position is_stray numbers.now }
{
    numbers
        .iter()
        .position(|b| !b.is_ascii_digit() && *b != b' ')
}

// Why a line is no command, or can't be obeyed.
fn cause(heap: Global, line: &[u8]) -> Result<Reason, AllocError>
    ensures { IfOk result (Cause line.now) }
{
    if let Some((flaw, place)) = first_flaw(line) {
        return Ok(Reason::Flawed(flaw, place));
    }
    let (name, numbers) = line.split_at(word_end(line));
    let Ok(word) = Word::try_from(name) else {
        return Ok(Reason::Unknown(nearest(heap, name)?));
    };
    if let Some(place) = first_stray(numbers) {
        return Ok(Reason::Stray(name.len() + place));
    }
    Ok(Reason::Usage(word))
}

/// What was wrong with a line, given without its end, that was turned away so. Fails only for want of memory.
pub fn reason_of(heap: Global, line: &[u8], refusal: Refusal) -> Result<Reason, AllocError>
    ensures { IfOk result (Told line.now refusal) }
{
    match refusal {
        Refusal::Rule(place) => Ok(Reason::Rule(place)),
        Refusal::Pans(count) => Ok(Reason::Pans(count)),
        Refusal::Number(place) => Ok(Reason::Number(place)),
        Refusal::Line => cause(heap, line),
        Refusal::Room(entries) => Ok(Reason::Room(entries)),
        Refusal::Further { number, place } => Ok(Reason::Further { number, place }),
    }
}

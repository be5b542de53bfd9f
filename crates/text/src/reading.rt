// A line of bytes as the command that it says.
ghost use Rattle.std.specs.Prelude.{◌≡◌, ℕ, ◌<◌, ◌≤◌, map, length, MatchBool, ◌≢◌, slice_index};
ghost use Rattle.text.specs.Table.{count_of};
ghost use Rattle.text.specs.Scanning.{capped};
ghost use Rattle.text.specs.Reading.{Passed, Holds, Behind, Reads, Rereads};

use crate::commands::{Command, Numbers};
use crate::faults::Fault;
use crate::scanning::{at_most_two, numbers};
use crate::words::{Count, Word};
use std::alloc::Global;

// Whether a line is empty or a comment.
fn passed_over(line: &[u8]) -> bool
    ensures { MatchBool result (Passed line.now) (Passed line.now → ⊥) }
{
    matches!(line, [] | [b'#', ..])
}

// Where the first blank stands, or the line's end.
fn word_end(line: &[u8]) -> usize
    ensures within { result ≤ length line.now }
    ensures before { (k : ℕ) → k < result → slice_index line.now k ≢ 32 }
    ensures found { result < length line.now → slice_index line.now result ≡ 32 }
{
    line.iter().position(|b| *b == b' ').unwrap_or(line.len())
}

// The numbers in a text, of which a word takes so many. Memory is asked for only where it may take more than two.
fn held(heap: Global, count: Count, text: &[u8]) -> Result<Numbers, Fault>
    ensures { Holds count text.now result }
{
    if count.takes_many() {
        return Ok(Numbers::Many(numbers(heap, text)?));
    }
    at_most_two(text).ok_or(Fault::Unreadable)
}

// The numbers behind a word, if it takes so many.
fn behind(heap: Global, word: Word, text: &[u8]) -> Result<Numbers, Fault>
    ensures { Behind (count_of word) text.now result }
{
    let count = word.count();
    let numbers = held(heap, count, text)?;
    if count.takes(numbers.as_slice().len()) {
        Ok(numbers)
    } else {
        Err(Fault::Unreadable)
    }
}

/// What a line says, given without its line end: a command, or nothing where it is empty or begins with `#`.
///
/// A number above `u32::MAX` is read as `u32::MAX`. The error is `Unreadable` where the bytes are how no command is
/// written, and `NoMemory` where there is no memory for the numbers. A word that takes at most two numbers asks for none.
pub fn read(heap: Global, line: &[u8]) -> Result<Option<Command>, Fault>
    ensures { Reads line.now result }
{
    if passed_over(line) {
        return Ok(None);
    }
    let (name, text) = line.split_at(word_end(line));
    let word = Word::try_from(name)?;
    let numbers = behind(heap, word, text)?;
    Ok(Some(Command { word, numbers }))
}

// No number of a slice is larger than what 32 bits hold.
fn held_whole(numbers: &[u32])
    ensures { map capped numbers.now ≡ numbers.now }
{
    // The width of what a slice holds is known where the slice is looked at.
    let _ = numbers.is_empty();
}

/// A command written and read again: the same one comes back.
pub fn reread(heap: Global, command: &Command) -> Result<Command, Fault>
    ensures { Rereads command.now result }
{
    held_whole(command.numbers.as_slice());
    let line = command.to_string(heap)?;
    Ok(read(heap, line.as_bytes())?.unwrap())
}

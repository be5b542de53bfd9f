//! The lines of a reader, one after another.
ghost use Rattle.serving.specs.Lines.{FeedCut, NextLine};
ghost use Rattle.std.specs.Io.Buffered.{reader_remaining};
ghost use Rattle.std.specs.Prelude.{◌≡◌, []};

use std::alloc::Global;
use std::io::{self, BufRead, BufReader, Read};

// Takes away the line feed that a line ends with.
fn cut_feed(line: &mut Vec<u8>)
    ensures { FeedCut line.old.items line.new.items }
{
    if line.last() == Some(&b'\n') {
        line.pop();
    }
}

// More bytes than a line is likely to have: the memory of a longer one is let go before the next.
const KEPT: usize = 65_536;

// Empties a line, and keeps its memory for the next where it is no more than that.
fn cleared(heap: Global, line: &mut Vec<u8>)
    ensures { line.new.items ≡ [] }
{
    if line.capacity() > KEPT {
        *line = Vec::new(heap);
    } else {
        line.clear();
    }
}

// Takes the next line, without the line feed that ends it, or finds the end of the input.
pub(crate) fn next_line<R: Read>(
    heap: Global,
    input: &mut BufReader<R>,
    line: &mut Vec<u8>,
) -> io::Result<bool>
    ensures { NextLine (reader_remaining R.remaining input.old) (reader_remaining R.remaining input.new) line.new.items result }
{
    cleared(heap, line);
    if input.read_until(b'\n', line)? == 0 {
        return Ok(false);
    }
    cut_feed(line);
    Ok(true)
}

//! The loop over the lines.
ghost use Rattle.desk.specs.Kept.{state_of};
ghost use Rattle.serving.specs.Served.{HeardSo, Served, Turn, is_refused, printed};
ghost use Rattle.serving.specs.Written.{Written};
ghost use Rattle.std.specs.Io.Buffered.{reader_remaining};
ghost use Rattle.std.specs.Prelude.{◌≡◌};

use crate::lines::next_line;
use crate::writing::put;
use desk::{Desk, Refused, Reply, hear};
use explaining::reason_of;
use std::alloc::Global;
use std::io::{self, BufReader, ErrorKind, Read, Write};

/// How a run goes on where a line is turned away.
#[derive(Clone, Copy, Debug, PartialEq, Eq)]
pub struct Manner {
    /// The first refusal ends the run.
    pub strict: bool,
    /// The reason of each refusal is written, too.
    pub explain: bool,
}

/// How a run ended.
#[derive(Clone, Copy, Debug, PartialEq, Eq)]
pub enum Ended {
    /// At the end of the input.
    AtEnd,
    /// At the first refusal.
    AtRefusal,
}

// No answer takes more bytes, so none has to wait for memory: 24 pans with a weight, or a season's three numbers, take fewer
// than 80 with the line feed.
const LONGEST: usize = 128;

// What a line asks for is done and answered. There was no memory for the line's numbers where it fails.
fn heard(heap: Global, desk: &mut Desk, line: &[u8], number: u64) -> io::Result<Option<Reply>>
    ensures { HeardSo line.now number (state_of desk.old) (state_of desk.new) result }
{
    match hear(desk, heap, line, number) {
        Ok(reply) => Ok(reply),
        Err(_) => Err(io::Error::from(ErrorKind::OutOfMemory)),
    }
}

// Writes the reason of a refusal, in a line that begins with the number of the line that was turned away.
fn explain<E: Write>(
    heap: Global,
    reasons: &mut E,
    text: &mut String,
    line: &[u8],
    refused: Refused,
) -> io::Result<()> {
    let reason = reason_of(heap, line, refused.refusal)?;
    let number = refused.line;
    text.clear();
    writeln!(text, "line {number}: {reason}")?;
    put(reasons, text.as_bytes())
}

// Writes the answer to a line, and nothing where there is none.
fn answer<W: Write>(out: &mut W, text: &mut String, reply: Option<Reply>) -> io::Result<()>
    ensures { Written (W.contents out.old) (W.contents out.new) (printed reply) result }
{
    let Some(reply) = reply else {
        return Ok(());
    };
    text.clear();
    writeln!(text, "{reply}")?;
    put(out, text.as_bytes())
}

fn is_refused(reply: Option<Reply>) -> bool
    ensures { result ≡ is_refused reply }
{
    matches!(reply, Some(Reply::Refused(_)))
}

// Writes the answer to a line, and the reason where it is turned away and reasons are asked for. What was written is flushed
// before a reason, and where more input has to be waited for.
#[tactic(auto, using(crate::proofs::Known::all_written))]
fn reply_to<W: Write, E: Write>(
    heap: Global,
    manner: Manner,
    waits: bool,
    line: &[u8],
    reply: Option<Reply>,
    out: &mut W,
    reasons: &mut E,
    text: &mut String,
) -> io::Result<()>
    ensures { Written (W.contents out.old) (W.contents out.new) (printed reply) result }
{
    answer(out, text, reply)?;
    if manner.explain
        && let Some(Reply::Refused(refused)) = reply
    {
        out.flush()?;
        return explain(heap, reasons, text, line, refused);
    }
    if waits {
        return out.flush();
    }
    Ok(())
}

// One line's turn: it is heard and answered. Says whether it was turned away.
fn turn<W: Write, E: Write>(
    heap: Global,
    desk: &mut Desk,
    manner: Manner,
    waits: bool,
    line: &[u8],
    number: u64,
    out: &mut W,
    reasons: &mut E,
    text: &mut String,
) -> io::Result<bool>
    ensures { Turn line.now number (state_of desk.old) (state_of desk.new) (W.contents out.old) (W.contents out.new) result }
{
    let reply = heard(heap, desk, line, number)?;
    reply_to(heap, manner, waits, line, reply, out, reasons, text)?;
    Ok(is_refused(reply))
}

/// Hears the lines of `input` one after another, numbered from 0, and writes each answer and a line feed to `out`, in the order
/// of the lines. Answers are flushed before more input may have to be waited for, and at the end. Where `manner` asks for it,
/// the first refusal ends the run, and the reason of each refusal is written to `reasons`.
///
/// After an error what was written is the first part of what is answered to the lines heard so far.
pub fn serve<R: Read, W: Write, E: Write>(
    heap: Global,
    desk: &mut Desk,
    manner: Manner,
    input: &mut BufReader<R>,
    out: &mut W,
    reasons: &mut E,
) -> io::Result<Ended>
    ensures { Served manner.strict (reader_remaining R.remaining input.old) (reader_remaining R.remaining input.new) (state_of desk.old) (state_of desk.new) (W.contents out.old) (W.contents out.new) result }
{
    let mut line = Vec::new(heap);
    let mut text = String::with_capacity(heap, LONGEST)?;
    for number in 0..u64::MAX {
        if !next_line(heap, input, &mut line)? {
            out.flush()?;
            return Ok(Ended::AtEnd);
        }
        // No further line is at hand whole, so the next one may have to be waited for.
        let waits = !input.buffer().contains(&b'\n');
        let refused = turn(
            heap,
            desk,
            manner,
            waits,
            line.as_slice(),
            number,
            out,
            reasons,
            &mut text,
        )?;
        if refused && manner.strict {
            out.flush()?;
            return Ok(Ended::AtRefusal);
        }
    }
    Err(io::Error::from(ErrorKind::FileTooLarge))
}

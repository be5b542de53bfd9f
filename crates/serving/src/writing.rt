//! What is written out.
ghost use Rattle.serving.specs.Written.{SomeWritten, Written};

use std::io::{self, ErrorKind, Write};

// Writes some of a text, which is not empty; none where a signal came between.
#[tactic(auto, using(crate::proofs::Known::keeps_from_nothing, crate::proofs::Known::nothing_from_keeps))]
fn put_some<W: Write>(out: &mut W, text: &[u8]) -> io::Result<usize>
    ensures { SomeWritten (W.contents out.old) (W.contents out.new) text.now result }
{
    match out.write(text) {
        Ok(0) => Err(io::Error::from(ErrorKind::WriteZero)),
        Ok(count) => Ok(count),
        Err(error) if error.kind() == ErrorKind::Interrupted => Ok(0),
        Err(error) => Err(error),
    }
}

// Writes the whole text; after an error its first bytes may have been written.
#[tactic(auto, using(crate::proofs::Known::then_keeps))]
pub(crate) fn put<W: Write>(out: &mut W, text: &[u8]) -> io::Result<()>
    ensures { Written (W.contents out.old) (W.contents out.new) text.now result }
{
    let mut done = 0;
    for _ in 0..u64::MAX {
        if done >= text.len() {
            return Ok(());
        }
        done += put_some(out, &text[done..])?;
    }
    Err(io::Error::from(ErrorKind::TimedOut))
}

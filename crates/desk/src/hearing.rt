//! A line of text is heard: read, obeyed and answered.
ghost use Rattle.desk.specs.Heard.{Heard};
ghost use Rattle.desk.specs.Kept.{state_of};

use crate::kept::Desk;
use crate::obeying::obey;
use crate::printed::Reply;
use answers::Refusal;
use std::alloc::Global;
use text::{Fault, read};

/// What is answered to a line, given without its end and by its number from 0 on: nothing where there is nothing to say.
///
/// A fault is want of memory for the line's numbers, and then nothing changes.
pub fn hear(desk: &mut Desk, heap: Global, line: &[u8], number: u64) -> Result<Option<Reply>, Fault>
    ensures { Heard line.now number (state_of desk.old) (state_of desk.new) result }
{
    match read(heap, line) {
        Ok(None) => Ok(None),
        Ok(Some(command)) => Ok(obey(desk, command, number)),
        Err(Fault::Unreadable) => Ok(Some(Reply::refused(Refusal::Line, number))),
        Err(Fault::NoMemory) => Err(Fault::NoMemory),
    }
}

// Reads and writes that fail in mid-stream: the error is the answer, and what was written is the first part of the answers.
use desk::empty_desk;
use serving::{Ended, Manner, serve};
use std::alloc::Global;
use std::io::{self, BufReader, ErrorKind, Read, Write};
use std::process::Abort;
use std::test::Fail;

const LINES: &[u8] = b"x\n# r\nx\nx";

const ANSWERS: &[u8] = b"refused 4 at 0\nrefused 4 at 2\nrefused 4 at 3\n";

// Reads or writes without a failure.
const NEVER: usize = usize::MAX;

// Gives the bytes of `LINES` one by one, and fails once where `cut` of them are given.
#[derive(Drop)]
struct Torn {
    at: usize,
    cut: usize,
}

impl Read for Torn {
    fn read(&mut self, buf: &mut [u8]) -> io::Result<usize> {
        if self.at == self.cut {
            self.cut = NEVER;
            return Err(io::Error::from(ErrorKind::BrokenPipe));
        }
        match (LINES.get(self.at), buf.first_mut()) {
            (Some(byte), Some(place)) => {
                *place = *byte;
                self.at = self.at.saturating_add(1);
                Ok(1)
            }
            _ => Ok(0),
        }
    }
}

// Takes at most seven bytes a call, and fails once where it holds `cut` of them.
#[derive(Drop)]
struct Full {
    got: Vec<u8>,
    cut: usize,
}

impl Write for Full {
    fn write(&mut self, buf: &[u8]) -> io::Result<usize> {
        let room = self.cut.saturating_sub(self.got.len());
        if room == 0 {
            self.cut = NEVER;
            return Err(io::Error::from(ErrorKind::StorageFull));
        }
        let most = buf.len().min(room).min(7);
        self.got.extend_from_slice(&buf[..most])?;
        Ok(most)
    }

    fn flush(&mut self) -> io::Result<()> {
        Ok(())
    }
}

// How a run ends whose reads and writes fail behind so many bytes, and what was written.
fn run(heap: Global, read: usize, write: usize) -> io::Result<(Result<Ended, ErrorKind>, Vec<u8>)> {
    let mut desk = empty_desk(heap)?;
    let mut input = BufReader::new(heap, Torn { at: 0, cut: read })?;
    let mut out = Full {
        got: Vec::new(heap),
        cut: write,
    };
    let mut reasons = Vec::new(heap);
    let manner = Manner {
        strict: false,
        explain: false,
    };
    let outcome = serve(heap, &mut desk, manner, &mut input, &mut out, &mut reasons);
    Ok((outcome.map_err(|error| error.kind()), out.got))
}

#[test]
fn reads(rt: HostRuntime) -> Result<(), Fail> {
    for (cut, written) in [(0, 0), (1, 0), (2, 15), (4, 15), (6, 15), (8, 30), (9, 30)] {
        let (outcome, got) = run(rt.alloc(), cut, NEVER)?;
        assert_eq!(rt; outcome, Err(ErrorKind::BrokenPipe), "at {cut}");
        assert_eq!(rt; got.as_slice(), &ANSWERS[..written], "at {cut}");
    }
    Ok(())
}

#[test]
fn writes(rt: HostRuntime) -> Result<(), Fail> {
    for cut in [0, 1, 14, 15, 29, 44] {
        let (outcome, got) = run(rt.alloc(), NEVER, cut)?;
        assert_eq!(rt; outcome, Err(ErrorKind::StorageFull), "at {cut}");
        assert_eq!(rt; got.as_slice(), &ANSWERS[..cut], "at {cut}");
    }
    Ok(())
}

#[test]
fn neither(rt: HostRuntime) -> Result<(), Fail> {
    let (outcome, got) = run(rt.alloc(), NEVER, NEVER)?;
    assert_eq!(rt; outcome, Ok(Ended::AtEnd));
    assert_eq!(rt; got.as_slice(), ANSWERS);
    Ok(())
}

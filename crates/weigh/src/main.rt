// The program: reads commands from a file or from standard input, a line each, and prints what the desk answers.
#![tactic(auto)]

use cmdline::{Asked, Run, asked_by};
use desk::empty_desk;
use serving::{Ended, Manner, serve};
use std::env;
use std::fs::File;
use std::io::{self, BufReader, BufWriter, ErrorKind, Read};
use std::process::ExitCode;

// The status where a refusal ended the run, as under `--strict`, and where the program was asked wrongly or can't go on.
const REFUSED: u8 = 1;

const WRONG: u8 = 2;

// Runs the commands of a reader at a desk with nothing on it, and answers the status to end with.
fn served<R: Read + Drop>(
    rt: &HostRuntime,
    run: Run<'_>,
    mut input: BufReader<R>,
) -> io::Result<u8> {
    let heap = rt.alloc();
    let mut desk = empty_desk(heap)?;
    let mut out = BufWriter::new(heap, rt.stdout())?;
    let manner = Manner {
        strict: run.strict,
        explain: run.explain,
    };
    let mut reasons = rt.stderr();
    Ok(
        match serve(heap, &mut desk, manner, &mut input, &mut out, &mut reasons)? {
            Ended::AtEnd => 0,
            Ended::AtRefusal => REFUSED,
        },
    )
}

// Does what the command line asks for, and answers the status to end with.
fn answered(rt: &HostRuntime) -> io::Result<u8> {
    let heap = rt.alloc();
    let words: Vec<String> = env::args(rt)?.collect(heap)?;
    match asked_by(heap, words.as_slice())? {
        Asked::Tell(text) => {
            print!(rt; "{text}")?;
            Ok(0)
        }
        Asked::Wrong(text) => {
            eprint!(rt; "{text}")?;
            Ok(WRONG)
        }
        Asked::Run(run) => match run.file {
            Some(path) => match File::open(rt, path) {
                Ok(file) => served(rt, run, BufReader::new(heap, file)?),
                Err(error) => {
                    eprintln!(rt; "weigh: no file of commands at {path}: {error}")?;
                    Ok(WRONG)
                }
            },
            None => served(rt, run, BufReader::new(heap, rt.stdin())?),
        },
    }
}

fn main(rt: HostRuntime) -> io::Result<ExitCode> {
    match answered(&rt) {
        Ok(status) => Ok(ExitCode::from(status)),
        Err(error) => {
            // Whoever read the answers may have had enough of them, which is nothing to complain of.
            if error.kind() != ErrorKind::BrokenPipe {
                eprintln!(rt; "weigh: {error}")?;
            }
            Ok(ExitCode::from(WRONG))
        }
    }
}

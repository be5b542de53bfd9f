// The words of a command line, read.
ghost use Rattle.clap.specs.Words.{found_of, rows_of};
ghost use Rattle.cmdline.specs.Asked.{AsksFor, IsRun, no_dash};
ghost use Rattle.std.specs.Prelude.{◌≡◌, IfOk, map, option_map};

use crate::command::weigh_command;
use clap::error::ErrorKind;
use clap::{ArgMatches, Error};
use std::alloc::{AllocError, Global};
use std::convert::AsStr;
use text::ROWS;

// What the help says behind the commands.
const REMARKS: &str = "  # ..: a remark

What is turned away prints `refused N at P` and changes nothing. Without --strict the program goes on to the end of
its input and ends with status 0. The guide is docs/GUIDE.md.
";

/// How the program runs. `file` is the file of commands, and `None` is standard input.
#[derive(Clone, Copy, Debug, PartialEq, Eq)]
pub struct Run<'a> {
    pub file: Option<&'a str>,
    /// The first refusal ends the program with a status of its own.
    pub strict: bool,
    /// Each refusal is explained on standard error.
    pub explain: bool,
}

/// What a command line asks for.
#[derive(Debug, Drop)]
pub enum Asked<'a> {
    /// That commands are run.
    Run(Run<'a>),
    /// The help or the version, which goes to standard output.
    Tell(String),
    /// Nothing that there is: what is wrong, for standard error. The program then ends with status 2.
    Wrong(String),
}

fn undashed<'a>(word: Option<&'a str>) -> Option<&'a str>
    ensures { option_map (λ s. s.now) result ≡ no_dash (option_map (λ s. s.now) word.entry) }
{
    match word {
        Some("-") => None,
        other => other,
    }
}

fn run_of<'a>(matches: &ArgMatches<'a>) -> Run<'a>
    ensures { IsRun (rows_of (found_of matches.now)) result }
{
    Run {
        file: undashed(matches.get_str("FILE")),
        strict: matches.get_flag("strict"),
        explain: matches.get_flag("explain"),
    }
}

// Each command, a line each, behind the help on the command line.
fn help(heap: Global, error: &Error) -> Result<String, AllocError> {
    let mut text = error.to_string(heap)?;
    text.push_str("\nCommands, one a line:\n")?;
    for (_, _, _, usage) in ROWS.as_slice() {
        text.push_str("  ")?;
        text.push_str(usage)?;
        text.push_str("\n")?;
    }
    text.push_str(REMARKS)?;
    Ok(text)
}

/// What the words of a command line ask for, of which the first is the program's own name. Fails only for want of memory.
pub fn asked_by<'a, S: AsStr>(heap: Global, words: &'a [S]) -> Result<Asked<'a>, AllocError>
    ensures { IfOk result (AsksFor (map S.text words.entry.now)) }
{
    let error = match weigh_command(heap)?.try_get_matches_from(words) {
        Ok(matches) => return Ok(Asked::Run(run_of(&matches))),
        Err(error) => error,
    };
    match error.kind() {
        ErrorKind::OutOfMemory => Err(AllocError),
        ErrorKind::DisplayHelp => Ok(Asked::Tell(help(heap, &error)?)),
        ErrorKind::DisplayVersion => Ok(Asked::Tell(error.to_string(heap)?)),
        _ => Ok(Asked::Wrong(error.to_string(heap)?)),
    }
}

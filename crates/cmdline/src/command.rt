// The command line that the program takes, as the parser is told of it.
ghost use Rattle.clap.specs.Words.{app_of};
ghost use Rattle.cmdline.specs.Asked.{the_app};
ghost use Rattle.std.specs.Prelude.{◌≡◌, IfOk};

use clap::{Arg, ArgAction, Command};
use std::alloc::{AllocError, Global};

const PROVED_WITH: &str = "(proved with rattle-kit-13f logic dac8208d650f15bf)";

const ABOUT: &str =
    "Opens, for every bag, the pans that make the best one: a combination weigher's decisions, proved correct.";

/// The command line: an optional file, `--strict`, `--explain`, `--help` and `--version`.
pub fn weigh_command<'a>(heap: Global) -> Result<Command<'a>, AllocError>
    ensures { IfOk result (λ command. app_of command ≡ the_app) }
{
    let file = Arg::new(heap, "FILE").help("A file of commands; left out, or `-`: standard input");
    let strict = Arg::new(heap, "strict")
        .long("strict")
        .action(ArgAction::SetTrue)
        .help("End at the first refusal, with status 1");
    let explain = Arg::new(heap, "explain")
        .long("explain")
        .action(ArgAction::SetTrue)
        .help("Say of each refusal, on standard error, what is wrong and what to write");
    Command::new(heap, "weigh")
        .version(PROVED_WITH)
        .about(ABOUT)
        .arg(file)?
        .arg(strict)?
        .arg(explain)
}

//! The desk's command line, for `clap`.

ghost use Rattle.std.specs.Prelude.{IfOk, map};
ghost use Rattle.clap.specs.Words.{App};
ghost use Rattle.terms.specs.Commands.{column};
ghost use Rattle.front.specs.Line.{command_app, desk_app, empty_app, names_in, with_required};
ghost use Rattle.front.specs.Line.{IsApp};

use clap::{Arg, Command as CommandLine};
use std::alloc::Global;
use terms::{Memory, PartForm};

/// Adds a required positional argument.
fn with_argument<'a>(
    alloc: Global,
    line: CommandLine<'a>,
    id: &'a str,
) -> Result<CommandLine<'a>, Memory>
    ensures { IfOk result (λ more. (app : App) → IsApp line.entry app
        → IsApp more (with_required app id.entry.now)) }
{
    line.arg(Arg::new(alloc, id).required(true))
}

/// Makes a subcommand with an argument for each part.
fn subcommand<'a>(
    alloc: Global,
    name: &'a str,
    parts: &[PartForm],
) -> Result<CommandLine<'a>, Memory>
    ensures { IfOk result (λ line. IsApp line
        (command_app name.entry.now (names_in (map column parts.now)))) }
{
    let mut line = CommandLine::new(alloc, name);
    for part in parts {
        line = with_argument(alloc, line, part.name)?;
    }
    Ok(line)
}

/// Makes a command line without commands, whose first word names one.
fn empty_line<'a>(alloc: Global) -> CommandLine<'a>
    ensures { IsApp result empty_app }
{
    CommandLine::new(alloc, "desk").no_binary_name(true)
}

/// Makes the desk's command line with one command, the one that the words name: `clap` would build
/// the others and leave them aside.
pub fn desk_line<'a>(
    alloc: Global,
    name: &'a str,
    parts: &[PartForm],
) -> Result<CommandLine<'a>, Memory>
    ensures { IfOk result (λ line. IsApp line (desk_app (name.entry.now, map column parts.now))) }
{
    empty_line(alloc).subcommand(subcommand(alloc, name, parts)?)
}

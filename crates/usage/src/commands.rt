//! The commands of the program, as `clap` is told of them.

ghost use Rattle.std.specs.Prelude.{◌≡◌, IfOk, map};
ghost use Rattle.clap.specs.Words.{App, app_of, new_app, with_subcommand};
ghost use Rattle.usage.specs.Apps.{bare_app, command_apps, program_app, with_rules};
ghost use Rattle.usage.specs.Commands.{Extends, IsCommand, app_of_description};
ghost use Rattle.usage.specs.Commands.{rule_of_argument};

use crate::argument::{Argument, arg_of, with_rules};
use crate::descriptions::{Description, VERBOSITY, VERBOSITY_RULES};
use crate::reading_commands::{DUMP, FILES, GET, HISTORY, MANIFEST, SCAN, STATS, VERIFY};
use crate::writing_commands::{BLOCKS, CLEAN, COMPACT, INSTALL, JOB};
use clap::Command;
use std::alloc::{AllocError, Global};

/// The version, and whether the program was proved, in a field of 128 bytes. The compiler writes
/// that it was not. Once a kit has proved and built the program, `scripts/build` writes into the
/// field of the built file which logic proved it.
const VERSION: &str = concat!(
    "0.1.0, unproved                                                         ",
    "                                                               "
);

/// What is told after the program's help.
const STATUSES: &str =
    "DIR is the folder of a LevelDB database that no other program has open. Writes
that are only in a log are not read; --fail-on-logs refuses such a database.
A key is hexadecimal digits, two a byte; - is the empty key. As text (--text)
it is printable ASCII, and \\xHH for every other byte; \"\" is the empty key.
The status is 0 when the work is done, 1 when it is refused, 2 for a fault of
usage and 3 when a device fails.";

/// The program with its commands. No argument has a rule on another.
pub(crate) fn program_command<'a>(alloc: Global) -> Result<Command<'a>, AllocError>
    ensures { IfOk result (λ command. app_of command ≡ program_app) }
{
    let mut command = bare_command(alloc)?;
    for description in all_descriptions() {
        command = with_command(command, described(alloc, description))?;
    }
    Ok(command)
}

/// The same with the rules that arguments have on each other.
pub(crate) fn ruled_command<'a>(alloc: Global) -> Result<Command<'a>, AllocError> {
    let mut command = with_rules(alloc, bare_command(alloc)?, VERBOSITY_RULES)?;
    for description in all_descriptions() {
        let made = with_rules(alloc, described(alloc, description)?, VERBOSITY_RULES)?;
        command = command.subcommand(with_rules(alloc, made, description.rules)?)?;
    }
    Ok(command)
}

/// What is told of all commands, in the order of help: those that are wanted most come first.
fn all_descriptions() -> [Description<'static>; 13]
    ensures { map app_of_description result ≡ command_apps }
{
    [
        STATS, VERIFY, GET, SCAN, HISTORY, MANIFEST, DUMP, FILES, COMPACT, CLEAN, JOB, INSTALL,
        BLOCKS,
    ]
}

/// The program without its commands.
fn bare_command<'a>(alloc: Global) -> Result<Command<'a>, AllocError>
    ensures { IfOk result (λ command. app_of command ≡ bare_app) }
{
    let command = Command::new(alloc, "sedvokt")
        .version(VERSION.trim_end())
        .about("Compacts LevelDB databases on several threads; tests and reads them")
        .after_help(STATUSES)
        .subcommand_required(true);
    with_arguments(alloc, command, VERBOSITY)
}

/// `command` with one more below it. If that one was refused for lack of memory, so is this.
fn with_command<'a>(
    command: Command<'a>,
    made: Result<Command<'a>, AllocError>,
) -> Result<Command<'a>, AllocError>
    ensures { (app : App) → IfOk made.entry (IsCommand app)
        → IfOk result (λ both. app_of both ≡ with_subcommand (app_of command.entry) app.top) }
{
    command.subcommand(made?)
}

/// The command that is described so.
fn described<'a>(alloc: Global, description: Description<'a>) -> Result<Command<'a>, AllocError>
    ensures { IfOk result (IsCommand (app_of_description description.entry)) }
{
    let command = with_arguments(alloc, named(alloc, description), description.arguments)?;
    with_arguments(alloc, command, VERBOSITY)
}

/// The same without arguments yet.
fn named<'a>(alloc: Global, description: Description<'a>) -> Command<'a>
    ensures { IsCommand (new_app description.entry.name.now) result }
{
    Command::new(alloc, description.name)
        .override_usage(description.usage)
        .about(description.about)
        .after_help(description.examples)
}

/// The command with these arguments too, in their order.
fn with_arguments<'a>(
    alloc: Global,
    command: Command<'a>,
    arguments: &'a [Argument<'a>],
) -> Result<Command<'a>, AllocError>
    ensures { IfOk result (Extends
        (with_rules (map rule_of_argument arguments.entry.now)) command.entry) }
{
    let mut command = command;
    for argument in arguments {
        command = command.arg(arg_of(alloc, *argument))?;
    }
    Ok(command)
}

//! An argument of a command, and a rule that arguments have on each other, as `clap` is told of
//! them.

ghost use Rattle.usage.specs.Apps.{flag_rule, number_rule, value_rule};
ghost use Rattle.usage.specs.Commands.{IsArgument, rule_of_argument};

use clap::builder::ValueParser;
use clap::{Arg, ArgAction, ArgGroup, Command, value_parser};
use std::alloc::{AllocError, Global};

/// The most MiB of memory that may be asked for, 2^24.
const MAX_MEMORY: u64 = 16_777_216;

/// An argument of a command. First comes its name, which for an option is the word after `--`. Last
/// comes what help says of it.
#[derive(Clone, Copy)]
pub(crate) enum Argument<'a> {
    /// A text that is given by its place.
    Place(&'a str, &'a str),
    /// The same, of a text that may be left out.
    FreePlace(&'a str, &'a str),
    /// The same, of several texts.
    FreePlaces(&'a str, &'a str),
    /// Several texts that are given by their places, at least one.
    Places(&'a str, &'a str),
    /// An option without a value.
    Flag(&'a str, &'a str),
    /// The same, which may also be given as a hyphen and this letter.
    ShortFlag(&'a str, char, &'a str),
    /// An option with a text, which usage calls by the second name.
    Value(&'a str, &'a str, &'a str),
    /// The same, of one that must be given.
    WantedValue(&'a str, &'a str, &'a str),
    /// An option with a number of 64 bits, which usage calls by the second name.
    Number(&'a str, &'a str, &'a str),
    /// The same, of one that must be given.
    WantedNumber(&'a str, &'a str, &'a str),
    /// `--memory MIB`.
    Memory(&'a str),
}

/// A rule on arguments of a command. First comes the name of its group, which nobody is told.
#[derive(Clone, Copy)]
pub(crate) enum Rule<'a> {
    /// At most one of these is given.
    AtMostOne(&'a str, &'a [&'a str]),
    /// One of these is given, and no other.
    One(&'a str, &'a [&'a str]),
    /// If the first is given, the second is too.
    Needs(&'a str, &'a str, &'a str),
}

/// The argument, for `clap`.
pub(crate) fn arg_of<'a>(alloc: Global, argument: Argument<'a>) -> Arg<'a>
    ensures { IsArgument (rule_of_argument argument.entry) result }
{
    match argument {
        Argument::Place(id, help) => Arg::new(alloc, id).help(help).required(true),
        Argument::FreePlace(id, help) => Arg::new(alloc, id).help(help),
        Argument::FreePlaces(id, help) => {
            Arg::new(alloc, id).help(help).action(ArgAction::Append)
        }
        Argument::Places(id, help) => Arg::new(alloc, id)
            .help(help)
            .action(ArgAction::Append)
            .required(true),
        Argument::Flag(id, help) => flag(alloc, id, help),
        Argument::ShortFlag(id, letter, help) => flag(alloc, id, help).short(letter),
        Argument::Value(id, name, help) => value(alloc, id, name, help),
        Argument::WantedValue(id, name, help) => value(alloc, id, name, help).required(true),
        Argument::Number(id, name, help) => number(alloc, id, name, help),
        Argument::WantedNumber(id, name, help) => number(alloc, id, name, help).required(true),
        Argument::Memory(help) => value(alloc, "memory", "MIB", help).value_parser(
            ValueParser::unsigned(1, MAX_MEMORY),
        ),
    }
}

fn flag<'a>(alloc: Global, id: &'a str, help: &'a str) -> Arg<'a>
    ensures { IsArgument (flag_rule id.entry.now) result }
{
    Arg::new(alloc, id)
        .long(id)
        .action(ArgAction::SetTrue)
        .help(help)
}

/// An option with a text.
fn value<'a>(alloc: Global, id: &'a str, name: &'a str, help: &'a str) -> Arg<'a>
    ensures { IsArgument (value_rule id.entry.now) result }
{
    Arg::new(alloc, id).long(id).value_name(name).help(help)
}

/// An option with a number of 64 bits.
fn number<'a>(alloc: Global, id: &'a str, name: &'a str, help: &'a str) -> Arg<'a>
    ensures { IsArgument (number_rule id.entry.now) result }
{
    value(alloc, id, name, help).value_parser(value_parser!(u64))
}

/// The command with these rules too.
pub(crate) fn with_rules<'a>(
    alloc: Global,
    command: Command<'a>,
    rules: &[Rule<'a>],
) -> Result<Command<'a>, AllocError> {
    let mut command = command;
    for rule in rules {
        command = command.group(group_of(alloc, *rule)?)?;
    }
    Ok(command)
}

/// The group of arguments that has the rule.
fn group_of<'a>(alloc: Global, rule: Rule<'a>) -> Result<ArgGroup<'a>, AllocError> {
    match rule {
        Rule::AtMostOne(id, arguments) => ArgGroup::new(alloc, id).args(arguments),
        Rule::One(id, arguments) => ArgGroup::new(alloc, id).required(true).args(arguments),
        Rule::Needs(id, first, second) => {
            ArgGroup::new(alloc, id).arg(first)?.requires_arg(second)
        }
    }
}

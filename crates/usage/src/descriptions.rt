//! What is told of a command: its help, its arguments, and the rules that these have on each other;
//! and the arguments that several commands have.
//!
//! Lines of help have at most 80 columns: what an option says has at most 52 in a line. In examples
//! DIR is the folder of any database, and 000005 the number of any table.

use crate::argument::{Argument, Rule};

/// A command as it is told to `clap`.
#[derive(Clone, Copy)]
pub(crate) struct Description<'a> {
    pub name: &'a str,
    /// What is given to it, in the order in which one types.
    pub usage: &'a str,
    /// What it does and prints, in a line.
    pub about: &'a str,
    /// The form of what it prints, and examples, which are told after its help.
    pub examples: &'a str,
    /// Its arguments, in the order of its help. It has those of [`VERBOSITY`] too.
    pub arguments: &'a [Argument<'a>],
    /// Which of them exclude each other, and which need another one.
    pub rules: &'a [Rule<'a>],
}

/// How much is told: the program and each of its commands have these two.
pub(crate) const VERBOSITY: &[Argument<'static>] = &[
    Argument::ShortFlag(
        "verbose",
        'v',
        "Tells on standard error how long the work took",
    ),
    Argument::ShortFlag("quiet", 'q', "Tells on standard error only what is wrong"),
];

/// At most one of them is given.
pub(crate) const VERBOSITY_RULES: &[Rule<'static>] = &[Rule::AtMostOne(
    "verbosity",
    &["verbose", "quiet"],
)];

pub(crate) const FOLDER: Argument<'static> = Argument::Place("DIR", "The folder of the database");

pub(crate) const TEXT: Argument<'static> = Argument::Flag(
    "text",
    "Keys and values are text: printable ASCII, and \\xHH\nfor every other byte",
);

pub(crate) const UTF8: Argument<'static> = Argument::Flag(
    "utf8",
    "Keys and values that are UTF-8 are printed as they\n\
        are: in JSON wholly, in lines but for ASCII that is not\n\
        printable; others as {\"hex\":..} in JSON, as \\xHH in\n\
        lines; keys are given as with --text",
);

pub(crate) const JSON: Argument<'static> = Argument::Flag(
    "json",
    "Prints a JSON object a line, and tells a refusal as\n\
        one too, after the line of its name",
);

pub(crate) const MEMORY: Argument<'static> = Argument::Memory(
    "How many MiB of tables the test may hold:\n1 to 16777216; 128 if it is left out",
);

pub(crate) const NO_VERIFY: Argument<'static> = Argument::Flag(
    "no-verify",
    "Takes the version for lawful and tests only what it\n\
        reads: the version was verified before, and no other\n\
        program changed it since",
);

pub(crate) const NO_LOCK: Argument<'static> = Argument::Flag(
    "no-lock",
    "Neither locks the folder nor looks whether another\n\
        program has it open: for a copy, or one that must not\n\
        be touched",
);

pub(crate) const FAIL_ON_LOGS: Argument<'static> = Argument::Flag(
    "fail-on-logs",
    "Fails if writes are only in a log: logs are not read\n\
        here, LevelDB brings them into tables",
);

pub(crate) const SEQUENCE: Argument<'static> = Argument::Number(
    "at",
    "N",
    "The sequence at which to read, in decimal digits;\nthe last one if it is left out",
);

pub(crate) const SNAPSHOT: Argument<'static> = Argument::Number(
    "snapshot",
    "S",
    "The oldest snapshot: each get at this sequence or a\nlater one stays",
);

pub(crate) const SNAPSHOTS: Argument<'static> = Argument::Value(
    "snapshots",
    "S,S,..",
    "The snapshots, as 3,7,9: each get at one of them\n\
        stays, and at the last sequence or a later one",
);

pub(crate) const CLEANS: Argument<'static> = Argument::Flag(
    "clean",
    "Removes, after each installation, the files that the\nversion does not need any more",
);

//! What the words of a command line ask for.
//!
//! [`line`] is the one call. It describes the commands to `clap`, and makes what `clap` reads a
//! [`CommandLine`]: the command with its values, and how much is told of it. Or it answers a
//! [`Usage`], why the words ask for nothing.
//!
//! `commands` lists the commands, `reading_commands` and `writing_commands` have their
//! arguments and their help. Each takes `-v` or `-q`, before its name or after it.
//!
//! What `clap` reads is stated as far as its own contracts say. They say most of commands in which
//! no argument has a rule on another, so the words are read by such commands. Only if they make no
//! line are they read again, by commands with these rules: then `clap` says which one they break.
//! No contract says which texts of help there are.
#![tactic(auto)]

mod argument;
mod command_line;
mod commands;
mod compact_line;
mod descriptions;
mod key_lines;
mod lines;
mod reading_commands;
mod requests;
mod usage_fault;
mod values;
mod writing_commands;

pub use command_line::line;
pub use compact::Settings;
pub use requests::{
    BlocksLine, CleanLine, CommandLine, CompactLine, CompactOptions, CompactWork, DumpLine,
    FilesLine, GetLine, HistoryLine, InstallLine, JobLine, KeySource, Levels, Line, ManifestLine,
    RowOptions, RowOutput, ScanLine, StatsLine, TableLine, Testing, Verbosity, VerdictForm,
    VerifyLine,
};
pub use usage_fault::Usage;

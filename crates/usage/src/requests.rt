//! What a command line asks for. Of a command `folder` is the path of its folder; `spelling` is how
//! keys are given, and keys and values printed; `is_json` is whether the answer is JSON; `testing`
//! is how the version is tested before; `memory` how many MiB of tables that may hold, 1 to 2^24.

use compact::{Settings, Snapshots};
use texts::Spelling;

/// What a command line asks for, and how much it asks to be told of it.
#[derive(Drop)]
pub struct CommandLine<'a> {
    /// How much is told on the standard error.
    pub verbosity: Verbosity,
    /// Whether the lock of the folder isn't looked at.
    pub ignores_lock: bool,
    /// Whether logs with writes that are in no table are a refusal.
    pub refuses_logs: bool,
    /// What its command is asked for.
    pub line: Line<'a>,
}

/// How much is told on the standard error beside a refusal and what is wrong.
#[derive(Clone, Copy, PartialEq, Eq)]
pub enum Verbosity {
    /// Nothing: `--quiet` is given.
    Quiet,
    /// Notes, and progress if somebody watches: neither is given.
    Normal,
    /// More: how long the work took. `--verbose` is given.
    Verbose,
}

/// What a command is asked for.
#[derive(Drop)]
pub enum Line<'a> {
    /// Merges the blocks in two files into one, over two ranges: before a key and from it on.
    Blocks(BlocksLine<'a>),
    /// Prints the entries of a table.
    Dump(DumpLine<'a>),
    /// Prints the version that a database folder holds.
    Manifest(ManifestLine<'a>),
    /// Prints how many files, bytes and entries each level of a version has.
    Stats(StatsLine<'a>),
    /// Checks whether the version that a database folder holds is lawful.
    Verify(VerifyLine<'a>),
    /// Checks whether a file is a table.
    Table(TableLine<'a>),
    /// Prints the values of user keys at a sequence.
    Get(GetLine<'a>),
    /// Prints all entries of a user key.
    History(HistoryLine<'a>),
    /// Prints the user keys that have a value at a sequence, in their order.
    Scan(ScanLine<'a>),
    /// Prints the names of the files that a copy of a database folder needs.
    Files(FilesLine<'a>),
    /// Prints the names of the files that a compaction of a level would read.
    Job(JobLine<'a>),
    /// Compacts a level of a database folder into the next one, or all levels downwards.
    Compact(CompactLine<'a>),
    /// Installs the outcome of a compaction in the database folder that it was made of.
    Install(InstallLine<'a>),
    /// Removes the files of a database folder that no version needs.
    Clean(CleanLine<'a>),
}

/// What is asked for of `blocks`.
#[derive(Drop)]
pub struct BlocksLine<'a> {
    /// The path of the first file.
    pub a: &'a str,
    /// The path of the second file.
    pub b: &'a str,
    /// The user key at which the second range begins.
    pub at: Vec<u8>,
    /// The path of the file that gets the block.
    pub out: &'a str,
}

/// What is asked for of `dump`.
#[derive(Clone, Copy)]
pub struct DumpLine<'a> {
    /// The path of the table's file.
    pub table: &'a str,
    pub spelling: Spelling,
}

/// What is asked for of `manifest`.
#[derive(Clone, Copy)]
pub struct ManifestLine<'a> {
    pub folder: &'a str,
    pub spelling: Spelling,
    pub is_json: bool,
}

/// What is asked for of `stats`.
#[derive(Clone, Copy)]
pub struct StatsLine<'a> {
    pub folder: &'a str,
    pub spelling: Spelling,
    pub is_json: bool,
    pub memory: u64,
}

/// What is asked for of `verify` of a folder.
#[derive(Clone, Copy)]
pub struct VerifyLine<'a> {
    pub folder: &'a str,
    /// What is printed.
    pub form: VerdictForm,
    pub memory: u64,
}

/// What is asked for of `verify` of a table.
#[derive(Clone, Copy)]
pub struct TableLine<'a> {
    /// The path of the table's file.
    pub table: &'a str,
    pub is_json: bool,
}

/// What is asked for of `get`.
#[derive(Drop)]
pub struct GetLine<'a> {
    pub folder: &'a str,
    /// The user keys.
    pub keys: KeySource,
    /// The sequence, any number. Without it, the version's last sequence.
    pub at: Option<u64>,
    pub spelling: Spelling,
    /// Whether the bytes of the values are printed themselves.
    pub is_raw: bool,
    /// Whether keys and values are printed as JSON. At most one of the two is asked for.
    pub is_json: bool,
    pub testing: Testing,
}

/// Where the keys of `get` are.
#[derive(Drop)]
pub enum KeySource {
    /// These are given.
    Given(Vec<Vec<u8>>),
    /// They are in the standard input, one a line.
    Input,
}

/// What is asked for of `history`.
#[derive(Drop)]
pub struct HistoryLine<'a> {
    pub folder: &'a str,
    /// The user key.
    pub key: Vec<u8>,
    pub spelling: Spelling,
    pub is_json: bool,
    pub testing: Testing,
}

/// What is asked for of `scan`.
#[derive(Drop)]
pub struct ScanLine<'a> {
    pub folder: &'a str,
    /// Which keys are printed.
    pub rows: RowOptions,
    /// What is printed of them.
    pub output: RowOutput,
    pub spelling: Spelling,
    pub is_json: bool,
    pub testing: Testing,
}

/// What is asked for of `files`.
#[derive(Clone, Copy)]
pub struct FilesLine<'a> {
    pub folder: &'a str,
    pub is_json: bool,
}

/// What is asked for of `job`.
#[derive(Clone, Copy)]
pub struct JobLine<'a> {
    pub folder: &'a str,
    /// The level, any number.
    pub level: u64,
    /// Whether the parts of the level are printed, and not the files that a compaction would read.
    pub by_parts: bool,
}

/// What is asked for of `compact`.
#[derive(Clone, Copy)]
pub struct CompactLine<'a> {
    pub folder: &'a str,
    /// What is asked for beside the settings.
    pub options: CompactOptions<'a>,
    /// The settings of each compaction.
    pub settings: Settings<'a>,
}

/// What is asked for of `compact` beside its settings.
#[derive(Clone, Copy)]
pub struct CompactOptions<'a> {
    /// Which levels, and where the outcome goes.
    pub work: CompactWork<'a>,
    pub testing: Testing,
    pub is_json: bool,
    /// Whether files that no version needs are removed after each installation.
    pub cleans: bool,
}

/// What is compacted, and where the outcome goes.
#[derive(Clone, Copy)]
pub enum CompactWork<'a> {
    /// These levels. Each outcome is installed in the folder.
    Installed(Levels),
    /// A level, once. The outcome goes into a folder of its own, and the other one is only read.
    Written {
        level: u64,
        /// The number of the part of the level. Without it, what a compaction picks of the level.
        part: Option<u64>,
        /// The path of the folder that gets the outcome.
        out: &'a str,
        /// The number of the first new table. Without it, that after the version's next file.
        first_number: Option<u64>,
    },
}

/// Which levels of a folder are compacted.
#[derive(Clone, Copy)]
pub enum Levels {
    /// This level, once.
    One(u64),
    /// All files of this level, with one manifest.
    Whole(u64),
    /// Each level down to the deepest that has files: first all parts that fit into the memory.
    All,
}

/// What is asked for of `install`.
#[derive(Drop)]
pub struct InstallLine<'a> {
    pub folder: &'a str,
    /// The paths of the folders that have the outcomes, in their order.
    pub outs: Vec<&'a str>,
    /// The sequences at which gets have to answer as before. None is given if the test is skipped.
    pub snapshots: Snapshots<'a>,
    /// How each outcome is tested before: it is compared with the inputs, unless that is skipped.
    pub testing: Testing,
    /// Whether files that no version needs are removed after the installation.
    pub cleans: bool,
}

/// What is asked for of `clean`.
#[derive(Clone, Copy)]
pub struct CleanLine<'a> {
    pub folder: &'a str,
    /// Whether the files are only told, and none is removed.
    pub is_dry_run: bool,
}

/// What `verify` prints of a version.
#[derive(Clone, Copy, PartialEq, Eq)]
pub enum VerdictForm {
    /// A line, if it is lawful.
    Line,
    /// The same as JSON.
    Json,
    /// All faults of its files, a line each.
    AllFaults,
}

/// What a scan prints of its rows.
#[derive(Clone, Copy, PartialEq, Eq)]
pub enum RowOutput {
    /// Each key and its value.
    Pairs,
    /// The keys alone.
    Keys,
    /// How many there are.
    Count,
}

/// Which rows a scan prints.
#[derive(Drop)]
pub struct RowOptions {
    /// The user key at which the scan begins. Without it, the first one.
    pub from: Option<Vec<u8>>,
    /// The user key before which the scan ends. Without it, the scan ends with the last one.
    pub to: Option<Vec<u8>>,
    /// What each user key begins with. With it, neither of the two is given.
    pub prefix: Option<Vec<u8>>,
    /// The sequence, any number. Without it, the version's last sequence.
    pub at: Option<u64>,
    /// At most how many rows are printed, any number. Without it, all.
    pub limit: Option<u64>,
}

/// How a version is tested before the work on it.
#[derive(Clone, Copy)]
pub struct Testing {
    /// Whether it isn't tested: it was verified before, and no other program changed it since.
    pub is_skipped: bool,
    pub memory: u64,
}

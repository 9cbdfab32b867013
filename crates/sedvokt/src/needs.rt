//! What each command needs, beside the work itself.

use session::Access;
use usage::{CompactWork, Line, Testing, VerdictForm};

/// How many MiB of tables are held to find the file of a refusal, if `--memory` doesn't say it.
const MEMORY: u64 = 128;

/// What a command line needs.
#[derive(Clone, Copy)]
pub(crate) struct Needs<'a> {
    /// The path that it is about: the folder, the table or the first block.
    pub subject: &'a str,
    /// Whether answers and refusals are JSON.
    pub is_json: bool,
    /// What it does with the folder.
    pub access: Access,
    /// As what it is told how long it took; None if it tells that of its steps.
    pub step: Option<&'static str>,
    /// How many MiB of tables may be held.
    pub memory: u64,
    /// Whether tables are read of a version that isn't tested before.
    pub is_untested: bool,
}

impl<'a> Needs<'a> {
    /// The same of one that may hold as many MiB of tables.
    fn holding(self, memory: u64) -> Needs<'a> {
        Needs { memory, ..self }
    }

    /// The same of one that tests the version so; if that is left out, this is told in place of the
    /// step.
    fn testing(self, testing: Testing, untested: &'static str) -> Needs<'a> {
        let needs = self.holding(testing.memory);
        if !testing.is_skipped {
            return needs;
        }
        Needs {
            step: Some(untested),
            is_untested: true,
            ..needs
        }
    }
}

/// What a command line needs.
pub(crate) fn needs_of<'a>(line: &Line<'a>) -> Needs<'a> {
    match line {
        Line::Blocks(line) => of(line.a, false, Access::None, None),
        Line::Dump(line) => of(line.table, false, Access::None, None),
        Line::Table(line) => of(line.table, line.is_json, Access::None, None),
        Line::Manifest(line) => of_read(line.folder, line.is_json, "manifest"),
        Line::Stats(line) => of_read(line.folder, line.is_json, "stats").holding(line.memory),
        Line::Verify(line) => {
            let step = match line.form {
                VerdictForm::AllFaults => "verify --all-faults",
                _ => "verify",
            };
            of_read(line.folder, line.form == VerdictForm::Json, step).holding(line.memory)
        }
        Line::Get(line) => {
            of_read(line.folder, line.is_json, "get").testing(line.testing, "get --no-verify")
        }
        Line::Scan(line) => {
            of_read(line.folder, line.is_json, "scan").testing(line.testing, "scan --no-verify")
        }
        Line::History(line) => {
            let needs = of_read(line.folder, line.is_json, "history");
            needs.testing(line.testing, "history --no-verify")
        }
        Line::Files(line) => of(line.folder, line.is_json, Access::List, Some("files")),
        Line::Job(line) => of(line.folder, false, Access::None, Some("job")),
        Line::Compact(line) => {
            let access = match line.options.work {
                CompactWork::Installed(_) => Access::Change,
                CompactWork::Written { .. } => Access::None,
            };
            of(line.folder, line.options.is_json, access, None).holding(line.options.testing.memory)
        }
        Line::Install(line) => {
            of(line.folder, false, Access::Change, None).holding(line.testing.memory)
        }
        Line::Clean(line) if line.is_dry_run => of_read(line.folder, false, "clean --dry-run"),
        Line::Clean(line) => of(line.folder, false, Access::Change, Some("clean")),
    }
}

/// What a command needs that reads a folder while none of this program changes it.
fn of_read<'a>(subject: &'a str, is_json: bool, step: &'static str) -> Needs<'a> {
    of(subject, is_json, Access::Read, Some(step))
}

/// What a command needs that does this with a folder.
fn of<'a>(
    subject: &'a str,
    is_json: bool,
    access: Access,
    step: Option<&'static str>,
) -> Needs<'a> {
    Needs {
        subject,
        is_json,
        access,
        step,
        memory: MEMORY,
        is_untested: false,
    }
}

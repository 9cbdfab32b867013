//! The rows of a folder, which are printed as they are found.

use answers::{Open, count_json, json_line, logs_json, push_row, push_row_json};
use checks::{Fault, FaultName, checkers};
use refusals::sizes_in_turn;
use scan::{RowChoice, RowCounter, RowTaker, prefix_end, scan_unverified, scan_version};
use session::{Answer, Host, Order, ProgressLine, Refusal, Session, bytes_of, print_lines, said};
use std::alloc::Global;
use std::time::Clock;
use usage::{RowOptions, RowOutput, ScanLine, Testing};

/// How many bytes of lines are written at once, or somewhat more.
pub(crate) const AT_ONCE: usize = 65_536;

/// Prints the rows of a folder that are asked for, or answers the line of their number. Its version
/// is tested before, if that is asked for.
pub fn rows_answer<R: Host>(session: &mut Session<'_, R>, line: &ScanLine<'_>) -> Answer {
    let end = end_of(session, &line.rows)?;
    let choice = choice_of(&line.rows, end.as_deref());
    if !line.testing.is_skipped {
        sizes_in_turn(session.rt, session.telling.folder, &session.opened)?;
    }
    if line.output == RowOutput::Count {
        return count_answer(session, line, choice);
    }
    print_rows(session, line, choice)?;
    Ok(Vec::new(session.rt.alloc()))
}

/// Where the keys end that are printed; None if nothing ends them. Comparator if they are those
/// with a prefix, and keys aren't in the order of their bytes.
fn end_of<R: Host>(
    session: &Session<'_, R>,
    rows: &RowOptions,
) -> Result<Option<Vec<u8>>, Refusal> {
    let alloc = session.rt.alloc();
    let Some(prefix) = &rows.prefix else {
        return Ok(None);
    };
    if session.opened.order != Order::Bytewise {
        let wrong = "its comparator does not keep the keys with a prefix together";
        let told = said(alloc, session.telling.folder, wrong, "give --from and --to");
        return Err(Refusal::new(Fault::of(FaultName::Comparator), told));
    }
    Ok(prefix_end(alloc, prefix)?)
}

/// What is printed of how many rows there are.
fn count_answer<R: Host>(
    session: &mut Session<'_, R>,
    line: &ScanLine<'_>,
    choice: RowChoice<'_>,
) -> Answer {
    let alloc = session.rt.alloc();
    let progress = session.progress();
    let mut counter = RowCounter { rows: 0 };
    let scanned = scanned(session, &line.testing, choice, &progress, &mut counter);
    session.ended(&progress, scanned)?;
    let count = counter.rows;
    let text = if line.is_json {
        json_line(alloc, &count_json(alloc, count, session.logs)?)?
    } else {
        format!(in alloc; "{count}\n")?
    };
    Ok(text.into_bytes())
}

/// Prints rows as they are found, also those that were told before a refusal. After rows of JSON
/// comes the line of the logs, if there is one with writes.
fn print_rows<R: Host>(
    session: &mut Session<'_, R>,
    line: &ScanLine<'_>,
    choice: RowChoice<'_>,
) -> Result<(), Refusal> {
    let rt = session.rt;
    let progress = session.progress();
    let mut printer = RowPrinter {
        rt,
        progress: &progress,
        line: &*line,
        lines: Vec::new(rt.alloc()),
        refusal: None,
    };
    let scanned = scanned(session, &line.testing, choice, &progress, &mut printer);
    let done = session.ended(&progress, scanned);
    let RowPrinter { lines, refusal, .. } = printer;
    if let Some(refusal) = refusal {
        return Err(refusal);
    }
    let mut lines = lines;
    if done.is_ok() {
        push_logs(rt.alloc(), &mut lines, line.is_json, session.logs)?;
    }
    print_lines(rt, &lines)?;
    done
}

/// Appends the JSON line of the logs, unless none has writes. Nothing of answers that aren't JSON.
pub(crate) fn push_logs(
    alloc: Global,
    lines: &mut Vec<u8>,
    is_json: bool,
    logs: Option<u64>,
) -> Result<(), Fault> {
    if is_json && logs != Some(0) {
        lines.extend_from_slice(json_line(alloc, &logs_json(alloc, logs)?)?.as_bytes())?;
    }
    Ok(())
}

/// Tells the rows of a folder, and tests it before, if that is asked for.
fn scanned<'r, R: Host, T: RowTaker>(
    session: &mut Session<'r, R>,
    testing: &Testing,
    choice: RowChoice<'_>,
    progress: &ProgressLine<'r, R>,
    taker: &mut T,
) -> Result<(), Fault> {
    let memory = bytes_of(testing.memory);
    let workers = checkers(session.rt, session.rt.alloc(), progress);
    let folder = &mut session.disk;
    if testing.is_skipped {
        let untold = workers.with_gate(&Open);
        scan_unverified(&untold, folder, &session.opened, choice, memory, taker)
    } else {
        scan_version(&workers, folder, &session.opened, choice, memory, taker)
    }
}

/// The rows that are asked for, as a scan takes them. Those with a prefix end at `end`.
fn choice_of<'s>(rows: &'s RowOptions, end: Option<&'s [u8]>) -> RowChoice<'s> {
    let (from, to) = match &rows.prefix {
        Some(prefix) => (Some(prefix.as_slice()), end),
        None => (rows.from.as_deref(), rows.to.as_deref()),
    };
    RowChoice {
        from,
        to,
        at: rows.at,
        limit: rows.limit,
    }
}

/// Who prints rows, a line each.
#[derive(Drop)]
struct RowPrinter<'t, R> {
    rt: &'t R,
    progress: &'t ProgressLine<'t, R>,
    line: &'t ScanLine<'t>,
    /// The lines that are not written yet.
    lines: Vec<u8>,
    /// Why a row could not be printed. No row comes after it.
    refusal: Option<Refusal>,
}

impl<'t, R: Print + Eprint + Clock + AllocGlobal> RowPrinter<'t, R> {
    /// Adds the line of a row, and writes the lines if there are enough of them.
    fn push(&mut self, key: &[u8], value: &[u8]) -> Result<(), Refusal> {
        let value = (self.line.output == RowOutput::Pairs).then_some(value);
        let spelling = self.line.spelling;
        if self.line.is_json {
            push_row_json(self.rt.alloc(), &mut self.lines, spelling, key, value)?;
        } else {
            push_row(&mut self.lines, spelling, key, value)?;
        }
        if self.lines.len() >= AT_ONCE {
            self.progress.erase();
            print_lines(self.rt, &self.lines)?;
            self.lines.clear();
        }
        Ok(())
    }
}

impl<'t, R: Print + Eprint + Clock + AllocGlobal> RowTaker for RowPrinter<'t, R> {
    fn row(&mut self, key: &[u8], value: &[u8]) -> bool {
        self.refusal = self.push(key, value).err();
        self.refusal.is_none()
    }
}

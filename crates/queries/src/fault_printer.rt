//! All faults of a folder's version, which are printed as they are found.

use answers::{fault_count_line, file_fault_line, key_fault_line};
use checks::{Fault, FaultName, checkers};
use faults::{FaultTaker, FileFault, all_faults};
use session::{Answer, Host, ProgressLine, Refusal, Session, print_lines, tell_replaced};
use std::time::Clock;
use texts::Spelling;

/// Prints all faults of a folder. The answer is the line of none. If there is one, their number is
/// printed too, and they are refused; nothing else is told, but that another program changed the
/// folder meanwhile. The test may hold this many bytes of tables.
pub(crate) fn print_faults<R: Host>(session: &mut Session<'_, R>, memory: u64) -> Answer {
    let count = faults_told(session, memory)?;
    let rt = session.rt;
    let line = fault_count_line(rt.alloc(), count)?;
    if count == 0 {
        return Ok(line);
    }
    session.tell_time("verify --all-faults");
    print_lines(rt, &line)?;
    tell_replaced(rt, session.telling, &session.opened);
    Err(Refusal::silent(Fault::of(FaultName::Lawless)))
}

/// Prints all faults, and answers how many there are.
fn faults_told<R: Host>(session: &mut Session<'_, R>, memory: u64) -> Result<u64, Refusal> {
    let rt = session.rt;
    let progress = session.progress();
    let mut printer = FaultPrinter {
        rt,
        progress: &progress,
        refusal: None,
    };
    let workers = checkers(rt, rt.alloc(), &progress);
    let (folder, opened) = (&mut session.disk, &session.opened);
    let told = all_faults(&workers, folder, opened, memory, &mut printer);
    let count = session.ended(&progress, told);
    match printer.refusal {
        Some(refusal) => Err(refusal),
        None => count,
    }
}

/// Who prints faults, a line each.
#[derive(Drop)]
struct FaultPrinter<'t, R> {
    rt: &'t R,
    progress: &'t ProgressLine<'t, R>,
    /// Why a fault could not be printed. No fault comes after it.
    refusal: Option<Refusal>,
}

impl<'t, R: Print + Eprint + Clock + AllocGlobal> FaultPrinter<'t, R> {
    /// Prints a line. The answer is whether it could be printed.
    fn print(&mut self, line: Result<Vec<u8>, Fault>) -> bool {
        self.progress.erase();
        self.refusal = match line {
            Ok(line) => print_lines(self.rt, &line).err(),
            Err(fault) => Some(Refusal::from(fault)),
        };
        self.refusal.is_none()
    }
}

impl<'t, R: Print + Eprint + Clock + AllocGlobal> FaultTaker for FaultPrinter<'t, R> {
    fn file_fault(&mut self, number: u64, fault: FileFault) -> bool {
        self.print(file_fault_line(self.rt.alloc(), number, fault))
    }

    fn key_fault(&mut self, user: &[u8], file: u64, other: u64) -> bool {
        let spelling = Spelling::Hexadecimal;
        self.print(key_fault_line(self.rt.alloc(), spelling, user, file, other))
    }
}

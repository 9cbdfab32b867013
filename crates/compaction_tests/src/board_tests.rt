//! Runs of jobs on several threads: that threads meet, and the rows of the rules.

use board::{Gate, Labour, Open, RunFault, run};
use coding::{Fault, FaultName};
use std::alloc::Global;
use std::process::Abort;
use std::sync::atomic::{AtomicU64, Ordering};
use std::test::*;
use std::thread;
use std::thread::Threads;

/// How often a thread looks whether another has come.
const TURNS: u64 = 1_000_000;

/// Jobs that are held until others have come and others have ended. Each number has a byte for each
/// of eight jobs.
#[derive(Clone, Copy)]
struct Held {
    jobs: u64,
    come: u64,
    left: u64,
}

/// No job is held.
const FREE: Held = Held {
    jobs: 0,
    come: 0,
    left: 0,
};

/// Each of two jobs is held until both have come.
const MEETING: Held = Held {
    jobs: 0x0101,
    come: 0x0101,
    left: 0,
};

/// Counts how often each of eight jobs comes and ends, in a byte each, and holds some of them.
#[derive(Drop)]
struct Watch {
    come: AtomicU64,
    left: AtomicU64,
    given_up: AtomicU64,
    held: Held,
}

/// One in the byte of a job.
fn byte_of(job: u64) -> u64 {
    1 << (8 * (job % 8))
}

impl Watch {
    fn new(held: Held) -> Watch {
        Watch {
            come: AtomicU64::new(0),
            left: AtomicU64::new(0),
            given_up: AtomicU64::new(0),
            held,
        }
    }

    /// Whether the jobs have come and ended for which jobs are held.
    fn is_free(&self) -> bool {
        let come = self.come.load(Ordering::SeqCst);
        let left = self.left.load(Ordering::SeqCst);
        come & self.held.come == self.held.come && left & self.held.left == self.held.left
    }

    /// Holds a job, if it is one of those.
    fn hold(&self, job: u64) {
        self.come.fetch_add(byte_of(job), Ordering::SeqCst);
        if self.held.jobs & byte_of(job) == 0 {
            return;
        }
        for _ in 0..TURNS {
            if self.is_free() {
                return;
            }
            thread::yield_now();
        }
        self.given_up.fetch_add(1, Ordering::SeqCst);
    }

    /// Whether no hold was given up, and jobs came and ended this often.
    fn has_counted(&self, come: u64, left: u64) -> bool {
        self.given_up.load(Ordering::SeqCst) == 0
            && self.come.load(Ordering::SeqCst) == come
            && self.left.load(Ordering::SeqCst) == left
    }
}

impl Gate for Watch {
    fn pass(&self, _seat: u32, job: u64) {
        self.hold(job);
    }

    fn left(&self, _seat: u32, job: u64) {
        self.left.fetch_add(byte_of(job), Ordering::SeqCst);
    }
}

impl Labour for Watch {
    type Out = u64;

    ghost use Rattle.std.specs.Prelude.{◌≡◌, ◌^◌, None};

    ghost jobs = { λ _. 2 ^ 40 };

    ghost refusal = { λ _ _. None };

    ghost gives = { λ _ job out. out ≡ job };

    fn work(&self, job: u64) -> Result<u64, Fault> {
        self.hold(job);
        Ok(job)
    }
}

/// Refuses one job by name, and one as out of memory.
#[derive(Clone, Copy)]
struct Refusing {
    by_name: u64,
    for_memory: u64,
}

impl Labour for Refusing {
    type Out = u64;

    ghost use Rattle.std.specs.Prelude.{◌≡◌, ◌^◌, None, Some, cond, ◌==◌};
    ghost use Rattle.coding.specs.Answers.{fault};
    ghost use Rattle.coding.specs.declared.fault.FaultName.TheVariants.{Options};

    ghost jobs = { λ _. 2 ^ 40 };

    ghost refusal = { λ s job. cond (job == s.by_name) (Some (fault Options)) None };

    ghost gives = { λ _ job out. out ≡ job };

    fn work(&self, job: u64) -> Result<u64, Fault> {
        if job == self.for_memory {
            return Err(Fault::of(FaultName::Memory));
        }
        if job == self.by_name {
            return Err(Fault::of(FaultName::Options));
        }
        Ok(job)
    }
}

/// Refuses no job.
const WILLING: Refusing = Refusing {
    by_name: u64::MAX,
    for_memory: u64::MAX,
};

/// Refuses job 2 by name, and the first as out of memory.
const FIRST_FOR_MEMORY: Refusing = Refusing {
    by_name: 2,
    for_memory: 0,
};

/// Refuses job 2 by name, and job 5 as out of memory.
const THIRD_BY_NAME: Refusing = Refusing {
    by_name: 2,
    for_memory: 5,
};

/// The fault of a job that is refused by name.
const NAMED: Fault = Fault {
    name: FaultName::Options,
    input: None,
};

/// The fault of one that is refused as out of memory.
const MEMORY: Fault = Fault {
    name: FaultName::Memory,
    input: None,
};

/// Jobs of workers, which of them are held, how often each job comes and ends, and the answer.
struct Row {
    name: &'static str,
    labour: Refusing,
    jobs: u8,
    workers: u64,
    held: Held,
    each: u64,
    wanted: Result<&'static [u64], RunFault>,
}

const ROWS: &[Row] = &[
    Row {
        name: "no jobs",
        labour: WILLING,
        jobs: 0,
        workers: 3,
        held: FREE,
        each: 0,
        wanted: Ok(&[]),
    },
    Row {
        name: "one worker too many",
        labour: WILLING,
        jobs: 5,
        workers: 65,
        held: FREE,
        each: 0,
        wanted: Err(RunFault::Workers),
    },
    // A caller that does all jobs itself would give up here.
    Row {
        name: "two workers meet at the gate",
        labour: WILLING,
        jobs: 2,
        workers: 2,
        held: MEETING,
        each: 0x0101,
        wanted: Ok(&[0, 1]),
    },
    Row {
        name: "job 0 lacks memory once job 2 was refused by name",
        labour: FIRST_FOR_MEMORY,
        jobs: 4,
        workers: 2,
        held: Held {
            jobs: 0x01,
            come: 0,
            left: 0x01_0000,
        },
        each: 0x0101_0101,
        wanted: Err(RunFault::Job {
            job: 0,
            fault: MEMORY,
        }),
    },
    Row {
        name: "job 2 is refused by name once job 5 lacked memory",
        labour: THIRD_BY_NAME,
        jobs: 6,
        workers: 2,
        held: Held {
            jobs: 0x01_0000,
            come: 0,
            left: 0x0100_0000_0000,
        },
        each: 0x0101_0101_0101,
        wanted: Err(RunFault::Job {
            job: 2,
            fault: NAMED,
        }),
    },
];

/// Whether an answer is the wanted one.
fn is_answer(
    answer: Result<Vec<u64>, RunFault>,
    wanted: &Result<&'static [u64], RunFault>,
) -> bool {
    match (answer, wanted) {
        (Ok(results), Ok(numbers)) => results.as_slice() == *numbers,
        (Err(found), Err(fault)) => found == *fault,
        _ => false,
    }
}

/// Whether workers answer so, and each job comes and ends this often.
fn is_done<R: Threads + Sync>(rt: &R, alloc: Global, row: &Row) -> bool {
    let gate = Watch::new(row.held);
    let jobs = u64::from(row.jobs);
    let answer = run(rt, alloc, &row.labour, jobs, row.workers, &gate);
    is_answer(answer, &row.wanted) && gate.has_counted(row.each, row.each)
}

/// Whether two workers meet at work.
fn meet_at_work<R: Threads + Sync>(rt: &R, alloc: Global) -> bool {
    let labour = Watch::new(MEETING);
    let answer = run(rt, alloc, &labour, 2, 2, &Open);
    is_answer(answer, &Ok(&[0, 1])) && labour.has_counted(0x0101, 0)
}

#[test]
fn workers_do_all_jobs(rt: HostRuntime) {
    for row in ROWS {
        assert!(rt; is_done(&rt, rt.alloc(), row), "{}", row.name);
    }
    assert!(rt; meet_at_work(&rt, rt.alloc()));
}

//! Workers as one value.

ghost use Rattle.std.specs.Prelude.{◌≡◌, ◌≢◌, ◌⊎◌, ◌↔◌, ◌<◌, ◌≤◌, ℕ, Err, IfOk, IfErr};
ghost use Rattle.coding.specs.Answers.{fault};
ghost use Rattle.coding.specs.declared.fault.Fault.{Fault};
ghost use Rattle.coding.specs.declared.fault.FaultName.TheVariants.{Workers as NamedWorkers};
ghost use Rattle.board.specs.declared.pool.RunFault.{RunFault};
ghost use Rattle.board.specs.RunAnswer.{AreResults, IsRefused};
ghost use Rattle.board.specs.declared.limits.TheConstants.{MAX_JOBS, MAX_WORKERS};

use crate::board::Board;
use crate::labour::{Gate, Labour};
use crate::limits::MAX_WORKERS;
use crate::pool::{RunFault, run_board};
use coding::{Fault, FaultName};
use std::alloc::{AllocError, Global};
use std::marker::Model;
use std::thread::Threads;

/// 1 to 64 workers: what starts their threads, the memory that they take, and the gate that they
/// call around each job. Contracts see how many they are.
#[derive(Drop)]
pub struct Workers<'r, R, G> {
    rt: &'r R,
    alloc: Global,
    count: u64,
    gate: &'r G,
}

impl<'r, R, G> Model for Workers<'r, R, G> {
    ghost use Rattle.std.specs.Prelude.{◌≤◌, ℕ};

    ghost Value = { ℕ };

    ghost view = { λ w. w.count };

    ghost invariant = { λ w. (1 ≤ w.count) × (w.count ≤ 64) };
}

impl<'r, R, G> Workers<'r, R, G> {
    /// `count` workers. `Workers` exactly if that is outside 1 to 64. It takes no memory.
    pub fn new(rt: &'r R, alloc: Global, count: u64, gate: &'r G) -> Result<Self, Fault>
        ensures ok { IfOk result (λ workers. workers ≡ count) }
        ensures workers { (result ≡ Err (fault NamedWorkers))
            ↔ ((count ≡ 0) ⊎ (MAX_WORKERS < count)) }
        ensures err { IfErr result (λ e. e ≡ fault NamedWorkers) }
    {
        if count == 0 || count > MAX_WORKERS {
            return Err(Fault::of(FaultName::Workers));
        }
        Ok(Workers {
            rt,
            alloc,
            count,
            gate,
        })
    }

    /// As many workers with another gate.
    pub fn with_gate<'g, H>(&self, gate: &'g H) -> Workers<'g, R, H>
    where
        'r: 'g,
        ensures { result ≡ self.now }
    {
        Workers {
            rt: self.rt,
            alloc: self.alloc,
            count: self.count,
            gate,
        }
    }

    /// How many they are: 1 to 64.
    pub fn count(&self) -> u64
        ensures same { result ≡ self.now }
        ensures some { 1 ≤ result }
        ensures limited { result ≤ MAX_WORKERS }
    {
        self.count
    }

    // As many of them as there are jobs, and at least one.
    fn seats_for(&self, jobs: u64) -> u64
        ensures { 1 ≤ result }
    {
        self.count.min(jobs).max(1)
    }

    /// What gives them memory.
    pub fn alloc(&self) -> Global {
        self.alloc
    }

    /// What starts their threads.
    pub fn threads(&self) -> &'r R {
        self.rt
    }

    /// The gate that they call around each job.
    pub fn gate(&self) -> &'r G {
        self.gate
    }
}

impl<'r, R: Threads + Sync, G: Gate + Sync> Workers<'r, R, G> {
    /// Does the jobs below `jobs` of `labour`, as [`run`](crate::run) does, and answers their
    /// results in order. There are at most 2^40 jobs, and no more workers start than there are
    /// jobs. The faults are those of `run`, without `Workers`.
    pub fn run<L: Labour + Sync>(&self, labour: &L, jobs: u64) -> Result<Vec<L::Out>, RunFault>
    where
        L::Out: Drop + Send,
        requires few { jobs ≤ MAX_JOBS }
        requires within { jobs ≤ L.jobs labour.now }
        ensures ok { IfOk result
            (λ v. AreResults (L.refusal labour.now) (L.gives labour.now) jobs v.items) }
        ensures workers { result ≢ Err RunFault.Workers }
        ensures refused { (job : ℕ) (fault : Fault) → result ≡ Err (RunFault.Job job fault)
            → IsRefused (L.refusal labour.now) (L.gives labour.now) jobs job fault }
    {
        let Ok((board, seats)) = Board::new(self.alloc, jobs, self.seats_for(jobs)) else {
            return Err(RunFault::Memory);
        };
        match run_board(self, labour, board, jobs, seats) {
            Ok(Ok(results)) => Ok(results),
            Ok(Err((job, fault))) => Err(RunFault::Job { job, fault }),
            Err(AllocError) => Err(RunFault::Memory),
        }
    }
}

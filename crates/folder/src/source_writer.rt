//! Tables of a source, made files of a folder by several workers.

ghost use Rattle.std.specs.Prelude.{◌≡◌, ◌∷◌, ◌++◌, [], IfSome};
ghost use Rattle.std.specs.List.{AllZip};
ghost use Rattle.folder.specs.Calls.{TellsAfter, Written, step_of};
ghost use Rattle.folder.specs.Folder.{failures_after};
ghost use Rattle.folder.specs.TableFiles.{named_tables};

use crate::folder::FolderFault;
use crate::table_source::{SourceTables, TableSource};
use crate::writes_tables::{TableMaker, WritesTables};
use board::{Gate, Labour, MAX_JOBS, MAX_WORKERS, run};
use ikey::Fault;
use std::alloc::Global;
use std::thread::Threads;

/// The tables of a source, each a job.
#[derive(Drop)]
struct TablesToMake<'p, S, M> {
    alloc: Global,
    source: &'p S,
    maker: &'p M,
}

impl<'p, S: TableSource, M: TableMaker> Labour for TablesToMake<'p, S, M> {
    type Out = M::Made;

    ghost use Rattle.std.specs.Prelude.{length, None, slice_get, IfSome};

    ghost jobs = { λ s. length (S.tables s.source.now) };

    ghost refusal = { λ _ _. None };

    ghost gives = { λ s job made. IfSome (slice_get (S.tables s.source.now) job) (M.is_of made) };

    fn work(&self, job: u64) -> Result<M::Made, Fault> {
        let (number, bytes) = self.source.table(self.alloc, job as usize)?;
        self.maker.make(number, bytes)
    }
}

/// Makes each table of a `source` a file under the name of its number, and writes it through to the
/// device. It replaces files of these names.
///
/// Each is made by one of `workers`, 1 to 64; 0 is as 1, and more are as 64. It is made in the same
/// job as its bytes, and a folder of the system drops these then. So no more tables than workers
/// are in memory, which no contract says. If their numbers don't rise, there is one worker.
///
/// If that fails or a crash comes meanwhile, each of them may be there, in part or whole.
pub fn write_source<F: WritesTables, S: TableSource, G: Gate + Sync, R: Threads + Sync>(
    rt: &R,
    alloc: Global,
    folder: &mut F,
    source: &S,
    workers: u64,
    gate: &G,
) -> Result<(), FolderFault>
    ensures calls { F.calls folder.new ≡ F.calls folder.old
        ++ step_of (Written (named_tables (S.tables source.now))) result ∷ [] }
    ensures change { TellsAfter (step_of (Written (named_tables (S.tables source.now))) result)
        (F.tells folder.old) (F.tells folder.new) }
    ensures failures { F.failed folder.new ≡ failures_after (F.failed folder.old) result }
{
    let tables = SourceTables::of(source);
    let maker = folder.maker();
    let made = made_by(rt, alloc, source, &maker, workers, gate);
    folder.sync_tables(rt, &tables, made)
}

/// What came of each table of a `source`, made by 1 to 64 workers. None if memory ran out.
fn made_by<M: TableMaker, S: TableSource, G: Gate + Sync, R: Threads + Sync>(
    rt: &R,
    alloc: Global,
    source: &S,
    maker: &M,
    workers: u64,
    gate: &G,
) -> Option<Vec<M::Made>>
    ensures { IfSome result (λ made. AllZip M.is_of made.items (S.tables source.now)) }
{
    let jobs = source.len() as u64;
    if jobs > MAX_JOBS {
        return None;
    }
    let making = TablesToMake {
        alloc,
        source,
        maker,
    };
    let workers = if are_rising(source) { workers } else { 1 };
    run(
        rt,
        alloc,
        &making,
        jobs,
        workers.clamp(1, MAX_WORKERS),
        gate,
    )
    .ok()
}

/// Whether the numbers of the tables rise, so that no two are one.
fn are_rising<S: TableSource>(source: &S) -> bool {
    for place in 1..source.len() {
        if source.number(place - 1) >= source.number(place) {
            return false;
        }
    }
    true
}

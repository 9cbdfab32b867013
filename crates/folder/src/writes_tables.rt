//! Folders whose tables are made by several threads, each as soon as its bytes are known.

use crate::folder::{Folder, FolderFault};
use crate::table_source::SourceTables;
use ikey::Fault;
use std::thread::Threads;

/// What makes tables files of a folder, in any thread.
pub trait TableMaker: Send + Sync {
    ghost use Rattle.std.specs.Prelude.{◌≡◌, ℕ, List, IfOk, IfErr};
    ghost use Rattle.ikey.specs.Answers.{fault};
    ghost use Rattle.ikey.specs.fault.FaultName.TheVariants.{Memory};

    /// A table that was made, or that the device failed.
    type Made: Drop + Send;

    /// Whether this came of a table, given by its number and its bytes.
    ghost is_of: { Self.Made → ℕ × List ℕ → Type 0 };

    /// Makes a table a file under the name of its `number`. A failure of the device is kept in what
    /// is answered.
    fn make(&self, number: u64, bytes: Vec<u8>) -> Result<Self::Made, Fault>
        ensures ok { IfOk result (λ made. is_of made (number, bytes.items)) }
        ensures memory { IfErr result (λ e. e ≡ fault Memory) };
}

/// A folder whose tables are made by several threads.
pub trait WritesTables: Folder {
    ghost use Rattle.std.specs.Prelude.{◌≡◌, ◌∷◌, ◌++◌, [], IfSome};
    ghost use Rattle.std.specs.Thread.{IsSync};
    ghost use Rattle.folder.specs.Calls.{TellsAfter, Written, step_of};
    ghost use Rattle.folder.specs.Folder.{TellsSame, failures_after};
    ghost use Rattle.std.specs.List.{AllZip};
    ghost use Rattle.folder.specs.TableFiles.{named_tables};

    /// What makes its tables.
    type Maker: TableMaker + Drop;

    /// What makes its tables, until [`WritesTables::sync_tables`] is called.
    fn maker(&mut self) -> Self::Maker
        ensures same { TellsSame (Self.tells self.old) (Self.tells self.new) }
        ensures calls { Self.calls self.new ≡ Self.calls self.old }
        ensures failures { Self.failed self.new ≡ Self.failed self.old };

    /// Writes tables that were made through to the device, by threads of `rt`. `made` is what came
    /// of each, in order; None if memory ran out before all were made.
    ///
    /// If that fails or a crash comes meanwhile, each of them may be there, in part or whole.
    fn sync_tables<T: Threads + Sync>(
        &mut self,
        rt: &T,
        tables: &SourceTables,
        made: Option<Vec<<Self::Maker as TableMaker>::Made>>,
    ) -> Result<(), FolderFault>
        // The bound `T: Sync`, which proofs of a trait's call know by a clause alone.
        requires threads { IsSync T.row }
        requires made { IfSome made
            (λ made. AllZip Self.Maker.is_of made.items tables.now.tables) }
        ensures calls { Self.calls self.new ≡ Self.calls self.old
            ++ step_of (Written (named_tables tables.now.tables)) result ∷ [] }
        ensures change { TellsAfter (step_of (Written (named_tables tables.now.tables)) result)
            (Self.tells self.old) (Self.tells self.new) }
        ensures failures { Self.failed self.new ≡ failures_after (Self.failed self.old) result };
}

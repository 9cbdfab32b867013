//! A folder as the calls on a database see it: files by name, each read and made as a whole.

ghost use Rattle.std.specs.Prelude.{◌≡◌};
ghost use Rattle.ikey.specs.Answers.{fault};
ghost use Rattle.folder.specs.Folder.{fault_name};
ghost use Rattle.folder.specs.declared.folder.FolderFault.TheVariants.{Memory};

use ikey::{Fault, FaultName};
use std::alloc::{AllocError, AllocFailed};
use std::thread::Threads;
use thiserror::Error;

/// Why a call of a folder failed.
#[derive(Clone, Copy, Debug, PartialEq, Eq, Error)]
pub enum FolderFault {
    /// The device failed.
    #[error("Device")]
    Device,
    /// A growth of memory was refused.
    #[error("Memory")]
    Memory,
}

impl From<FolderFault> for Fault {
    ghost from_gives = { λ folder_fault e. e ≡ fault (fault_name folder_fault) };

    fn from(folder_fault: FolderFault) -> Fault {
        match folder_fault {
            FolderFault::Device => Fault::of(FaultName::Device),
            FolderFault::Memory => Fault::of(FaultName::Memory),
        }
    }
}

impl From<AllocError> for FolderFault {
    ghost from_gives = { λ _ e. e ≡ Memory };

    fn from(_e: AllocError) -> FolderFault {
        FolderFault::Memory
    }
}

impl<T: Drop> From<AllocFailed<T>> for FolderFault {
    ghost from_gives = { λ _ e. e ≡ Memory };

    fn from(_e: AllocFailed<T>) -> FolderFault {
        FolderFault::Memory
    }
}

/// A folder of files by their names.
///
/// A call that fails may be done all the same, wholly or in part.
pub trait Folder {
    ghost use Rattle.std.specs.Prelude.{◌≡◌, ◌∷◌, ◌++◌, [], ℕ, List, Option, IfOk};
    ghost use Rattle.std.specs.Option.{option_map};
    ghost use Rattle.std.specs.Thread.{IsSync};
    ghost use Rattle.folder.specs.Calls.{Step, step_of, Created, Synced, Renamed, Removed};
    ghost use Rattle.folder.specs.Calls.{FolderSynced, TellsAfter, Written};
    ghost use Rattle.folder.specs.Readings.{Reading, readings_after};
    ghost use Rattle.folder.specs.TableFiles.{table_files};
    ghost use Rattle.folder.specs.Folder.{TellsPart, TellsSame, failures_after};

    /// What the folder tells: whether a read of a name may give these bytes, or None. A folder that
    /// tells nothing allows every answer.
    ghost tells: { Self → List ℕ → Option (List ℕ) → Type 0 };

    /// The calls that write, in their order, those that failed too.
    ghost calls: { Self → List Step };

    /// How often the device has failed, up to 2^64 - 1. Each answer `Device` adds one, and no other
    /// answer does.
    ghost failed: { Self → ℕ };

    /// The files that [`read`](Folder::read) was asked for, in order, each with the `calls` before
    /// it and what it answered, be it true or not. A call that failed is not among them.
    ghost readings: { Self → List Reading };

    /// The bytes of a file. None if no file has this name.
    fn read(&mut self, name: &str) -> Result<Option<Vec<u8>>, FolderFault>
        ensures held { IfOk result
            (λ held. tells self.old name.now (option_map (λ bytes. bytes.items) held)) }
        ensures same { TellsSame (tells self.old) (tells self.new) }
        ensures calls { calls self.new ≡ calls self.old }
        ensures readings { readings self.new
            ≡ readings_after (readings self.old) (calls self.old) name.now result }
        ensures failures { failed self.new ≡ failures_after (failed self.old) result };

    /// The `len` bytes of a file from `offset` on, or as many as it has there. None if no file has
    /// this name.
    fn read_part(
        &mut self,
        name: &str,
        offset: u64,
        len: usize,
    ) -> Result<Option<Vec<u8>>, FolderFault>
        ensures held { IfOk result (λ part. TellsPart (tells self.old) name.now offset len
            (option_map (λ bytes. bytes.items) part)) }
        ensures same { TellsSame (tells self.old) (tells self.new) }
        ensures calls { calls self.new ≡ calls self.old }
        ensures readings { readings self.new ≡ readings self.old }
        ensures failures { failed self.new ≡ failures_after (failed self.old) result };

    /// Makes a file of these bytes. It replaces a file of that name.
    fn create(&mut self, name: &str, bytes: &[u8]) -> Result<(), FolderFault>
        ensures calls { calls self.new ≡ calls self.old
            ++ step_of (Created name.now bytes.now) result ∷ [] }
        ensures change { TellsAfter (step_of (Created name.now bytes.now) result) (tells self.old)
            (tells self.new) }
        ensures readings { readings self.new ≡ readings self.old }
        ensures failures { failed self.new ≡ failures_after (failed self.old) result };

    /// Makes each of these tables a file under the name of its number, and writes it through to the
    /// device. It replaces files of these names.
    ///
    /// They may be made in any order, by threads of `rt`. If that fails or a crash comes meanwhile,
    /// each of them may be there, in part or whole.
    fn write_tables<T: Threads + Sync>(
        &mut self,
        rt: &T,
        tables: &[(u64, Vec<u8>)],
    ) -> Result<(), FolderFault>
        // The bound `T: Sync`, which proofs of a trait's call know by a clause alone.
        requires { IsSync T.row }
        ensures calls { calls self.new ≡ calls self.old
            ++ step_of (Written (table_files tables.now)) result ∷ [] }
        ensures change { TellsAfter (step_of (Written (table_files tables.now)) result)
            (tells self.old) (tells self.new) }
        ensures readings { readings self.new ≡ readings self.old }
        ensures failures { failed self.new ≡ failures_after (failed self.old) result };

    /// Writes a file's bytes through to the device. If no file has this name, nothing is written,
    /// and that is no failure.
    fn sync(&mut self, name: &str) -> Result<(), FolderFault>
        ensures calls { calls self.new ≡ calls self.old ++ step_of (Synced name.now) result ∷ [] }
        ensures change { TellsAfter (step_of (Synced name.now) result) (tells self.old)
            (tells self.new) }
        ensures readings { readings self.new ≡ readings self.old }
        ensures failures { failed self.new ≡ failures_after (failed self.old) result };

    /// Renames a file. It replaces a file that has the name `to`.
    fn rename(&mut self, from: &str, to: &str) -> Result<(), FolderFault>
        ensures calls { calls self.new ≡ calls self.old
            ++ step_of (Renamed from.now to.now) result ∷ [] }
        ensures change { TellsAfter (step_of (Renamed from.now to.now) result) (tells self.old)
            (tells self.new) }
        ensures readings { readings self.new ≡ readings self.old }
        ensures failures { failed self.new ≡ failures_after (failed self.old) result };

    /// Removes a file. If no file has this name, nothing is removed, and that is no failure.
    fn remove(&mut self, name: &str) -> Result<(), FolderFault>
        ensures calls { calls self.new ≡ calls self.old ++ step_of (Removed name.now) result ∷ [] }
        ensures change { TellsAfter (step_of (Removed name.now) result) (tells self.old)
            (tells self.new) }
        ensures readings { readings self.new ≡ readings self.old }
        ensures failures { failed self.new ≡ failures_after (failed self.old) result };

    /// Writes the folder's names through to the device.
    fn sync_folder(&mut self) -> Result<(), FolderFault>
        ensures calls { calls self.new ≡ calls self.old ++ step_of FolderSynced result ∷ [] }
        ensures change { TellsAfter (step_of FolderSynced result) (tells self.old)
            (tells self.new) }
        ensures readings { readings self.new ≡ readings self.old }
        ensures failures { failed self.new ≡ failures_after (failed self.old) result };

    /// How often the device has failed. The count stays at 2^64 - 1.
    fn failures(&self) -> u64
        ensures { result ≡ failed self.now };
}

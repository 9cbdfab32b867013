//! What the calls on a folder of the system came to.

ghost use Rattle.std.specs.Prelude.{◌≡◌, [], ◌∷◌, ◌++◌, IfOk, Ok};
ghost use Rattle.folder.specs.Attempts.{any_call_in};
ghost use Rattle.folder.specs.Calls.{step_of};
ghost use Rattle.folder.specs.Folder.{failures_after};
ghost use Rattle.folder.specs.Readings.{readings_after};

use crate::failure::Failure;
use crate::made_table::{MadeTable, first_failed};
use folder::{AnyWrite, Attempt, FileRead, FolderCall, FolderFault, Readings, Trail};
use std::alloc::Global;
use std::io;
use std::io::ErrorKind;
use std::marker::Model;

/// The calls on a folder so far, and those that failed. Contracts see all but what was last.
#[derive(Drop)]
pub(crate) struct CallRecord {
    alloc: Global,
    /// How often the device has failed, up to 2^64 - 1.
    pub failures: u64,
    trail: Trail,
    readings: Readings,
    /// The newest call that failed by the device.
    pub last_failure: Option<Failure>,
    /// The name of the file that was read last, or of the table that was found missing since. Empty
    /// if there is none, or no memory for it.
    pub last_read: String,
}

impl Model for CallRecord {
    ghost use Rattle.disk.specs.CallHistory.{CallHistory};

    ghost Value = { CallHistory };

    ghost view = { λ r. record {
      trail = r.trail.steps;
      readings = r.readings.files;
      failures = r.failures;
    } };
}

impl CallRecord {
    /// No call yet.
    pub fn new(alloc: Global) -> CallRecord
        ensures { result ≡ record { trail = []; readings = []; failures = 0 } }
    {
        CallRecord {
            alloc,
            failures: 0,
            trail: Trail::new(),
            readings: Readings::none(),
            last_failure: None,
            last_read: String::new(alloc),
        }
    }

    /// What a call of the system answered, on the file of this `name`. A failure other than out of
    /// memory is `Device`, is counted, and is the last one from then on.
    pub fn counted<T>(
        &mut self,
        answer: io::Result<T>,
        call: FolderCall,
        name: &str,
    ) -> Result<T, FolderFault>
        ensures value { IfOk result (λ value. answer ≡ Ok value) }
        ensures failures { self.new.failures ≡ failures_after self.old.failures result }
        ensures trail { self.new.trail ≡ self.old.trail }
        ensures readings { self.new.readings ≡ self.old.readings }
    {
        match answer {
            Ok(value) => Ok(value),
            Err(error) if error.kind() == ErrorKind::OutOfMemory => Err(FolderFault::Memory),
            Err(error) => {
                self.failures = self.failures.saturating_add(1);
                self.last_failure = Some(Failure::new(self.alloc, call, name, error));
                Err(FolderFault::Device)
            }
        }
    }

    /// What the calls on these files answered together: what the first one did that the device
    /// failed, or else the first that failed.
    pub fn counted_all(&mut self, files: &[MadeTable]) -> Result<(), FolderFault>
        ensures failures { self.new.failures ≡ failures_after self.old.failures result }
        ensures trail { self.new.trail ≡ self.old.trail }
        ensures readings { self.new.readings ≡ self.old.readings }
    {
        match first_failed(files) {
            Some(place) => {
                let file = &files[place];
                self.counted(file.answer, file.call, file.name.as_str())
            }
            None => Ok(()),
        }
    }

    /// Adds what was answered of a whole file.
    pub fn has_read(&mut self, name: &str, answer: &Result<Option<Vec<u8>>, FolderFault>)
        ensures readings { self.new.readings
            ≡ readings_after self.old.readings self.old.trail name.now answer.now }
        ensures failures { self.new.failures ≡ self.old.failures }
        ensures trail { self.new.trail ≡ self.old.trail }
    {
        self.readings = self.readings.then(&FileRead {
            trail: &self.trail,
            name,
            answer,
        });
    }

    /// Adds a call that writes and hands on what it answered.
    pub fn wrote(
        &mut self,
        call: AnyWrite<'_>,
        answer: Result<(), FolderFault>,
    ) -> Result<(), FolderFault>
        ensures answer { result ≡ answer }
        ensures trail { self.new.trail
            ≡ self.old.trail ++ step_of (any_call_in call.entry) answer ∷ [] }
        ensures failures { self.new.failures ≡ self.old.failures }
        ensures readings { self.new.readings ≡ self.old.readings }
    {
        let is_done = answer.is_ok();
        self.trail = self.trail.then(&Attempt { call, is_done });
        answer
    }
}

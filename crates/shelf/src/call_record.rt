//! The calls on a folder in memory.

ghost use Rattle.std.specs.Prelude.{◌≡◌, ℕ, List, [], ◌∷◌, ◌++◌, map, Err, IfOk, IfSome};
ghost use Rattle.folder.specs.Attempts.{any_call_in, call_in};
ghost use Rattle.folder.specs.Calls.{Files, Written, step_of};
ghost use Rattle.folder.specs.Folder.{failures_after};
ghost use Rattle.folder.specs.Names.{table_name};
ghost use Rattle.folder.specs.Readings.{readings_after};
ghost use Rattle.folder.specs.TableFiles.{named_tables, table_files};
ghost use Rattle.shelf.specs.Alters.{Alters, tried_if};
ghost use Rattle.shelf.specs.Shelf.{files_after_steps, made_by};

use crate::shelf_step::{ShelfCall, ShelfStep};
use folder::{AnyWrite, Attempt, FileRead, FolderFault, Readings, Trail, WriteCall, table_name};
use std::alloc::{AllocError, Global};
use std::marker::Model;

/// A call that is to fail.
#[derive(Clone, Copy, Drop)]
pub struct Failing {
    /// Its number among all calls, from 1.
    pub call: u64,
    /// How it fails.
    pub fault: FolderFault,
    /// Whether the call acts all the same: it makes a file of the first half of its bytes, or
    /// renames or removes the file.
    pub is_half_done: bool,
}

/// The calls on a folder in memory so far. One of them may fail.
#[derive(Drop)]
pub(crate) struct CallRecord {
    pub alloc: Global,
    /// Those that write, the newest first. One that ran out of memory is left out.
    pub steps: Vec<ShelfStep>,
    pub failing: Option<Failing>,
    /// How many were made, up to 2^64 - 1.
    pub calls: u64,
    pub failures: u64,
    pub trail: Trail,
    pub readings: Readings,
}

impl Model for CallRecord {
    ghost use Rattle.shelf.specs.Shelf.{ShelfCalls};

    ghost Value = { ShelfCalls };

    ghost view = { λ r. record {
      steps = r.steps.items;
      trail = r.trail.steps;
      readings = r.readings.files;
      calls = r.calls;
      failures = r.failures;
    } };
}

impl CallRecord {
    /// Counts a call that reads. It fails if it is the failing one.
    pub fn read(&mut self) -> Result<(), FolderFault>
        ensures steps { self.new.steps ≡ self.old.steps }
        ensures failures { self.new.failures ≡ failures_after self.old.failures result }
        ensures trail { self.new.trail ≡ self.old.trail }
        ensures readings { self.new.readings ≡ self.old.readings }
    {
        match self.called() {
            Some(failing) => self.fail(failing.fault),
            None => Ok(()),
        }
    }

    /// Adds what was answered of a whole file.
    pub fn has_read(&mut self, name: &str, answer: &Result<Option<Vec<u8>>, FolderFault>)
        ensures readings { self.new.readings
            ≡ readings_after self.old.readings self.old.trail name.now answer.now }
        ensures steps { self.new.steps ≡ self.old.steps }
        ensures failures { self.new.failures ≡ self.old.failures }
        ensures trail { self.new.trail ≡ self.old.trail }
    {
        self.readings = self.readings.then(&FileRead {
            trail: &self.trail,
            name,
            answer,
        });
    }

    /// Makes a call that writes, and adds it to the trail.
    pub fn write(&mut self, call: WriteCall<'_>) -> Result<(), FolderFault>
        ensures calls { self.new.trail ≡ self.old.trail
            ++ step_of (call_in call.entry) result ∷ [] }
        ensures change { (files : Files) →
            Alters (step_of (call_in call.entry) result) (files_after_steps self.old.steps files)
            (files_after_steps self.new.steps files) }
        ensures failures { self.new.failures ≡ failures_after self.old.failures result }
        ensures readings { self.new.readings ≡ self.old.readings }
    {
        let answer = self.record(call);
        self.wrote(AnyWrite::One(call), answer)
    }

    /// Adds a call that writes to the trail, and hands on what it answered.
    pub fn wrote(
        &mut self,
        call: AnyWrite<'_>,
        answer: Result<(), FolderFault>,
    ) -> Result<(), FolderFault>
        ensures answer { result ≡ answer }
        ensures calls { self.new.trail
            ≡ self.old.trail ++ step_of (any_call_in call.entry) answer ∷ [] }
        ensures steps { self.new.steps ≡ self.old.steps }
        ensures failures { self.new.failures ≡ self.old.failures }
        ensures readings { self.new.readings ≡ self.old.readings }
    {
        let is_done = answer.is_ok();
        self.trail = self.trail.then(&Attempt { call, is_done });
        answer
    }

    /// Makes and syncs the tables of a source, one after the other. None if memory ran out before
    /// all were made.
    pub fn record_made(&mut self, made: Option<Vec<(u64, Vec<u8>)>>) -> Result<(), FolderFault>
        ensures change { (tables : List (ℕ × List ℕ)) →
            IfSome made (λ made. map (λ t. (t.0, t.1.items)) made.items ≡ tables) →
            (files : Files) → Alters (step_of (Written (named_tables tables)) result)
            (files_after_steps self.old.steps files) (files_after_steps self.new.steps files) }
        ensures failures { self.new.failures ≡ failures_after self.old.failures result }
        ensures trail { self.new.trail ≡ self.old.trail }
        ensures readings { self.new.readings ≡ self.old.readings }
    {
        match made {
            Some(tables) => self.record_tables(&tables),
            None => Err(FolderFault::Memory),
        }
    }

    /// Makes and syncs tables, one after the other, up to a call that fails.
    pub fn record_tables(&mut self, tables: &[(u64, Vec<u8>)]) -> Result<(), FolderFault>
        ensures change { (files : Files) →
            Alters (step_of (Written (table_files tables.now)) result)
            (files_after_steps self.old.steps files) (files_after_steps self.new.steps files) }
        ensures failures { self.new.failures ≡ failures_after self.old.failures result }
        ensures trail { self.new.trail ≡ self.old.trail }
        ensures readings { self.new.readings ≡ self.old.readings }
    {
        for table in tables {
            let (number, bytes) = table;
            self.record_table(*number, bytes)?;
        }
        Ok(())
    }

    /// Makes and syncs the table of a `number`.
    fn record_table(&mut self, number: u64, bytes: &[u8]) -> Result<(), FolderFault>
        ensures change { (files : Files) →
            Alters (step_of (Written ((table_name number, bytes.now) ∷ [])) result)
            (files_after_steps self.old.steps files) (files_after_steps self.new.steps files) }
        ensures failures { self.new.failures ≡ failures_after self.old.failures result }
        ensures trail { self.new.trail ≡ self.old.trail }
        ensures readings { self.new.readings ≡ self.old.readings }
    {
        match table_name(self.alloc, number) {
            Ok(name) => self.record_file(name.as_str(), bytes),
            Err(_) => Err(FolderFault::Memory),
        }
    }

    /// Makes and syncs the file of this `name`.
    fn record_file(&mut self, name: &str, bytes: &[u8]) -> Result<(), FolderFault>
        ensures change { (files : Files) →
            Alters (step_of (Written ((name.now, bytes.now) ∷ [])) result)
            (files_after_steps self.old.steps files) (files_after_steps self.new.steps files) }
        ensures failures { self.new.failures ≡ failures_after self.old.failures result }
        ensures trail { self.new.trail ≡ self.old.trail }
        ensures readings { self.new.readings ≡ self.old.readings }
    {
        self.record(WriteCall::Create(name, bytes))?;
        self.record(WriteCall::Sync(name))
    }

    /// Adds a call that writes to the record. It fails if it is the failing one.
    fn record(&mut self, call: WriteCall<'_>) -> Result<(), FolderFault>
        ensures change { (files : Files) →
            Alters (step_of (call_in call.entry) result) (files_after_steps self.old.steps files)
            (files_after_steps self.new.steps files) }
        ensures failures { self.new.failures ≡ failures_after self.old.failures result }
        ensures trail { self.new.trail ≡ self.old.trail }
        ensures readings { self.new.readings ≡ self.old.readings }
    {
        let failing = self.called();
        let step = ShelfStep {
            call: copied(self.alloc, call, failing.is_some())?,
            is_done: failing.is_none(),
            is_shown: failing.is_none_or(|failing| failing.is_half_done),
        };
        self.steps.insert(0, step)?;
        match failing {
            Some(failing) => self.fail(failing.fault),
            None => Ok(()),
        }
    }

    /// Counts a call. Answers how it fails, if it is the one that fails.
    fn called(&mut self) -> Option<Failing>
        ensures steps { self.new.steps ≡ self.old.steps }
        ensures failures { self.new.failures ≡ self.old.failures }
        ensures trail { self.new.trail ≡ self.old.trail }
        ensures readings { self.new.readings ≡ self.old.readings }
    {
        self.calls = self.calls.saturating_add(1);
        match self.failing {
            Some(failing) if failing.call == self.calls => Some(failing),
            _ => None,
        }
    }

    /// Fails, and counts a failure of the device.
    fn fail(&mut self, fault: FolderFault) -> Result<(), FolderFault>
        ensures answer { result ≡ Err fault }
        ensures steps { self.new.steps ≡ self.old.steps }
        ensures failures { self.new.failures ≡ failures_after self.old.failures result }
        ensures trail { self.new.trail ≡ self.old.trail }
        ensures readings { self.new.readings ≡ self.old.readings }
    {
        if fault == FolderFault::Device {
            self.failures = self.failures.saturating_add(1);
        }
        Err(fault)
    }
}

/// A copy of a call. If it is half done, the file has the first half of its bytes.
fn copied(alloc: Global, call: WriteCall<'_>, is_half: bool) -> Result<ShelfCall, AllocError>
    ensures { IfOk result (λ copy. (files : Files) →
        Alters (tried_if is_half (call_in call.entry)) files (made_by copy files)) }
{
    Ok(match call {
        WriteCall::Create(name, bytes) => {
            let len = if is_half {
                bytes.len() / 2
            } else {
                bytes.len()
            };
            ShelfCall::Create(
                String::from_str(alloc, name)?,
                Vec::from_slice(alloc, &bytes[..len])?,
            )
        }
        WriteCall::Sync(name) => ShelfCall::Sync(String::from_str(alloc, name)?),
        WriteCall::Rename(from, to) => ShelfCall::Rename(
            String::from_str(alloc, from)?,
            String::from_str(alloc, to)?,
        ),
        WriteCall::Remove(name) => ShelfCall::Remove(String::from_str(alloc, name)?),
        WriteCall::SyncFolder => ShelfCall::SyncFolder,
    })
}

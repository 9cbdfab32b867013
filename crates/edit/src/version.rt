//! Versions, and how edits change them.

ghost use Rattle.std.specs.Prelude.{◌≡◌, ◌<◌, ◌≤◌, ◌^◌, length, map, Ok, IfOk, IfErr};
ghost use Rattle.coding.specs.declared.fault.FaultName.TheVariants.{Apply, Memory};
ghost use Rattle.std.specs.Option.{option_copied, ok_or};
ghost use Rattle.coding.specs.Answers.{EqualOrMemory, fault};
ghost use Rattle.edit.specs.Edit.{HasValidLevels, HasShortName};
ghost use Rattle.edit.specs.Version.{IsState, empty_state, pointer_of, applied, applied_by};
ghost use Rattle.edit.specs.VersionOrder.{level_files, snapshot_of};
ghost use Rattle.edit.specs.declared.meta.TheConstants.{LAST_LEVEL};

use crate::copies::copied_by_level;
use crate::edit_effect::{files_after, pointers_after};
use crate::files::Files;
use crate::meta::FileMeta;
use crate::snapshot::{all_added, all_pointers};
use crate::version_edit::VersionEdit;
use crate::version_order::ordered_at;
use coding::{Fault, FaultName};
use ikey::{Comparator, KeyBuf};
use std::alloc::Global;
use std::collections::BTreeMap;
use std::marker::Model;

/// The files of a database, each at a level from 0 to 6, its counters, and a compact pointer for
/// each level at which one was set.
///
/// No two files have one number. Contracts see the files in the order of their numbers.
#[derive(Drop)]
pub struct Version {
    log_number: Option<u64>,
    previous_log: Option<u64>,
    next_file: Option<u64>,
    last_sequence: Option<u64>,
    pointers: BTreeMap<u64, KeyBuf>,
    files: Files,
}

impl Model for Version {
    ghost use Rattle.edit.specs.Version.{State, IsState};

    ghost Value = { State };

    ghost view = { λ v. record {
      log_number = v.log_number;
      previous_log = v.previous_log;
      next_file = v.next_file;
      last_sequence = v.last_sequence;
      pointers = v.pointers.entries;
      files = v.files;
    } };

    ghost invariant = { λ v. IsState v.pointers.entries v.files };
}

impl Version {
    ghost use Rattle.edit.specs.Edit.{edit_in};

    /// The version without files, numbers or pointers.
    pub fn empty(alloc: Global) -> Version
        ensures { result ≡ empty_state }
    {
        Version {
            log_number: None,
            previous_log: None,
            next_file: None,
            last_sequence: None,
            pointers: BTreeMap::new(alloc),
            files: Files::new(alloc),
        }
    }

    /// The number of the write-ahead log in use; None if no edit has set it.
    pub fn log_number(&self) -> Option<u64>
        ensures { result ≡ self.now.log_number }
    {
        self.log_number
    }

    /// The number of the previous write-ahead log; None if no edit has set it, which counts as 0.
    pub fn previous_log(&self) -> Option<u64>
        ensures { result ≡ self.now.previous_log }
    {
        self.previous_log
    }

    /// The least number that no file has yet; None if no edit has set it.
    pub fn next_file(&self) -> Option<u64>
        ensures { result ≡ self.now.next_file }
    {
        self.next_file
    }

    /// The greatest sequence in use; None if no edit has set it.
    pub fn last_sequence(&self) -> Option<u64>
        ensures { result ≡ self.now.last_sequence }
    {
        self.last_sequence
    }

    /// The compact pointer of `level`, 0 to 6; None if none was set.
    pub fn pointer(&self, level: u64) -> Option<&KeyBuf>
        requires { level ≤ LAST_LEVEL }
        ensures { option_copied result ≡ pointer_of self.now level }
    {
        self.pointers.get(&level)
    }

    /// The version after `edit`; this one stays as it is. The edit's levels are from 0 to 6.
    ///
    /// Files are deleted first. Then new files are put in, and then numbers and pointers that the
    /// edit sets are replaced.
    ///
    /// Faults:
    ///
    /// 1. Comparator: the edit names another comparator than `C`.
    /// 2. Apply: the edit doesn't fit. It deletes a file that isn't at that level, or two new files
    ///    have one number, or a new file has the number of one that stays.
    /// 3. Memory otherwise.
    pub fn apply<C: Comparator>(&self, alloc: Global, edit: &VersionEdit) -> Result<Version, Fault>
        requires { HasValidLevels (edit_in edit.now) }
        ensures after { EqualOrMemory (λ v. v) result
            (applied_by C.name_bytes self.now (edit_in edit.now)) }
    {
        if edit.names_another::<C>() {
            return Err(Fault::of(FaultName::Comparator));
        }
        self.copy(alloc)?.changed(edit.copy(alloc)?)
    }

    /// The version after `edit`, as `apply` makes it. It copies nothing: this version and the edit
    /// are used up, also if it is refused.
    ///
    /// It takes the time of the edit: each of its fields takes a time that grows with the logarithm
    /// of the number of files. No contract says so.
    pub fn applied<C: Comparator>(self, edit: VersionEdit) -> Result<Version, Fault>
        requires { HasValidLevels (edit_in edit) }
        ensures after { EqualOrMemory (λ v. v) result
            (applied_by C.name_bytes self (edit_in edit)) }
    {
        if edit.names_another::<C>() {
            return Err(Fault::of(FaultName::Comparator));
        }
        self.changed(edit)
    }

    /// The files of `level`, 0 to 6, in version order: by smallest internal key, then number.
    pub fn files<C: Comparator>(&self, alloc: Global, level: u64) -> Result<Vec<&FileMeta>, Fault>
        requires { level ≤ LAST_LEVEL }
        ensures ordered { EqualOrMemory (λ files. map (λ file. file.now) files.items) result
            (Ok (level_files C.cmp self.now level)) }
        // Files rise by number, pointers by level, and levels are from 0 to 6.
        ensures state { IsState self.now.pointers self.now.files }
    {
        ordered_at::<C>(alloc, &self.files, level)
    }

    /// The edit that makes this version of an empty one, but without its numbers. It has the
    /// comparator's name, the compact pointers by level, and all files as new files, by level and
    /// in version order.
    pub fn snapshot_edit<C: Comparator>(&self, alloc: Global) -> Result<VersionEdit, Fault>
        ensures edit { IfOk result (λ e. edit_in e ≡ snapshot_of C.name_bytes C.cmp self.now) }
        ensures memory { IfErr result (λ e. e ≡ fault Memory) }
        // It can be applied. It can be written if the comparator's name is short enough.
        ensures levels { IfOk result (λ e. HasValidLevels (edit_in e)) }
        ensures name { length C.name_bytes < 2 ^ 32 → IfOk result (λ e. HasShortName (edit_in e)) }
        // Files rise by number, pointers by level, and levels are from 0 to 6.
        ensures state { IsState self.now.pointers self.now.files }
    {
        let mut edit = VersionEdit::empty(alloc);
        edit.pointers = all_pointers(alloc, &self.pointers)?;
        edit.added = all_added::<C>(alloc, &self.files)?;
        edit.comparator = Some(String::from_str(alloc, C::name())?);
        Ok(edit)
    }

    /// The version after an edit that names no other comparator. Apply if the edit doesn't fit.
    fn changed(self, edit: VersionEdit) -> Result<Version, Fault>
        requires { HasValidLevels (edit_in edit) }
        ensures after { EqualOrMemory (λ v. v) result
            (ok_or (applied self (edit_in edit)) (fault Apply)) }
    {
        let files = files_after(self.files, edit.deleted, edit.added)?;
        let pointers = pointers_after(self.pointers, edit.pointers)?;
        Ok(Version {
            log_number: edit.log_number.or(self.log_number),
            previous_log: edit.previous_log.or(self.previous_log),
            next_file: edit.next_file.or(self.next_file),
            last_sequence: edit.last_sequence.or(self.last_sequence),
            pointers,
            files,
        })
    }

    /// A copy of the version.
    fn copy(&self, alloc: Global) -> Result<Version, Fault>
        ensures same { IfOk result (λ v. v ≡ self.now) }
        ensures memory { IfErr result (λ e. e ≡ fault Memory) }
    {
        Ok(Version {
            log_number: self.log_number,
            previous_log: self.previous_log,
            next_file: self.next_file,
            last_sequence: self.last_sequence,
            pointers: copied_by_level(alloc, &self.pointers)?,
            files: self.files.copy(alloc)?,
        })
    }
}

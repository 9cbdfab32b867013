//! The edit of a request's outputs.

ghost use Rattle.std.specs.Prelude.{◌≡◌, ◌+◌, ◌<◌, ◌≤◌, ◌^◌, true, length, IfOk, Ok};
ghost use Rattle.std.specs.List.{All};
ghost use Rattle.ikey.specs.Answers.{EqualOrMemory};
ghost use Rattle.edit.specs.Edit.{HasValidLevels, HasShortName, edit_in};
ghost use Rattle.edit.specs.declared.meta.NewFile.{NewFile};
ghost use Rattle.edit.specs.declared.meta.TheConstants.{LAST_LEVEL};
ghost use Rattle.pick.specs.PickedInputs.{picked_in};
ghost use Rattle.compact.specs.Request.{has_levels, request_in};
ghost use Rattle.compact.specs.EditOf.{deletions_of, edit_of};

use crate::request::Request;
use edit::{CompactPointer, DeletedFile, NewFile, VersionEdit};
use ikey::{Fault, KeyBuf};
use pick::{InputFile, Inputs};
use std::alloc::Global;
use std::collections::BTreeSet;

impl<'a> Request<'a> {
    /// The version edit of the compaction, if `outputs` are its outputs in order. It has
    ///
    /// - the request's log number, previous log number and last sequence;
    /// - as next file the number after the last output's;
    /// - the compact pointer of the level;
    /// - the deletion of each input by level and number, each once;
    /// - `outputs` as new files.
    ///
    /// It names no comparator. Requires that the number after the last output's is below 2^64.
    ///
    /// If the request passes its test of levels and the outputs are at levels up to 6, so is all
    /// that the edit names. So the edit of a request that passes its tests can be encoded and
    /// applied.
    pub fn edit(&self, alloc: Global, outputs: Vec<NewFile>) -> Result<VersionEdit, Fault>
        requires { self.now.first_number + length outputs.items < 2 ^ 64 }
        ensures edit { EqualOrMemory edit_in result
            (Ok (edit_of (request_in self.now) outputs.items)) }
        ensures levels { has_levels (picked_in self.now.picked.now) ≡ true →
            All (λ (f : NewFile). f.level ≤ LAST_LEVEL) outputs.items →
            IfOk result (λ e. HasValidLevels (edit_in e)) }
        ensures name { IfOk result (λ e. HasShortName (edit_in e)) }
    {
        let deleted = deletions_of(alloc, &self.picked.files)?;
        let mut pointers = Vec::new(alloc);
        pointers.push(pointer_of(alloc, self.picked)?)?;
        let next_file = self.first_number + outputs.len() as u64;
        Ok(VersionEdit {
            comparator: None,
            log_number: Some(self.log_number),
            previous_log: Some(self.previous_log),
            next_file: Some(next_file),
            last_sequence: Some(self.last_sequence),
            pointers,
            deleted,
            added: outputs,
        })
    }
}

/// The deletions of inputs by level and number, each once.
pub fn deletions_of(alloc: Global, files: &[InputFile]) -> Result<BTreeSet<DeletedFile>, Fault>
    ensures { EqualOrMemory (λ set. set.keys) result (Ok (deletions_of files.now)) }
{
    let mut deleted = BTreeSet::new(alloc);
    for input in files {
        let file = DeletedFile {
            level: input.level,
            number: input.meta.number,
        };
        deleted.insert(file)?;
    }
    Ok(deleted)
}

/// The compact pointer of the compaction's level.
fn pointer_of(alloc: Global, picked: &Inputs) -> Result<CompactPointer, Fault>
    ensures { EqualOrMemory (λ pointer. pointer) result
        (Ok (record { level = picked.now.level; key = picked.now.pointer.key })) }
{
    Ok(CompactPointer {
        level: picked.level,
        key: KeyBuf::of(alloc, picked.pointer.key.as_key())?,
    })
}

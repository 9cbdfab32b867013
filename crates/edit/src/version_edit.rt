//! Version edits, read and written.

ghost use Rattle.std.specs.Prelude.{◌≡◌, ◌<◌, ◌++◌, IfOk, IfErr, OnOk, IsOkUnless, Ok};
ghost use Rattle.std.specs.List.{flat_map, AllByRecursion};
ghost use Rattle.coding.specs.Answers.{EqualOrMemory, UnlessMemory, fault};
ghost use Rattle.coding.specs.declared.fault.FaultName.TheVariants.{Memory};
ghost use Rattle.edit.specs.Field.{IsField, spelling};
ghost use Rattle.edit.specs.CodeFields.{field_in};

use crate::copies::{copied_files, copied_name, copied_pointers};
use crate::field::Field;
use crate::field_reader::field_at;
use crate::field_writer::{
    push_added, push_comparator, push_deleted, push_optional, push_pointers,
};
use crate::meta::{CompactPointer, DeletedFile, FileMeta, NewFile};
use crate::tag::Tag;
use coding::Fault;
use ikey::{Comparator, KeyBuf};
use std::alloc::Global;
use std::collections::BTreeSet;

/// A change of a version. What isn't set stays as it is.
#[derive(Drop)]
pub struct VersionEdit {
    /// The name of the comparator of the user keys.
    pub comparator: Option<String>,
    /// The number of the write-ahead log in use.
    pub log_number: Option<u64>,
    /// The number of the previous write-ahead log.
    pub previous_log: Option<u64>,
    /// The least number that no file has yet.
    pub next_file: Option<u64>,
    /// The greatest sequence in use.
    pub last_sequence: Option<u64>,
    /// New compact pointers. Of two of one level the later counts.
    pub pointers: Vec<CompactPointer>,
    /// The files that are deleted, by level and number.
    pub deleted: BTreeSet<DeletedFile>,
    /// The new files.
    pub added: Vec<NewFile>,
}

impl VersionEdit {
    ghost use Rattle.edit.specs.Version.{names_another};
    ghost use Rattle.edit.specs.Edit.{Edit, IsEdit, IsEditRefused, HasValidLevels, HasShortName};
    ghost use Rattle.edit.specs.Edit.{edit_in, edit_bytes, settings_of, empty_edit, with_field};

    /// The edit that changes nothing.
    pub fn empty(alloc: Global) -> VersionEdit
        ensures { edit_in result ≡ empty_edit }
    {
        VersionEdit {
            comparator: None,
            log_number: None,
            previous_log: None,
            next_file: None,
            last_sequence: None,
            pointers: Vec::new(alloc),
            deleted: BTreeSet::new(alloc),
            added: Vec::new(alloc),
        }
    }

    /// The edit that `bytes` are: fields in any order, and nothing else.
    ///
    /// A name or a number that comes again replaces the earlier one. Of two compact pointers of a
    /// level the later counts, and deleted files are a set. No bytes are the edit that changes
    /// nothing.
    ///
    /// Other bytes are refused at the first field that can't be read:
    ///
    /// - EditTag: a number that is no tag is there.
    /// - EditField: otherwise.
    ///
    /// A claimed length is compared with the bytes that are there before memory is asked for. The
    /// only other fault is Memory.
    pub fn decode(alloc: Global, bytes: &[u8]) -> Result<VersionEdit, Fault>
        // The result is the edit that the bytes read as.
        ensures found { IfOk result (λ e. IsEdit bytes.now (edit_in e)) }
        // Bytes that read as an edit get that edit, or Memory.
        ensures only { (e : Edit) → IsEdit bytes.now e → EqualOrMemory edit_in result (Ok e) }
        // Which refusal it is: at the first field that can't be read.
        ensures refused { IfErr result (λ e. UnlessMemory e (IsEditRefused bytes.now e)) }
        // It can be written and applied.
        ensures levels { IfOk result (λ e. HasValidLevels (edit_in e)) }
        ensures name { IfOk result (λ e. HasShortName (edit_in e)) }
    {
        VersionEdit::read(alloc, bytes)
    }

    /// The bytes of the edit. What isn't set is left out. The order is:
    ///
    /// 1. comparator, log number, previous log number, next file, last sequence;
    /// 2. compact pointers in their order;
    /// 3. deleted files by level and number;
    /// 4. new files in their order.
    ///
    /// Levels are from 0 to 6, and the comparator's name has fewer than 2^32 bytes.
    pub fn encode(&self, alloc: Global) -> Result<Vec<u8>, Fault>
        requires levels { HasValidLevels (edit_in self.now) }
        requires name { HasShortName (edit_in self.now) }
        ensures bytes { IfOk result (λ v. v.items ≡ edit_bytes (edit_in self.now)) }
        // What was written reads back.
        ensures reads_back { IfOk result (λ v. IsEdit v.items (edit_in self.now)) }
        ensures memory { IsOkUnless result (fault Memory) }
    {
        let mut bytes = Vec::new(alloc);
        self.push_settings(&mut bytes)?;
        push_pointers(&mut bytes, &self.pointers)?;
        push_deleted(&mut bytes, &self.deleted)?;
        push_added(&mut bytes, &self.added)?;
        Ok(bytes)
    }

    /// Appends the comparator and the numbers that are set.
    fn push_settings(&self, out: &mut Vec<u8>) -> Result<(), Fault>
        requires { HasShortName (edit_in self.now) }
        ensures ok { OnOk result
            (out.new.items ≡ out.old.items ++ flat_map spelling (settings_of (edit_in self.now))) }
        ensures lawful { OnOk result (AllByRecursion IsField (settings_of (edit_in self.now))) }
        ensures memory { IsOkUnless result (fault Memory) }
    {
        push_comparator(out, &self.comparator)?;
        push_optional(out, Tag::LogNumber, self.log_number)?;
        push_optional(out, Tag::PreviousLog, self.previous_log)?;
        push_optional(out, Tag::NextFile, self.next_file)?;
        push_optional(out, Tag::LastSequence, self.last_sequence)?;
        Ok(())
    }

    /// A copy of the edit.
    pub(crate) fn copy(&self, alloc: Global) -> Result<VersionEdit, Fault>
        ensures same { IfOk result (λ e. edit_in e ≡ edit_in self.now) }
        ensures memory { IfErr result (λ e. e ≡ fault Memory) }
    {
        Ok(VersionEdit {
            comparator: copied_name(alloc, &self.comparator)?,
            log_number: self.log_number,
            previous_log: self.previous_log,
            next_file: self.next_file,
            last_sequence: self.last_sequence,
            pointers: copied_pointers(alloc, &self.pointers)?,
            deleted: self.deleted.clone()?,
            added: copied_files(alloc, &self.added)?,
        })
    }

    /// Whether the edit names another comparator than `C`.
    pub(crate) fn names_another<C: Comparator>(&self) -> bool
        ensures { result ≡ names_another C.name_bytes (edit_in self.now) }
    {
        match &self.comparator {
            Some(name) => name.as_str() != C::name(),
            None => false,
        }
    }

    /// Reads and sets one field after the other.
    fn read(alloc: Global, bytes: &[u8]) -> Result<VersionEdit, Fault>
        ensures found { IfOk result (λ e. IsEdit bytes.now (edit_in e)) }
        ensures refused { IfErr result (λ e. UnlessMemory e (IsEditRefused bytes.now e)) }
        ensures levels { IfOk result (λ e. HasValidLevels (edit_in e)) }
        ensures name { IfOk result (λ e. HasShortName (edit_in e)) }
    {
        let mut edit = VersionEdit::empty(alloc);
        let mut rest = bytes;
        while !rest.is_empty() {
            let (field, behind) = field_at(rest)?;
            edit.set(alloc, field)?;
            rest = behind;
        }
        Ok(edit)
    }

    /// Sets one field.
    fn set(&mut self, alloc: Global, field: Field<'_>) -> Result<(), Fault>
        ensures ok { OnOk result
            (edit_in self.new ≡ with_field (edit_in self.old) (field_in field.entry)) }
        ensures memory { IfErr result (λ e. e ≡ fault Memory) }
    {
        match field {
            Field::Comparator(name) => self.comparator = Some(String::from_str(alloc, name)?),
            Field::LogNumber(number) => self.log_number = Some(number),
            Field::NextFile(number) => self.next_file = Some(number),
            Field::LastSequence(number) => self.last_sequence = Some(number),
            Field::PreviousLog(number) => self.previous_log = Some(number),
            Field::Pointer(pointer) => self.pointers.push(CompactPointer {
                level: pointer.level,
                key: KeyBuf::of(alloc, pointer.key)?,
            })?,
            Field::Deleted(file) => {
                self.deleted.insert(file)?;
            }
            Field::Added(file) => self.added.push(NewFile {
                level: file.level,
                meta: FileMeta {
                    number: file.number,
                    size: file.size,
                    smallest: KeyBuf::of(alloc, file.smallest)?,
                    largest: KeyBuf::of(alloc, file.largest)?,
                },
            })?,
        }
        Ok(())
    }
}

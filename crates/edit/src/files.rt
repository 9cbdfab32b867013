//! The files of a version, by their numbers.

ghost use Rattle.std.specs.Prelude.{◌≡◌, ◌++◌, true, length, map, fold, if◌then◌else◌, [], ◌∷◌};
ghost use Rattle.std.specs.Prelude.{Some, None, Ok, slice_get, IfOk, IfErr};
ghost use Rattle.coding.specs.Answers.{EqualOrMemory, fault};
ghost use Rattle.coding.specs.declared.fault.FaultName.TheVariants.{Memory};
ghost use Rattle.edit.specs.FilePlaces.{with_place_of};
ghost use Rattle.edit.specs.Version.{has_place, undeleted_files, with_file, are_new, are_apart};
ghost use Rattle.edit.specs.VersionOrder.{files_at};

use crate::copies::{copied_files, copied_places};
use crate::file_insertion::insert_all;
use crate::meta::{DeletedFile, FileMeta, NewFile};
use coding::Fault;
use std::alloc::Global;
use std::collections::BTreeMap;
use std::marker::Model;

/// Files, no two of one number. Contracts see them in the order of their numbers.
///
/// To find or take out a file takes a time that grows with the logarithm of the number of files.
#[derive(Drop)]
pub(crate) struct Files {
    /// In any order: when a file is taken out, the last one moves to its place.
    files: Vec<NewFile>,
    /// The place of each file, by its number.
    places: BTreeMap<u64, usize>,
}

impl Model for Files {
    ghost use Rattle.std.specs.Prelude.{List};
    ghost use Rattle.std.specs.Map.{values_of};
    ghost use Rattle.edit.specs.FilePlaces.{numbered_files, AreFilePlaces};
    ghost use Rattle.edit.specs.declared.meta.NewFile.{NewFile as File};

    ghost Value = { List File };

    ghost view = { λ f. values_of (numbered_files f.files.items f.places.entries) };

    ghost invariant = { λ f. AreFilePlaces f.files.items f.places.entries };
}

impl Files {
    /// No files.
    pub fn new(alloc: Global) -> Files
        ensures { result ≡ [] }
    {
        Files {
            files: Vec::new(alloc),
            places: BTreeMap::new(alloc),
        }
    }

    /// These files and new ones; `None` if a new one has the number of another, old or new.
    ///
    /// Each new file takes a time that grows with the logarithm of the number of files; less if
    /// many come together.
    pub fn with_all(self, added: Vec<NewFile>) -> Result<Option<Files>, Fault>
        ensures { EqualOrMemory (λ files. files) result
            (Ok (if are_new self added.items then Some (fold with_file self added.items) else
            None)) }
    {
        let mut places = self.places;
        let wanted = places.len() + added.len();
        insert_all(*added.allocator(), &mut places, self.files.len(), &added)?;
        let files = appended(self.files, added)?;
        if places.len() == wanted {
            Ok(Some(Files { files, places }))
        } else {
            Ok(None)
        }
    }

    /// Takes out the file of this number. Answers whether there was one and it was at this level.
    pub fn take_out(&mut self, place: DeletedFile) -> bool
        ensures there { result ≡ has_place self.old place }
        ensures others { result ≡ true → self.new ≡ undeleted_files (place ∷ []) self.old }
    {
        match self.places.remove(&place.number) {
            Some(spot) => {
                let file = self.files.swap_remove(spot);
                set_place(&mut self.places, &self.files, spot);
                file.level == place.level
            }
            None => false,
        }
    }

    /// The files at `level`, by number.
    pub fn at_level(&self, alloc: Global, level: u64) -> Result<Vec<&FileMeta>, Fault>
        ensures files { EqualOrMemory (λ v. map (λ f. f.now) v.items) result
            (Ok (files_at self.now level)) }
        ensures apart { are_apart self.now ≡ true }
    {
        let mut found = Vec::new(alloc);
        let files = self.files.as_slice();
        for (_, place) in self.places.iter() {
            let Some(file) = files.get(*place) else {
                continue;
            };
            if file.level == level {
                found.push(&file.meta)?;
            }
        }
        Ok(found)
    }

    /// A copy of the files.
    pub fn copy(&self, alloc: Global) -> Result<Files, Fault>
        ensures same { IfOk result (λ f. f ≡ self.now) }
        ensures memory { IfErr result (λ e. e ≡ fault Memory) }
    {
        let files = copied_files(alloc, &self.files)?;
        let places = copied_places(&self.places)?;
        Ok(Files { files, places })
    }

    /// How many files there are.
    pub fn len(&self) -> usize
        ensures { result ≡ length self.now }
    {
        self.places.len()
    }
}

/// `files`, and then `added`.
fn appended(files: Vec<NewFile>, added: Vec<NewFile>) -> Result<Vec<NewFile>, Fault>
    ensures ok { IfOk result (λ v. v.items ≡ files.items ++ added.items) }
    ensures memory { IfErr result (λ e. e ≡ fault Memory) }
{
    if files.is_empty() {
        return Ok(added);
    }
    let mut files = files;
    let mut added = added;
    files.append(&mut added)?;
    Ok(files)
}

/// Notes that the file at `place` is there now, if there is one and its number is in the map.
fn set_place(places: &mut BTreeMap<u64, usize>, files: &[NewFile], place: usize)
    ensures { places.new.entries ≡
        with_place_of (slice_get files.now place) place places.old.entries }
{
    if let Some(file) = files.get(place) {
        if let Some(old) = places.get_mut(&file.meta.number) {
            *old = place;
        }
    }
}

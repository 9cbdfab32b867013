//! What opening and loading answer of a folder's files, and what a crash leaves of them.

ghost use Rattle.std.specs.Prelude.{◌≡◌, ℕ, List, Result, Ok, Err};
ghost use Rattle.std.specs.declared.cmp.Ordering.{Ordering};
ghost use Rattle.ikey.specs.Answers.{fault};
ghost use Rattle.ikey.specs.fault.Fault.{Fault};
ghost use Rattle.ikey.specs.fault.FaultName.TheVariants.{Missing};
ghost use Rattle.edit.specs.Version.{State};
ghost use Rattle.folder.specs.Calls.{Files, FolderView, Step, Tells};
ghost use Rattle.folder.specs.Crash.{MayLeave, World, open_world};
ghost use Rattle.folder.specs.Levels.{file_numbers};
ghost use Rattle.folder.specs.LoadedTables.{IsLoaded};
ghost use Rattle.folder.specs.OpenAnswer.{IsOfContents, IsOpened};
ghost use Rattle.folder.specs.ReadsAs.{ReadsAs, StandsAs};
ghost use Rattle.folder.specs.CallSequence.{ShowsAll};
ghost use Rattle.folder.specs.declared.order.Order.{Order};

use crate::folder::Folder;

/// Which refusals come of what a folder tells:
///
/// - opening: Missing, LogShape, LogChecksum, EditTag, EditField, Comparator or Apply;
/// - loading: Missing.
///
/// So Device and Memory never come of it. A call does nothing.
pub fn folder_laws<F: Folder>(_folder: &F)
    ensures opening { (e : Fault) → IsOpened (F.tells _folder.now) (Err e) → IsOfContents e.name }
    ensures loading { (numbers : List ℕ) (e : Fault) →
        IsLoaded (F.tells _folder.now) numbers (Err e) → e ≡ fault Missing }
{}

/// If a folder tells files that read as a version and its tables, opening answers that version and
/// loading those tables, out of memory and failures of the device aside. What opening and loading
/// answer is what the files read as: if they read as no version, opening is refused, or else
/// loading. A call does nothing.
pub fn reading_laws<F: Folder>(_folder: &F)
    ensures opened { (cmp : List ℕ → List ℕ → Ordering) (order : Order) (v : State)
        (tables : List (ℕ × List ℕ)) (files : Files)
        → Tells (F.tells _folder.now) files → ReadsAs cmp order v tables files
        → (r : Result (Order × State) Fault) → IsOpened (F.tells _folder.now) r →
        r ≡ Ok (order, v) }
    ensures loaded { (cmp : List ℕ → List ℕ → Ordering) (order : Order) (v : State)
        (tables : List (ℕ × List ℕ)) (files : Files)
        → Tells (F.tells _folder.now) files → ReadsAs cmp order v tables files
        → (r : Result (List (ℕ × List ℕ)) Fault) →
        IsLoaded (F.tells _folder.now) (file_numbers cmp v) r → r ≡ Ok tables }
    ensures reads { (cmp : List ℕ → List ℕ → Ordering) (order : Order) (v : State)
        (tables : List (ℕ × List ℕ)) (files : Files)
        → Tells (F.tells _folder.now) files → IsOpened (F.tells _folder.now) (Ok (order, v))
        → IsLoaded (F.tells _folder.now) (file_numbers cmp v) (Ok tables)
        → ReadsAs cmp order v tables files }
{}

/// What may be read after some calls is one of the folders that a crash then may leave. If a folder
/// stands for a version, what a crash leaves reads as that version. A call does nothing.
pub fn crash_laws()
    ensures shown { (steps : List Step) (s last : FolderView) → ShowsAll steps s last →
        MayLeave (open_world s) steps last.files }
    ensures left { (cmp : List ℕ → List ℕ → Ordering) (order : Order) (v : State)
        (tables : List (ℕ × List ℕ)) (w : World)
        → StandsAs cmp order v tables w → ReadsAs cmp order v tables w.left }
{}

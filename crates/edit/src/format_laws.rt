//! Laws of edits and versions.

ghost use Rattle.std.specs.Prelude.{◌≡◌, ℕ, List, Some};
ghost use Rattle.std.specs.List.{AllByRecursion};
ghost use Rattle.std.specs.List.Sorted.{IsStrictlySortedBy};
ghost use Rattle.coding.specs.declared.fault.Fault.{Fault};
ghost use Rattle.edit.specs.Field.{IsField};
ghost use Rattle.edit.specs.Edit.{Edit, IsEdit, IsEditRefused, edit_bytes, fields_of, deleted_cmp};
ghost use Rattle.edit.specs.Version.{IsState, State, applied, empty_state};
ghost use Rattle.edit.specs.VersionOrder.{snapshot_of, unnumbered_version};

use ikey::Comparator;

/// Bytes read as at most one edit, and those that are refused read as none. The bytes of an edit
/// read as that edit, if its fields are within their limits and its deleted files rise by level and
/// number. A call does nothing.
pub fn edit_laws()
    ensures one_edit { (bytes : List ℕ) (a b : Edit) → IsEdit bytes a → IsEdit bytes b → a ≡ b }
    ensures not_both { (bytes : List ℕ) (e : Fault) (a : Edit) →
        IsEditRefused bytes e → IsEdit bytes a → ⊥ }
    ensures reads_back { (e : Edit) → AllByRecursion IsField (fields_of e) →
        IsStrictlySortedBy deleted_cmp e.deleted → IsEdit (edit_bytes e) e }
{}

/// The snapshot edit of a version, applied to the empty version, makes the version again, without
/// its numbers. Each version is as this asks (`IsState`). A call does nothing.
pub fn snapshot_law<C: Comparator>()
    ensures { (name : List ℕ) (v : State) → IsState v.pointers v.files →
        applied empty_state (snapshot_of name C.cmp v) ≡ Some (unnumbered_version v) }
{}

//! Laws of two edits as one.

ghost use Rattle.install.specs.JoinedEdits.{EditsJoin, JoinedApplies};

/// The bytes of two edits, one after the other, read as the two as one. A call does nothing.
pub fn edits_join()
    ensures { EditsJoin }
{}

/// Two edits as one make the version that they make one after the other, if the later one deletes
/// files of the version alone. A call does nothing.
pub fn joined_applies()
    ensures { JoinedApplies }
{}

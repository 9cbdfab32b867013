//! Calls on folders, piece by piece.

use std::alloc::AllocError;

/// A call: what it does, and to which name. Of one that reads, no name is given.
pub(crate) type Call = (&'static str, &'static str);

/// Calls that are made one after the other.
#[derive(Clone, Copy)]
pub(crate) enum Piece {
    /// These.
    Calls(&'static [Call]),
    /// A table of one input, by its name.
    Table(&'static str),
    /// A manifest is written, and CURRENT names it: the names of the manifest and of that CURRENT
    /// before it is renamed.
    Installed(&'static str, &'static str),
}

impl Piece {
    /// Appends its calls.
    pub fn push_to(self, calls: &mut Vec<Call>) -> Result<(), AllocError> {
        match self {
            Piece::Calls(these) => calls.extend_from_slice(these),
            Piece::Table(name) => {
                calls.extend_from_slice(&[("read", ""), ("create", name), ("sync", name)])
            }
            Piece::Installed(manifest, temporary) => calls.extend_from_slice(&[
                ("create", manifest),
                ("sync", manifest),
                ("create", temporary),
                ("sync", temporary),
                ("sync", "."),
                ("read", ""),
                ("rename", "CURRENT"),
                ("sync", "."),
            ]),
        }
    }
}

/// A version of one file is opened, synced and tested.
pub(crate) const OPENED_5: &[Call] = &[
    ("read", ""),
    ("read", ""),
    ("sync", "CURRENT"),
    ("sync", "MANIFEST-000005"),
    ("sync", "000007.ldb"),
    ("sync", "000007.sst"),
    ("sync", "."),
    ("read", ""),
    ("read", ""),
];

/// That of three files is.
pub(crate) const OPENED_15: &[Call] = &[
    ("read", ""),
    ("read", ""),
    ("sync", "CURRENT"),
    ("sync", "MANIFEST-000015"),
    ("sync", "000017.ldb"),
    ("sync", "000017.sst"),
    ("sync", "000018.ldb"),
    ("sync", "000018.sst"),
    ("sync", "000016.ldb"),
    ("sync", "000016.sst"),
    ("sync", "."),
    ("read", ""),
    ("read", ""),
    ("read", ""),
    ("read", ""),
];

/// The table of the inputs that the test held.
pub(crate) const PART_10: &[Call] = &[("create", "000010.ldb"), ("sync", "000010.ldb")];

/// A table of two inputs.
pub(crate) const PART_26: &[Call] = &[
    ("read", ""),
    ("read", ""),
    ("read", ""),
    ("create", "000026.ldb"),
    ("sync", "000026.ldb"),
];

/// What is removed after the first step.
pub(crate) const REMOVED_15: &[Call] = &[
    ("remove", "000017.ldb"),
    ("remove", "000018.ldb"),
    ("remove", "MANIFEST-000015"),
    ("sync", "."),
];

/// What is removed after the second one.
pub(crate) const REMOVED_19: &[Call] = &[
    ("remove", "000016.sst"),
    ("remove", "000020.ldb"),
    ("remove", "000022.ldb"),
    ("remove", "MANIFEST-000019"),
    ("sync", "."),
];

/// An outcome is written.
pub(crate) const WRITTEN: &[Call] = &[
    ("create", "000010.ldb"),
    ("sync", "000010.ldb"),
    ("create", "EDIT.dbtmp"),
    ("sync", "EDIT.dbtmp"),
    ("sync", "."),
    ("rename", "EDIT"),
    ("sync", "."),
];

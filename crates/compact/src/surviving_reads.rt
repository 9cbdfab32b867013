//! The laws of what survives a compaction: the version after it is lawful, and each get at a
//! sequence that stays readable answers as before.
//!
//! (1) The inputs of a lawful version are closed (`closed_inputs`): what stays beside or above them
//!     is newer, what lies below them is older. So the entries of each user key, the newest first,
//!     are those above the inputs, those of the inputs, and those below (`inputs_stand_together`).
//! (2) No readable sequence sees what is dropped of the inputs' entries of a user key
//!     (`keep::one_key`). So if a version holds what is kept, its gets answer as before
//!     ([`gets_after`]).
//! (3) The outputs hold what is kept ([`outputs_hold`]), all of a user key in one. The edit applies
//!     ([`edit_applies`]), and the version after is lawful and holds what is kept
//!     ([`stands_after`]).
//! (4) So reads survive: [`reads_survive`]. They survive of all inputs that are closed
//!     ([`closed_reads_survive`]), as picked ones are (`picked_choice`). They survive whoever cut
//!     the outputs, if these hold what is kept ([`kept_reads_survive`]).
//!
//! Premises: the version is lawful and the inputs were picked from it. All but `edit_applies` and
//! `outputs_hold` also ask for files at levels up to 6. All but `edit_applies` and `gets_after` ask
//! that the request is over the version (`IsOver`). That is: the request has the bytes of their
//! tables, numbers outputs from the version's next file on, and its two log numbers are below 2^64.
//!
//! [`closed_reads_survive`] asks for inputs over the version (`AreInputsOver`) in place of picked
//! ones: files of it that are closed, with all deeper files, and any compact pointer and
//! grandparents. [`kept_reads_survive`] asks for these and for no request.
//!
//! Nothing is said of gets at other sequences, nor of inputs that aren't closed.

ghost use Rattle.compact.specs.EditAfter.{EditApplies};
ghost use Rattle.compact.specs.GetsAfter.{GetsAfter};
ghost use Rattle.compact.specs.KeptOutputs.{KeptReadsSurvive};
ghost use Rattle.compact.specs.RequestOverVersion.{OutputsHold};
ghost use Rattle.compact.specs.SurvivingReads.{ClosedReadsSurvive, ReadsSurvive, VersionAfterLaw};

use ikey::Comparator;

/// The law that the edit of a compaction applies, if its outputs are numbered from the version's
/// next file on. The version after has the files that stay, and the outputs. A call does nothing.
pub fn edit_applies<C: Comparator>()
    ensures { EditApplies C.cmp }
{}

/// The law of gets after a compaction. Let the version after hold the entries of the files that
/// stay, what is kept of the inputs' union, and no others. Then each get at a readable sequence
/// answers as before. A call does nothing.
pub fn gets_after<C: Comparator>()
    ensures { GetsAfter C.cmp }
{}

/// The law of what an answer of one thread is made of: the outputs hold what is kept of the inputs'
/// union, and are tables that read as they do. A call does nothing.
pub fn outputs_hold<C: Comparator>()
    ensures { OutputsHold C.cmp C.short_keys }
{}

/// The law that the version after is lawful with its new tables, and holds what is kept. A call
/// does nothing.
pub fn stands_after<C: Comparator>()
    ensures { VersionAfterLaw C.cmp C.short_keys }
{}

/// The law that reads survive a compaction of any inputs that are closed in a lawful version, for
/// each answer of one thread. A call does nothing.
///
/// - The bytes of the edit read as an edit, and every edit that they read as applies to the
///   version.
/// - The version after is lawful with the old tables less those of the inputs, and with the
///   outputs.
/// - Each get at a sequence that stays readable answers as before.
pub fn closed_reads_survive<C: Comparator>()
    ensures { ClosedReadsSurvive C.cmp C.short_keys }
{}

/// The law that reads survive a compaction of picked inputs, for each answer of one thread: the law
/// of closed inputs ([`closed_reads_survive`]) in the case of those. A call does nothing.
pub fn reads_survive<C: Comparator>()
    ensures { ReadsSurvive C.cmp C.short_keys }
{}

/// The law that reads survive if outputs take the place of inputs that are closed in a lawful
/// version, whoever cut them (`TakePlace`). A call does nothing.
///
/// - The outputs are tables, and together hold just what is kept of the inputs.
/// - An edit deletes just the inputs, has the outputs as new files, and applies.
/// - In the version after the numbers of files are below next file, and the ranges of each level's
///   files from 1 on are disjoint.
///
/// Then that version is lawful, and each get at a readable sequence answers as before. No table but
/// the inputs' and the outputs' has to be read to know it.
pub fn kept_reads_survive<C: Comparator>()
    ensures { KeptReadsSurvive C.cmp }
{}

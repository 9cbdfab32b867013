//! Which files a compaction takes.
//!
//! A compaction of a level takes files of that level and of the next one:
//!
//! 1. The first file, by the level's compact pointer.
//! 2. At level 0, each file whose range of user keys overlaps those chosen, until there is none
//!    more.
//! 3. Boundary files: those that go on within the user key with which the chosen files end.
//! 4. The files of the next level that overlap all of these, and their boundary files.
//!
//! [`inputs`] makes the choice. It also answers the grandparents, all deeper files, and the new
//! compact pointer. [`is_base`] tells whether a deeper file may have a user key. [`one_choice`] is
//! the law that a level of a version has one choice. [`first_missing`] tells of any choice whether
//! it is closed, which is what makes a compaction of it safe. [`numbered_inputs`] makes the inputs
//! of a choice. [`finest_parts`] parts a level into sets of files that can be compacted at the same
//! time.
//!
//! The caller names the level: which level needs a compaction isn't asked here.
#![tactic(auto)]

mod apart_laws;
mod boundaries;
mod choice;
mod choice_law;
mod closed_choice;
mod file_copies;
mod file_ranges;
mod input_choice;
mod level_files;
mod level_parts;
mod numbered_choice;
mod picked_inputs;
mod range;

pub use apart_laws::{apart_is_closed, apart_share_none, parts_share_none, stays_apart};
pub use choice_law::one_choice;
pub use closed_choice::first_missing;
pub use input_choice::{LAST_INPUT_LEVEL, inputs};
pub use level_parts::finest_parts;
pub use numbered_choice::numbered_inputs;
pub use picked_inputs::{InputFile, Inputs, is_base};

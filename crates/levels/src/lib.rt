//! Compacts a whole level of a database folder, all its parts by one installation; and all levels.
//!
//! The finest parts of a level (`pick::finest_parts`) share no file and no user key, so that each
//! can be compacted by itself. [`compact_level`] does so, one part after the other, each by all
//! workers and from the same version:
//!
//! 1. The version is tested.
//! 2. Each part is compacted, and its tables are written. Of it only its edit is kept, and the
//!    numbers and lengths of its tables. So memory is bounded by the part that is worked.
//! 3. The edits are joined into one. One manifest has it, and CURRENT names that.
//!
//! Nothing names the tables before that. So a crash at any moment leaves the version before, or the
//! one after all parts.
//!
//! The outputs have the numbers that they have if each part is installed before the next one is
//! compacted: between those of two parts is one number that nothing uses.
//!
//! [`compact_levels`] compacts one level after the other, until all files are in one level. Of each
//! it takes the parts that the [`Descent`] selects, as above: all of them, or those that fit. If
//! none fits, it takes the inputs that the rules pick. It tests the version once, if that is asked
//! for. It tells a `CleanWatch` of each compaction that was installed; then it asks it for names,
//! and removes the files of these that the version doesn't need.
//!
//! Laws: [`levels_survive`], [`descents_survive`], [`parts_stay`], [`edits_join`],
//! [`joined_applies`].
#![tactic(auto)]

mod all_levels;
mod descent_end;
mod join_laws;
mod level_compaction;
mod level_parts;
mod level_step;
mod part_laws;
mod part_writer;
mod selection;
mod work_laws;

pub use all_levels::compact_levels;
pub use descent_end::DescentEnd;
pub use join_laws::{edits_join, joined_applies};
pub use level_compaction::compact_level;
pub use part_laws::parts_stay;
pub use selection::{Descent, Selection};
pub use work_laws::{descents_survive, levels_survive};

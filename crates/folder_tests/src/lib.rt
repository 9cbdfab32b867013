//! The tests of folders: of those that are opened and loaded, and of installations, compactions,
//! removals and outcomes that are cut short or of which a call fails.
#![tactic(auto)]

#[cfg(test)]
mod acts;
#[cfg(test)]
mod calls;
#[cfg(test)]
mod clean_tests;
#[cfg(test)]
mod compaction_crash_tests;
#[cfg(test)]
mod crashes;
#[cfg(test)]
mod folder_disk_tests;
#[cfg(test)]
mod folder_lock_tests;
#[cfg(test)]
mod folder_opening_tests;
#[cfg(test)]
mod folder_reader_tests;
#[cfg(test)]
mod folder_shelf_tests;
#[cfg(test)]
mod folder_system_tests;
#[cfg(test)]
mod folder_told_tests;
#[cfg(test)]
mod folder_write_tests;
#[cfg(test)]
mod install_rows;
#[cfg(test)]
mod install_tests;
#[cfg(test)]
mod known_versions;
#[cfg(test)]
mod rows;
#[cfg(test)]
mod silent_folder_tests;
#[cfg(test)]
mod silent_shelf;
#[cfg(test)]
mod steps;

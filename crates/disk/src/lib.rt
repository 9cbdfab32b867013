//! The folder of a database as a folder of the system.
//!
//! What a `Disk` does. It tells contracts nothing of what it holds.
//!
//! - read, read_part: what is no regular file, or has more than 2^30 bytes, is Device, and isn't
//!   read.
//! - reader: reads a table so in any thread, but tells of no failure.
//! - create: the name is removed, and a new file is made of the bytes. So no file that is there is
//!   written to, even through a link. The new one gets the permissions of CURRENT, and its owner
//!   and group if the program may set them; if the folder isn't a database's own, of the CURRENT of
//!   another one. If it can't be written whole, it is removed again.
//! - write_tables: each is made as `create` makes it, and synced by the same handle; by up to 16
//!   threads if their numbers rise. All of them are tried, also after one failed.
//! - write_source: each is made and synced so by a worker, in one job.
//! - sync: `sync_all`, through the handle that made the file, or else under its name. If it was
//!   synced ahead, the answer is what that came to.
//! - rename is `fs::rename`, remove is `fs::remove_file`, sync_folder is `sync_all` of the folder.
//! - [`lock_to_change`] and [`lock_to_read`] keep out others that lock the folder as LevelDB does.
#![tactic(auto)]

mod call_record;
mod disk;
mod disk_reader;
mod due_files;
mod failure;
mod file_access;
mod folder_lock;
mod listed_locks;
mod made_table;
mod pending_files;
mod system;
mod system_files;
mod table_sizes;
mod whole_files;

pub use crate::disk::Disk;
pub use disk_reader::DiskReader;
pub use failure::{Failure, error_words};
pub use folder_lock::{FolderLock, lock_to_change, lock_to_read};
pub use made_table::{DiskMaker, MadeTable};
pub use system::MAX_FILE_LEN;
pub use system_files::{MakesFiles, OwnedFiles, SystemFiles};
pub use whole_files::WholeFiles;

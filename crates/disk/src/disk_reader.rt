//! Tables of a folder of the system, read by several threads.

use crate::whole_files::{WholeFiles, path_in};
use folder::{TableReader, old_table_name, table_name};
use ikey::Fault;
use std::alloc::Global;
use std::io::ErrorKind;

/// What reads tables of a folder of the system.
#[derive(Drop)]
pub struct DiskReader<'r, R> {
    pub(crate) rt: &'r R,
    pub(crate) folder: &'r str,
}

impl<'r, R: WholeFiles> TableReader for DiskReader<'r, R> {
    ghost tells = { λ _ _ _. Unit {0} };

    fn table(&self, alloc: Global, number: u64) -> Option<Vec<u8>> {
        let path = path_of(alloc, self.folder, table_name(alloc, number))?;
        match self.rt.whole(alloc, path.as_str()) {
            Ok(bytes) => Some(bytes),
            Err(error) if error.kind() == ErrorKind::NotFound => {
                let older = path_of(alloc, self.folder, old_table_name(alloc, number))?;
                self.rt.whole(alloc, older.as_str()).ok()
            }
            Err(_) => None,
        }
    }
}

/// The path of a file of this `name` in a folder. None if memory ran out.
fn path_of(alloc: Global, folder: &str, name: Result<String, Fault>) -> Option<String> {
    path_in(alloc, folder, name.ok()?.as_str()).ok()
}

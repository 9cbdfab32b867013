//! The bytes that a call gets.

use crate::worked_bytes::TABLE;
use coding::Fault;
use std::alloc::Global;

/// The bytes that a call gets.
pub enum Source {
    /// These bytes.
    Plain(&'static [u8]),
    /// The worked table, with these bytes in place of its own from a place on.
    Changed(usize, &'static [u8]),
    /// The worked table up to a place, and then these bytes.
    Ended(usize, &'static [u8]),
    /// Bytes, a seven as often as told, and other bytes.
    Sevens(&'static [u8], usize, &'static [u8]),
}

impl Source {
    pub fn bytes(&self, alloc: Global) -> Result<Vec<u8>, Fault> {
        match self {
            Source::Plain(bytes) => joined(alloc, &[], 0, bytes),
            Source::Changed(place, bytes) => {
                let end = place.saturating_add(bytes.len());
                let mut whole = joined(alloc, beginning(*place), 0, bytes)?;
                whole.extend_from_slice(TABLE.get(end..).unwrap_or(&[]))?;
                Ok(whole)
            }
            Source::Ended(place, bytes) => joined(alloc, beginning(*place), 0, bytes),
            Source::Sevens(before, times, after) => joined(alloc, before, *times, after),
        }
    }
}

/// The worked table up to a place.
fn beginning(place: usize) -> &'static [u8] {
    TABLE.get(..place).unwrap_or(TABLE)
}

/// Bytes, a seven as often as told, and other bytes.
fn joined(alloc: Global, before: &[u8], times: usize, after: &[u8]) -> Result<Vec<u8>, Fault> {
    let mut bytes = Vec::from_slice(alloc, before)?;
    let len = bytes.len().saturating_add(times);
    bytes.resize(len, 7)?;
    bytes.extend_from_slice(after)?;
    Ok(bytes)
}

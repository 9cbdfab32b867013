//! Expected and unexpected answers.

use coding::{Fault, FaultName};

/// Lawless if something is not as expected.
pub fn wanted(is_right: bool) -> Result<(), Fault> {
    if is_right {
        Ok(())
    } else {
        Err(Fault::of(FaultName::Lawless))
    }
}

/// Whether a call was refused since there was no memory for it.
pub fn is_memory<T>(answer: &Result<T, Fault>) -> bool {
    match answer {
        Ok(_) => false,
        Err(fault) => fault.name == FaultName::Memory,
    }
}

//! The numbers that calls answer beside those of the faults.

ghost use Rattle.std.specs.Prelude.{◌≡◌, ◌≢◌};
ghost use Rattle.ikey.specs.Answers.{code_of};

use ikey::Fault;

/// The call did what it was asked.
pub const DONE: u32 = 0;

/// What is lent has too little room.
pub const ROOM: u32 = 26;

/// A file that stays has to be an input, too.
pub const OPEN_INPUTS: u32 = 37;

/// A place isn't within the bytes that are lent, or isn't one of an internal key.
pub const MISUSE: u32 = 98;

/// A growth of memory was refused.
pub const MEMORY: u32 = 99;

/// The number of a fault, which isn't 0.
pub(crate) fn code_of(fault: Fault) -> u32
    ensures number { result ≡ code_of fault.name }
    ensures some { result ≢ 0 }
{
    fault.name.code() as u32
}

//! Reading a log one record at a time.

ghost use Rattle.std.specs.Prelude.{◌≡◌, ◌<◌, [], IfErr, IfNone, IfOk, IfSome, Ok};
ghost use Rattle.coding.specs.Answers.{FailsOrMemory};
ghost use Rattle.logrec.specs.LogReader.{records_of, with_first};

use crate::log_reader::record_at;
use coding::Fault;
use std::alloc::Global;
use std::marker::Model;

/// The records of a log that are still to be read. Contracts see what reading all of them answers,
/// and how many bytes are left.
#[derive(Drop)]
pub struct RecordReader<'a> {
    /// How many bytes the whole log has.
    whole: usize,
    rest: &'a [u8],
}

impl<'a> Model for RecordReader<'a> {
    ghost use Rattle.std.specs.Prelude.{◌-◌, ◌≤◌, length};
    ghost use Rattle.logrec.specs.LogReader.{LogRest, records_in};

    ghost Value = { LogRest };

    ghost view = { λ r. record {
      ahead = records_in (length r.rest.now) (r.whole - length r.rest.now) r.rest.now;
      left = length r.rest.now;
    } };

    ghost invariant = { λ r. length r.rest.now ≤ r.whole };
}

impl<'a> RecordReader<'a> {
    /// All records of the log that `bytes` are. None is read yet.
    pub fn new(bytes: &'a [u8]) -> RecordReader<'a>
        ensures { result.ahead ≡ records_of bytes.now }
    {
        RecordReader {
            whole: bytes.len(),
            rest: bytes,
        }
    }

    /// Reads the next record. None if there is none. It takes the memory of that record alone.
    ///
    /// Bytes that are no log are refused as [`records`](crate::records()) does it. After a refusal
    /// nothing was read.
    pub fn next(&mut self, alloc: Global) -> Result<Option<Vec<u8>>, Fault>
        ensures end { IfOk result (λ found. IfNone found (self.old.ahead ≡ Ok [])) }
        ensures read { IfOk result (λ found. IfSome found
            (λ r. self.old.ahead ≡ with_first r.items self.new.ahead)) }
        ensures shorter { IfOk result (λ found. IfSome found
            (λ _. self.new.left < self.old.left)) }
        ensures refused { IfErr result (λ e. FailsOrMemory e self.old.ahead) }
        ensures unchanged { IfErr result (λ _. self.new ≡ self.old) }
    {
        if self.rest.is_empty() {
            return Ok(None);
        }
        let (record, behind) = record_at(alloc, self.whole - self.rest.len(), self.rest)?;
        self.rest = behind;
        Ok(Some(record))
    }
}

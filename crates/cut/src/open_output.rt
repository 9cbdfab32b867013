//! The output of a plan that takes the next entry.
//!
//! It ends before an entry if both hold:
//!
//! (1) Its flushed data blocks, each with the 5 bytes of its trailer, have reached the maximal file
//!     size. The open block isn't counted. Why: its bytes are written only when it is full.
//! (2) The entry's user key is not that of the last entry. Why: so all entries of a user key are in
//!     one output.

ghost use Rattle.std.specs.Prelude.{◌≡◌, ◌↔◌, ◌<◌, ◌≤◌, false, List, [], ◌++◌, length, take};
ghost use Rattle.std.specs.Prelude.{drop, IsTrue, OnOk, IfOk, IfErr};
ghost use Rattle.std.specs.List.{AllByRecursion};
ghost use Rattle.coding.specs.Answers.{fault};
ghost use Rattle.coding.specs.declared.fault.FaultName.TheVariants.{Memory};
ghost use Rattle.block.specs.EncodedEntry.{Entry};
ghost use Rattle.table.specs.Options.{AreInLimits};
ghost use Rattle.table.specs.DataBlocks.{data_blocks};
ghost use Rattle.cut.specs.PlannedBlocks.{block_lists};
ghost use Rattle.cut.specs.OutputInProgress.{HasLen, ends_by};
ghost use Rattle.cut.specs.Outputs.{outputs_after};

use crate::cursor::EntryCursor;
use crate::open_block::OpenBlock;
use crate::planned_block::PlannedBlock;
use coding::Fault;
use ikey::InternalKey;
use std::alloc::Global;
use std::marker::Model;
use std::mem;
use table::{Options, TRAILER_LEN};

/// An open output: its options, its entries, and the entries still to come.
#[derive(Drop)]
pub(crate) struct OpenOutput<'r, 'a> {
    options: Options,
    /// The data blocks that are full.
    blocks: Vec<PlannedBlock<'r, 'a>>,
    /// The length of these blocks with their trailers; 2^64 - 1 if it is more.
    flushed: u64,
    /// The key of the last entry; None if there is no entry.
    last: Option<InternalKey<'r>>,
    /// The data block that is not full yet.
    current: OpenBlock<'r, 'a>,
}

impl<'r, 'a> Model for OpenOutput<'r, 'a> {
    ghost use Rattle.std.specs.Prelude.{◌++◌};
    ghost use Rattle.std.specs.Option.{option_map};
    ghost use Rattle.cut.specs.OutputInProgress.{OutputInProgress, entries_in_blocks, IsOpen};

    ghost Value = { OutputInProgress };

    ghost view = { λ w. record {
      options = w.options;
      entries = entries_in_blocks w.blocks.items ++ w.current.entries;
      behind = w.current.behind;
    } };

    ghost invariant = { λ w. IsOpen w.options w.blocks.items w.flushed
        (option_map (λ key. key.bytes.now) w.last) w.current };
}

impl<'r, 'a> OpenOutput<'r, 'a> {
    /// No entries, before those from `place` on. Takes no memory.
    pub fn new(alloc: Global, options: Options, place: EntryCursor<'r, 'a>) -> OpenOutput<'r, 'a>
        requires { AreInLimits options }
        ensures { result ≡ record { options = options; entries = []; behind = place.entry } }
    {
        OpenOutput {
            options,
            blocks: Vec::new(alloc),
            flushed: 0,
            last: None,
            current: OpenBlock::new(options.restart_interval, place),
        }
    }

    /// Whether an entry is still to come.
    pub fn has_next(&self) -> bool
        ensures { IsTrue result ↔ (0 < length self.now.behind) }
    {
        self.current.behind().valid()
    }

    /// Takes in the next entries, at least one and at most `most`, and answers how many. It stops
    /// when the data block is full, and before an entry before which the output may end. It must
    /// not end before the first of them.
    pub fn take_in(&mut self, most: u64) -> Result<u64, Fault>
        requires any { 0 < length self.old.behind }
        requires most { 0 < most }
        requires goes_on { ends_by self.old.options self.old.entries self.old.behind ≡ false }
        ensures ok { IfOk result (λ taken. self.new ≡ record {
          options = self.old.options;
          entries = self.old.entries ++ take taken self.old.behind;
          behind = drop taken self.old.behind;
        }) }
        ensures some { IfOk result (λ taken. 0 < taken) }
        ensures most { IfOk result (λ taken. taken ≤ most) }
        ensures left { IfOk result (λ taken. (rest : List Entry) →
            outputs_after self.old.options (self.old.entries ++ take taken self.old.behind) rest
            ≡ outputs_after self.old.options self.old.entries (take taken self.old.behind
            ++ rest)) }
        ensures options { self.new.options ≡ self.old.options }
        ensures memory { IfErr result (λ e. e ≡ fault Memory) }
    {
        self.blocks.reserve(1)?;
        let fits = if self.flushed < self.options.file_size {
            most
        } else {
            1
        };
        let taken = self.current.take_in(self.options, fits);
        self.last = self.current.last_key();
        if self.current.is_full(self.options) {
            let block = self.current.end();
            let flushed = self.flushed.saturating_add(block.len);
            self.flushed = flushed.saturating_add(TRAILER_LEN as u64);
            self.blocks.push(block).unwrap();
        }
        Ok(taken)
    }

    /// Whether the output ends before the next entry.
    pub fn ends_before_next(&self) -> bool
        requires { 0 < length self.now.behind }
        ensures { result ≡ ends_by self.now.options self.now.entries self.now.behind }
    {
        match self.last {
            None => false,
            Some(last) => {
                let next = self.current.behind();
                self.flushed >= self.options.file_size && last.user() != next.key().user()
            }
        }
    }

    /// Ends the output and answers its data blocks, none if it has no entry; and begins another one
    /// after it.
    pub fn end(&mut self, alloc: Global) -> Result<Vec<PlannedBlock<'r, 'a>>, Fault>
        ensures blocks { IfOk result (λ blocks. block_lists blocks.items
            ≡ data_blocks self.old.options self.old.entries) }
        ensures lens { IfOk result
            (λ blocks. AllByRecursion (HasLen self.old.options) blocks.items) }
        ensures new { OnOk result (self.new
            ≡ record { options = self.old.options; entries = []; behind = self.old.behind }) }
        ensures options { self.new.options ≡ self.old.options }
        ensures memory { IfErr result (λ e. e ≡ fault Memory) }
    {
        self.blocks.reserve(1)?;
        if !self.current.is_empty() {
            let block = self.current.end();
            self.blocks.push(block).unwrap();
        }
        self.flushed = 0;
        self.last = None;
        Ok(mem::replace(&mut self.blocks, Vec::new(alloc)))
    }
}

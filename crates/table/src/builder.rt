//! Writing a table, entry by entry.

ghost use Rattle.std.specs.Prelude.{◌≡◌, ◌<◌, ◌^◌, ◌↔◌, [], length, IsTrue, OnOk, OnErr};
ghost use Rattle.std.specs.Prelude.{IfErr};
ghost use Rattle.coding.specs.Answers.{EqualOrMemory, fault};
ghost use Rattle.coding.specs.declared.fault.FaultName.TheVariants.{Memory};
ghost use Rattle.block.specs.BuilderView.{with_entry};
ghost use Rattle.table.specs.Options.{AreInLimits};
ghost use Rattle.table.specs.DataBlocks.{flushed, is_full};
ghost use Rattle.table.specs.Table.{table, within_limit};

use crate::flushed::Flushed;
use crate::options::Options;
use crate::trailer::TRAILER_LEN;
use block::BlockBuilder;
use coding::Fault;
use ikey::{Comparator, InternalKey, internal_separator, internal_successor};
use std::alloc::Global;
use std::marker::{Model, PhantomData};
use std::mem;

/// A table that is being written: its options and its entries so far.
///
/// Entries are added to a block until it reaches the block size. It is flushed when the next entry
/// is added. Why: its index key lies between its last key and that entry's.
#[derive(Drop)]
pub struct TableBuilder<C: Comparator> {
    alloc: Global,
    options: Options,
    /// The blocks that were flushed.
    flushed: Flushed,
    /// The block that takes the next entry, unless it is full.
    block: BlockBuilder,
    /// A block without entries, which takes the next entry if that one is full.
    next: BlockBuilder,
    order: PhantomData<C>,
}

impl<C: Comparator> Model for TableBuilder<C> {
    ghost use Rattle.table.specs.Table.{index_keys};
    ghost use Rattle.table.specs.BuilderView.{TableBuilding};
    ghost use Rattle.table.specs.BuilderState.{entries_so_far, IsAnyTableBuilder, IsSpare};

    ghost Value = { TableBuilding };

    ghost view = { λ b. record {
      options = b.options;
      entries = entries_so_far b.flushed.bytes.items b.flushed.index.items b.block.entries;
    } };

    ghost invariant = { λ b.
        IsAnyTableBuilder (index_keys C.cmp C.short_keys) b.options
        b.flushed.bytes.items b.flushed.index.items b.block
        × IsSpare b.options b.next };
}

impl<C: Comparator> TableBuilder<C> {
    ghost use Rattle.table.specs.BuilderView.{IsAboveLast};

    /// A table without entries. Takes no memory.
    pub fn new(alloc: Global, options: Options) -> TableBuilder<C>
        requires { AreInLimits options }
        ensures { result ≡ record { options = options; entries = [] } }
    {
        TableBuilder {
            alloc,
            options,
            flushed: Flushed {
                bytes: Vec::new(alloc),
                index: Vec::new(alloc),
            },
            block: BlockBuilder::new(alloc, options.restart_interval),
            next: BlockBuilder::new(alloc, options.restart_interval),
            order: PhantomData,
        }
    }

    /// Whether `key` is above the last key, as [`TableBuilder::add`] requires. Without an entry
    /// each key is.
    pub fn is_above_last(&self, key: &InternalKey) -> bool
        ensures { IsTrue result ↔ IsAboveLast C.cmp self.now.entries key.now.bytes.now }
    {
        if self.block.is_empty() {
            return true;
        }
        let last = InternalKey {
            bytes: self.block.last_key(),
        };
        last.compare::<C>(key).is_lt()
    }

    /// Appends an entry. Requires a key above the last one, and a value of at most 16,777,215
    /// bytes.
    pub fn add(&mut self, key: InternalKey, value: &[u8]) -> Result<(), Fault>
        requires above { IsAboveLast C.cmp self.old.entries key.bytes.now }
        requires value_fits { length value.now < 2 ^ 24 }
        ensures ok { OnOk result (self.new ≡ record {
          options = self.old.options;
          entries = with_entry self.old.entries key.entry.bytes.now value.now;
        }) }
        ensures err { OnErr result (self.new ≡ self.old) }
        ensures memory { IfErr result (λ e. e ≡ fault Memory) }
    {
        if !is_full(&self.block, &self.options) {
            self.block.add(key.bytes, value)?;
            return Ok(());
        }
        let last = InternalKey {
            bytes: self.block.last_key(),
        };
        let between = internal_separator::<C>(self.alloc, last, key)?;
        self.next.add(key.bytes, value)?;
        let file_size = self.options.file_size;
        if let Err(refused) = self.flushed.push(between, &self.block, file_size) {
            // The next block is emptied again.
            self.next.clear();
            return Err(refused);
        }
        mem::swap(&mut self.block, &mut self.next);
        self.next.clear();
        Ok(())
    }

    /// The flushed size: the bytes of the data blocks that have reached the block size, each with
    /// the 5 of its trailer. An open block isn't counted.
    pub fn flushed(&self) -> u64
        ensures { result ≡ flushed self.now.options self.now.entries }
    {
        let open = if is_full(&self.block, &self.options) {
            self.block.estimate() + TRAILER_LEN
        } else {
            0
        };
        (self.flushed.bytes.len() + open) as u64
    }

    /// The table of the entries. Faults: TooLarge if it would have more than 2^30 bytes, else only
    /// Memory. A refusal uses the builder up.
    pub fn finish(self) -> Result<Vec<u8>, Fault>
        ensures { EqualOrMemory (λ v. v.items) result
            (within_limit (table C.cmp C.short_keys self.options self.entries)) }
    {
        let TableBuilder {
            alloc,
            mut flushed,
            block,
            ..
        } = self;
        if !block.is_empty() {
            let last = InternalKey {
                bytes: block.last_key(),
            };
            let above = internal_successor::<C>(alloc, last)?;
            flushed.push(above, &block, 0)?;
        }
        flushed.finish(alloc)
    }
}

/// Whether a block has an entry and has reached the block size.
fn is_full(block: &BlockBuilder, options: &Options) -> bool
    requires { block.now.interval ≡ options.now.restart_interval }
    ensures { result ≡ is_full options.now block.now.entries }
{
    !block.is_empty() && block.estimate() as u64 >= options.block_size
}

//! A plan that is made.

ghost use Rattle.std.specs.Prelude.{◌≡◌, ◌<◌, ◌≤◌, ◌↔◌, [], length, slice_get};
ghost use Rattle.std.specs.Prelude.{IfSome, IfOk, IfErr, IsTrue, Ok, Some, map};
ghost use Rattle.coding.specs.Answers.{EqualOrMemory, fault};
ghost use Rattle.coding.specs.declared.fault.FaultName.TheVariants.{Memory};
ghost use Rattle.std.specs.Option.{option_map};
ghost use Rattle.table.specs.DataBlocks.{data_blocks};
ghost use Rattle.table.specs.Table.{table};
ghost use Rattle.table.specs.declared.table_check.TheConstants.{MAX_TABLE_LEN};
ghost use Rattle.cut.specs.OutputMeta.{IsMetaOf};
ghost use Rattle.cut.specs.Plan.{block_ends, encoded_blocks, jobs, plan_tables};
ghost use Rattle.cut.specs.OutputPlan.{lists_in};
ghost use Rattle.cut.specs.declared.output_plan.TheConstants.{MAX_BLOCKS};

use crate::block_numbers::block_of;
use crate::block_summary::{end_of, entries_of, meta_of};
use crate::data_blocks::encode_block;
use crate::entry_ref::EntryRef;
use crate::output_meta::OutputMeta;
use crate::plan_assembly::assemble_all;
use crate::planned_output::PlannedOutput;
use crate::table_assembly::whole_table;
use coding::Fault;
use ikey::Comparator;
use std::alloc::Global;
use std::marker::{Model, PhantomData};
use table::Options;

/// The outputs of a compaction before a byte of them is written. Of each it knows the number, the
/// entries, the ends of its data blocks, and the exact length of its table.
///
/// It holds places, lengths, and the last keys as they lie in their runs. Keys and values stay
/// where the runs have them, and no key is built for an entry. No contract says so.
#[derive(Drop)]
pub struct Plan<'r, 'a, C: Comparator> {
    pub(crate) options: Options,
    pub(crate) outputs: Vec<PlannedOutput<'r, 'a>>,
    /// After how many data blocks of all outputs each output ends.
    pub(crate) ends: Vec<u64>,
    pub(crate) order: PhantomData<C>,
}

impl<'r, 'a, C: Comparator> Model for Plan<'r, 'a, C> {
    ghost use Rattle.std.specs.Prelude.{map};
    ghost use Rattle.table.specs.Table.{table};
    ghost use Rattle.cut.specs.OutputPlan.{PlanSeen};
    ghost use Rattle.cut.specs.PlanInvariant.{planned_of, IsPlan};

    ghost Value = { PlanSeen };

    ghost view = { λ p. record { options = p.options; outputs = map planned_of p.outputs.items } };

    ghost invariant = { λ p. IsPlan (table C.cmp C.short_keys p.options) p.options
        p.outputs.items p.ends.items };
}

impl<'r, 'a, C: Comparator> Plan<'r, 'a, C> {
    /// The number of outputs, at most 2^40: each has a data block.
    pub fn len(&self) -> usize
        ensures number { result ≡ length self.now.outputs }
        ensures few { result ≤ MAX_BLOCKS }
    {
        self.outputs.len()
    }

    /// Whether there are no outputs.
    pub fn is_empty(&self) -> bool
        ensures { IsTrue result ↔ (self.now.outputs ≡ []) }
    {
        self.outputs.is_empty()
    }

    /// The number of data blocks of all outputs, at most 2^40.
    pub fn jobs(&self) -> u64
        ensures number { result ≡ jobs self.now.options (lists_in self.now.outputs) }
        ensures few { result ≤ MAX_BLOCKS }
    {
        self.ends.last().copied().unwrap_or(0)
    }

    /// The bytes of the data block of number `job`, and its trailer. The data blocks of all outputs
    /// in order are numbered from 0.
    ///
    /// The memory of the block is asked for once.
    pub fn encode(&self, alloc: Global, job: u64) -> Result<Vec<u8>, Fault>
        requires { job < jobs self.now.options (lists_in self.now.outputs) }
        ensures ok { IfOk result (λ bytes.
            slice_get (encoded_blocks self.now.options (lists_in self.now.outputs)) job
            ≡ Some bytes.items) }
        ensures memory { IfErr result (λ e. e ≡ fault Memory) }
    {
        let block = block_of(&self.outputs, &self.ends, job);
        encode_block(alloc, block, self.options.restart_interval)
    }

    /// The number and the table of each output. `pieces` are those that [`Plan::encode`] answers,
    /// in the order of their jobs.
    ///
    /// The memory of each table is asked for once, and a piece is dropped once it is copied.
    pub fn assemble(
        &self,
        alloc: Global,
        pieces: Vec<Vec<u8>>,
    ) -> Result<Vec<(u64, Vec<u8>)>, Fault>
        requires { map (λ p. p.items) pieces.items
            ≡ encoded_blocks self.now.options (lists_in self.now.outputs) }
        ensures { EqualOrMemory (λ tables. map (λ t. (t.0, t.1.items)) tables.items) result
            (Ok (plan_tables (table C.cmp C.short_keys self.now.options)
            self.now.outputs)) }
    {
        assemble_all::<C>(alloc, &self.outputs, self.options.restart_interval, pieces)
    }

    /// The number and the table of the output at `place`.
    ///
    /// The memory of the table is asked for once.
    pub fn table(&self, alloc: Global, place: usize) -> Result<(u64, Vec<u8>), Fault>
        requires { place < length self.now.outputs }
        ensures table { IfOk result (λ t.
            slice_get (plan_tables (table C.cmp C.short_keys self.now.options) self.now.outputs)
            place
            ≡ Some (t.0, t.1.items)) }
        ensures memory { IfErr result (λ e. e ≡ fault Memory) }
    {
        let interval = self.options.restart_interval;
        let output = &self.outputs[place];
        let bytes = whole_table::<C>(alloc, &output.blocks, interval, output.len as usize)?;
        Ok((output.number, bytes))
    }

    /// What is known of the output at `place`.
    ///
    /// An output has an entry. Its blocks are the data blocks of its entries under the options of
    /// the plan, and its length, at most 2^30, is that of its table.
    pub fn output(&self, place: usize) -> OutputMeta<'r>
        requires { place < length self.now.outputs }
        ensures meta { IfSome (slice_get self.now.outputs place) (λ p. IsMetaOf p result) }
        ensures ended { IfSome (slice_get self.now.outputs place)
            (λ p. p.blocks ≡ block_ends self.now.options p.entries) }
        ensures sized { IfSome (slice_get self.now.outputs place)
            (λ p. p.length ≡ length (table C.cmp C.short_keys self.now.options p.entries)) }
        ensures fits { result.len ≤ MAX_TABLE_LEN }
    {
        let output = &self.outputs[place];
        meta_of(output)
    }

    /// The entries of a data block of the output at `place`, which stay in their runs. `block`
    /// counts from 0; None if the output has no such block.
    pub fn block(&self, place: usize, block: usize) -> Option<&EntryRef<'r, 'a>>
        requires { place < length self.now.outputs }
        ensures { IfSome (slice_get self.now.outputs place)
            (λ p. option_map (λ entries. entries.now.entries) result
            ≡ slice_get (data_blocks self.now.options p.entries) block) }
    {
        let output = &self.outputs[place];
        entries_of(&output.blocks, block)
    }

    /// Where a data block of the output at `place` ends: how many of the output's entries lie in it
    /// and in the blocks before it. `block` counts from 0; None if the output has no such block.
    pub fn block_end(&self, place: usize, block: usize) -> Option<u64>
        requires { place < length self.now.outputs }
        ensures { IfSome (slice_get self.now.outputs place)
            (λ p. result ≡ slice_get (block_ends self.now.options p.entries) block) }
    {
        let output = &self.outputs[place];
        end_of(&output.blocks, block)
    }
}

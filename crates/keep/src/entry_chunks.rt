//! The kept entries of a range, in chunks.

ghost use Rattle.std.specs.Prelude.{◌≡◌, ◌<◌, ◌≤◌, [], ◌∷◌, ◌++◌, length, take, drop, slice_get};
ghost use Rattle.std.specs.Prelude.{OnOk, OnErr, IsOkUnless, Some, nat_eq};
ghost use Rattle.std.specs.List.{AllByRecursion, common_prefix_len};
ghost use Rattle.reads.specs.BuilderView.{last_key};
ghost use Rattle.coding.specs.Answers.{fault};
ghost use Rattle.coding.specs.declared.fault.FaultName.TheVariants.{Memory};
ghost use Rattle.ikey.specs.Key.{IsInternalKey};
ghost use Rattle.keep.specs.EntryChunks.{all_kept};

use crate::chunk_slice::ChunkSlice;
use crate::entry_chunk::EntryChunk;
use coding::Fault;
use ikey::InternalKey;
use std::alloc::Global;
use std::marker::Model;
use std::mem;

/// The number of entries of a full chunk.
pub const CHUNK_LEN: usize = 4_096;

/// A list of kept entries.
///
/// Why chunks: a growth moves no entry that is there.
#[derive(Drop)]
pub(crate) struct EntryChunks<'a> {
    alloc: Global,
    /// The chunks that are full.
    full: Vec<EntryChunk<'a>>,
    /// The entries after them.
    last: EntryChunk<'a>,
    /// A unit for each entry. Units take no memory, and their number is bounded as that of any
    /// vector.
    tally: Vec<()>,
}

impl<'a> Model for EntryChunks<'a> {
    ghost use Rattle.std.specs.Prelude.{List, length};
    ghost use Rattle.reads.specs.EncodedEntry.{Entry};

    ghost Value = { List Entry };

    ghost use Rattle.keep.specs.EntryChunks.{all_kept, AreInChunks};

    ghost view = { λ l. all_kept l.full.items l.last };

    ghost invariant = { λ l. AreInChunks l.full.items l.last (length l.tally.items) };
}

/// Makes room in `last`: if it is full, it joins `full`, and an empty chunk takes its place.
///
/// The only fault is Memory, which leaves the entries unchanged.
fn make_room<'a>(
    alloc: Global,
    full: &mut Vec<EntryChunk<'a>>,
    last: &mut EntryChunk<'a>,
) -> Result<(), Fault>
    requires { length last.old ≤ 4096 }
    ensures same { all_kept full.new.items last.new ≡ all_kept full.old.items last.old }
    ensures full { AllByRecursion (λ p. length p ≡ 4096) full.old.items →
        AllByRecursion (λ p. length p ≡ 4096) full.new.items }
    ensures last { length last.new ≤ 4096 }
    ensures room { OnOk result (length last.new < 4096) }
    ensures memory { IsOkUnless result (fault Memory) }
{
    if last.len() < CHUNK_LEN {
        return Ok(());
    }
    full.reserve(1)?;
    let empty = last.emptied(alloc)?;
    full.push(mem::replace(last, empty)).unwrap();
    Ok(())
}

/// The chunk of this number: one of `full`, or `last` after them.
fn chunk_of<'k, 'a>(
    full: &'k [EntryChunk<'a>],
    last: &'k EntryChunk<'a>,
    number: usize,
) -> &'k EntryChunk<'a>
    requires { number ≤ length full.now }
    ensures { slice_get (full.now ++ last.now ∷ []) number ≡ Some result.now }
{
    if number < full.len() {
        &full[number]
    } else {
        last
    }
}

impl<'a> EntryChunks<'a> {
    /// The empty list. Takes no memory.
    pub fn new(alloc: Global) -> EntryChunks<'a>
        ensures { result ≡ [] }
    {
        EntryChunks {
            alloc,
            full: Vec::new(alloc),
            last: EntryChunk::new(alloc),
            tally: Vec::new(alloc),
        }
    }

    /// Appends an entry whose key shares `shared` bytes with the last one.
    pub fn push(
        &mut self,
        key: InternalKey<'_>,
        value: &'a [u8],
        shared: usize,
    ) -> Result<(), Fault>
        requires shared { shared
            ≡ common_prefix_len nat_eq (last_key [] self.old) key.bytes.now }
        requires within { shared ≤ length key.bytes.now }
        ensures ok { OnOk result (self.new ≡ self.old
            ++ record { key = key.entry.bytes.now; value = value.now } ∷ []) }
        ensures err { OnErr result (self.new ≡ self.old) }
        ensures memory { IsOkUnless result (fault Memory) }
    {
        self.tally.reserve(1)?;
        make_room(self.alloc, &mut self.full, &mut self.last)?;
        self.last.push(key, value, shared)?;
        self.tally.push(()).unwrap();
        Ok(())
    }

    /// The number of entries. Their keys are internal keys.
    pub fn len(&self) -> usize
        ensures number { result ≡ length self.now }
        ensures keys { AllByRecursion (λ e. IsInternalKey e.key) self.now }
    {
        self.tally.len()
    }

    /// The entries from `place` on that lie in one chunk, at least one.
    #[inline(always)]
    pub fn slice_from(&self, place: usize) -> ChunkSlice<'_, 'a>
        requires { place < length self.now }
        ensures some { 0 < length result }
        ensures front { take (length result) (drop place self.now) ≡ result }
    {
        let chunk = chunk_of(&self.full, &self.last, place / CHUNK_LEN);
        chunk.slice_from(place % CHUNK_LEN)
    }
}

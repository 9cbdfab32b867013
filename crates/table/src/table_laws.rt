//! Laws of what is written.

ghost use Rattle.table.specs.DataBlocks.{DataBlocksLaw};
ghost use Rattle.table.specs.ReadBackLaw.{ReadBackLaw};

use ikey::Comparator;

/// The law of data blocks: each list has one cutting into data blocks. The first is the shortest
/// nonempty beginning whose block has at least the block size, or else all entries; the rest is cut
/// in the same way. No entries give no data block. A call does nothing.
pub fn data_blocks_law()
    ensures { DataBlocksLaw }
{}

/// The law that the table that is written of a list reads as that list. The list has an entry, its
/// internal keys rise strictly, and its values are within their limit. The table has at most 2^30
/// bytes. Options may be any. A call does nothing.
pub fn table_reads_back<C: Comparator>()
    ensures { ReadBackLaw C.cmp C.short_keys }
{}

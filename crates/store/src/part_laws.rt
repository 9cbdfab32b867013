//! The law of closed inputs.

ghost use Rattle.store.specs.ClosedLaws.{ClosedJointLaw};

use compact::passed_law;
use folder::Comparator;
use table::table_reads_back;

/// What a compaction of closed inputs of a lawful version answers makes an edited version, whoever
/// chose them. That one is lawful with the tables that an installation leaves, and answers each
/// readable get as before. Its new files lie within the range of the inputs. A call does nothing.
pub fn closed_is_installed<C: Comparator>()
    ensures { ClosedJointLaw C.cmp C.short_keys }
{
    table_reads_back::<C>();
    passed_law::<C>();
}

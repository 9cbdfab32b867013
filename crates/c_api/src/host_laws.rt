//! The law of a host that makes these calls.

ghost use Rattle.c_api.specs.HostWork.{CallsLaw};
ghost use Rattle.c_api.specs.Hosts.{HostLaw};
ghost use Rattle.c_api.specs.KeptReads.{CallsKeepReads};

use compact::closed_reads_survive;
use ikey::Comparator;

/// The law that a host gets what one thread answers, wherever it parts its inputs. The runs of the
/// ranges have together the outputs of one thread, and the first refusal of a range is the one
/// thread's. A call does nothing.
pub fn host_law<C: Comparator>()
    ensures { HostLaw C.cmp C.short_keys }
{}

/// The law that a host which keeps to what the calls ask has at the end what one thread answers:
/// the tables and the edit, or the number of the first refusal. A call does nothing.
pub fn calls_law<C: Comparator>()
    ensures { CallsLaw C.cmp C.short_keys }
{}

/// The law that such a host keeps the reads of its version, if it has tables and an edit. Let the
/// version be lawful, with files at levels up to 6, and the inputs be over it: they are closed, as
/// [`crate::proved_check_closed`] tells. A call does nothing.
///
/// - The bytes of the edit read as an edit, and every edit that they read as applies.
/// - The version after is lawful with the outputs, and the old tables less those of the inputs.
/// - Each get at a sequence that stays readable answers as before.
pub fn calls_keep_reads<C: Comparator>()
    ensures { CallsKeepReads C.cmp C.short_keys }
{
    calls_law::<C>();
    closed_reads_survive::<C>();
}

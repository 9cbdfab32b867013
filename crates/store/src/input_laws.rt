//! Laws of the inputs of a compaction.

ghost use Rattle.store.specs.InputLaws.{ChosenInOrder, ChosenInstalled};

use crate::part_laws::closed_is_installed;
use folder::Comparator;

/// Chosen inputs have numbers of their own, so each has the bytes that were read for it. A call
/// does nothing.
pub(crate) fn chosen_in_order<C: Comparator>()
    ensures { ChosenInOrder C.cmp }
{}

/// Chosen inputs of a lawful version are closed, so what their compaction answers can be installed.
/// A call does nothing.
pub(crate) fn chosen_is_installed<C: Comparator>()
    ensures { ChosenInstalled C.cmp C.short_keys }
{
    closed_is_installed::<C>();
}

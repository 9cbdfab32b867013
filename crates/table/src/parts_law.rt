//! The law of handles, trailers and footers.

ghost use Rattle.table.specs.Handle.{HandleReadLaw};
ghost use Rattle.table.specs.Trailer.{StoredLaw, OnlyStoredLaw};
ghost use Rattle.table.specs.Footer.{FooterLaw};

/// The law that what is read is what was written. A call does nothing.
///
/// - A handle is read exactly if its spelling begins the bytes.
/// - Contents are read exactly of the bytes that they are stored as.
/// - A footer that was written is read as it was. Other bytes may read as the same footer, since
///   its padding isn't tested.
pub fn parts_read_back()
    ensures handle { HandleReadLaw }
    ensures stored { StoredLaw }
    ensures only_stored { OnlyStoredLaw }
    ensures footer { FooterLaw }
{}

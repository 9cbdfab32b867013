//! Places in what is lent.

ghost use Rattle.std.specs.Prelude.{◌≡◌, true};
ghost use Rattle.c_api.specs.Places.{is_within as lies_within, part_at};

/// A part of lent bytes, or of another lent array.
#[repr(C)]
#[derive(Clone, Copy, Drop)]
pub struct Place {
    /// Where it begins.
    pub from: u64,
    /// How many bytes or items it has.
    pub len: u64,
}

/// Whether all of a place lies within items.
pub(crate) fn is_within<T>(items: &[T], place: Place) -> bool
    ensures { result ≡ lies_within items.now place }
{
    let len = items.len() as u64;
    place.from <= len && place.len <= len - place.from
}

/// The items at a place.
pub(crate) fn part_of<T>(items: &[T], place: Place) -> &[T]
    requires { lies_within items.now place ≡ true }
    ensures { result.now ≡ part_at items.now place }
{
    let (_, rest) = items.split_at(place.from as usize);
    let (part, _) = rest.split_at(place.len as usize);
    part
}

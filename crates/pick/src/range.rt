//! Ranges of user keys.

ghost use Rattle.std.specs.Prelude.{◌≡◌, map};
ghost use Rattle.edit.specs.Key.{user_of};
ghost use Rattle.pick.specs.Ranges.{holds_user as is_holding};
ghost use Rattle.pick.specs.Spans.{lesser_user, greater_user, least_user, greatest_user};
ghost use Rattle.pick.specs.Spans.{is_overlapping, is_covering};

use edit::{Comparator, FileMeta};
use std::cmp::Ordering;

/// The user keys from `smallest` to `largest`, both included.
#[derive(Clone, Copy)]
pub(crate) struct UserRange<'a> {
    /// The first user key.
    pub smallest: &'a [u8],
    /// The last user key.
    pub largest: &'a [u8],
}

impl<'a> UserRange<'a> {
    /// The range of user keys of a file.
    pub fn of(file: &'a FileMeta) -> UserRange<'a>
        ensures smallest { result.smallest.now ≡ user_of file.now.smallest }
        ensures largest { result.largest.now ≡ user_of file.now.largest }
    {
        UserRange {
            smallest: file.smallest.as_key().user(),
            largest: file.largest.as_key().user(),
        }
    }

    /// The range, widened to cover a file's.
    pub fn with<C: Comparator>(self, file: &'a FileMeta) -> UserRange<'a>
        ensures smallest { result.smallest.now
            ≡ lesser_user C.cmp self.entry.smallest.now (user_of file.now.smallest) }
        ensures largest { result.largest.now
            ≡ greater_user C.cmp self.entry.largest.now (user_of file.now.largest) }
    {
        let other = UserRange::of(file);
        let smallest = match C::compare(other.smallest, self.smallest) {
            Ordering::Less => other.smallest,
            _ => self.smallest,
        };
        let largest = match C::compare(self.largest, other.largest) {
            Ordering::Less => other.largest,
            _ => self.largest,
        };
        UserRange { smallest, largest }
    }

    /// The range, widened to cover that of each file.
    pub fn over<C: Comparator>(self, files: &[&'a FileMeta]) -> UserRange<'a>
        ensures smallest { result.smallest.now
            ≡ least_user C.cmp self.entry.smallest.now (map (λ f. f.now) files.now) }
        ensures largest { result.largest.now
            ≡ greatest_user C.cmp self.entry.largest.now (map (λ f. f.now) files.now) }
    {
        let mut range = self;
        for file in files {
            range = range.with::<C>(*file);
        }
        range
    }

    /// Whether the range of a file overlaps this one.
    pub fn overlaps<C: Comparator>(self, file: &FileMeta) -> bool
        ensures { result
            ≡ is_overlapping C.cmp self.entry.smallest.now self.entry.largest.now file.now }
    {
        C::compare(self.smallest, file.largest.as_key().user()).is_le()
            && C::compare(file.smallest.as_key().user(), self.largest).is_le()
    }

    /// Whether this range covers that of a file.
    pub fn covers<C: Comparator>(self, file: &FileMeta) -> bool
        ensures { result
            ≡ is_covering C.cmp self.entry.smallest.now self.entry.largest.now file.now }
    {
        C::compare(self.smallest, file.smallest.as_key().user()).is_le()
            && C::compare(file.largest.as_key().user(), self.largest).is_le()
    }
}

/// Whether the range of a file holds `user_key`.
pub(crate) fn holds_user<C: Comparator>(file: &FileMeta, user_key: &[u8]) -> bool
    ensures { result ≡ is_holding C.cmp user_key.now file.now }
{
    C::compare(file.smallest.as_key().user(), user_key).is_le()
        && C::compare(user_key, file.largest.as_key().user()).is_le()
}

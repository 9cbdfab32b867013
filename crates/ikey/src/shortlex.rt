//! The order of user keys by length first.

ghost use Rattle.ikey.specs.Shortlex.{shortlex_name, shortlex_cmp, shortlex_head};
ghost use Rattle.ikey.specs.Shortlex.{shortlex_short_keys};
ghost use Rattle.ikey.specs.ShortlexLaws.{shortlex_total, shortlex_exact, shortlex_rises};
ghost use Rattle.ikey.specs.ShortlexLaws.{shortlex_between, shortlex_above};

use crate::bytewise::leading;
use crate::comparator::{Comparator, SharedComparator};
use coding::Fault;
use std::alloc::Global;
use std::cmp::Ordering;

/// Shorter user keys first, equally long ones as unsigned bytes. The separator is its first key,
/// and the successor the key itself.
pub struct Shortlex;

impl Comparator for Shortlex {
    ghost name_bytes = { shortlex_name };

    ghost cmp = { shortlex_cmp };

    ghost head_of = { shortlex_head };

    ghost short_keys = { shortlex_short_keys };

    ghost total = { shortlex_total };

    ghost exact = { shortlex_exact };

    ghost rising = { shortlex_rises };

    ghost between = { shortlex_between };

    ghost above = { shortlex_above };

    fn name() -> &'static str {
        "subcompaction.ShortlexComparator"
    }

    fn compare(a: &[u8], b: &[u8]) -> Ordering {
        a.len().cmp(&b.len()).then_with(|| a.cmp(b))
    }

    #[inline]
    #[tactic(auto, unfolding(crate::specs::Shortlex::shortlex_head))]
    fn head(key: &[u8]) -> u128 {
        key.len() as u128 * 0x1_0000_0000_0000_0000 + leading(key) / 0x1_0000_0000_0000_0000
    }

    fn separator(alloc: Global, start: &[u8], _limit: &[u8]) -> Result<Vec<u8>, Fault> {
        Ok(Vec::from_slice(alloc, start)?)
    }

    fn successor(alloc: Global, key: &[u8]) -> Result<Vec<u8>, Fault> {
        Ok(Vec::from_slice(alloc, key)?)
    }
}

impl SharedComparator for Shortlex {}

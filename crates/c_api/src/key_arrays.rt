//! User keys in arrays.

ghost use Rattle.std.specs.Prelude.{◌≡◌, ◌<◌, length, slice_get, Some, Ok};
ghost use Rattle.ikey.specs.Answers.{EqualOrMemory};
ghost use Rattle.c_api.specs.Boundaries.{AreKeysPut, arrays_of_keys, have_room, key_arrays};
ghost use Rattle.c_api.specs.Boundaries.{size_of_keys};
ghost use Rattle.c_api.specs.Held.{keys_in};

use crate::code::{DONE, ROOM};
use crate::room::fill;
use ikey::{Comparator, Fault};
use split::Split;
use std::alloc::Global;

/// How much room user keys take.
#[repr(C)]
#[derive(Clone, Copy, Drop)]
pub struct KeysSize {
    /// The bytes of all keys.
    pub bytes: u64,
    /// The number of keys.
    pub keys: u64,
}

/// Boundary `number` of a split.
fn boundary<C: Comparator>(split: &Split<C>, number: u64) -> &[u8]
    requires { number < length split.now }
    ensures { slice_get split.now number ≡ Some result.now }
{
    match split.range(number).upper {
        Some(key) => key,
        None => unreachable!(),
    }
}

/// User keys in arrays: their bytes one after the other, and how long each is.
#[derive(Drop)]
pub(crate) struct KeyArrays {
    pub bytes: Vec<u8>,
    pub lengths: Vec<u64>,
}

impl KeyArrays {
    /// Those of the boundaries of a split.
    pub fn of<C: Comparator>(alloc: Global, split: &Split<C>) -> Result<KeyArrays, Fault>
        ensures { EqualOrMemory keys_in result (Ok (arrays_of_keys split.now)) }
    {
        let mut bytes = Vec::new(alloc);
        let mut lengths = Vec::new(alloc);
        for number in 0..split.len() - 1 {
            let key = boundary::<C>(split, number);
            bytes.extend_from_slice(key)?;
            lengths.push(key.len() as u64)?;
        }
        Ok(KeyArrays { bytes, lengths })
    }

    /// How much room they take.
    fn size(&self) -> KeysSize
        ensures { result ≡ size_of_keys (keys_in self.now) }
    {
        KeysSize {
            bytes: self.bytes.len() as u64,
            keys: self.lengths.len() as u64,
        }
    }

    /// Whether rooms are large enough for them.
    fn fits(&self, bytes: &[u8], lengths: &[u64]) -> bool
        ensures { result ≡ have_room (key_arrays bytes.now lengths.now) (keys_in self.now) }
    {
        self.bytes.len() <= bytes.len() && self.lengths.len() <= lengths.len()
    }

    /// Puts each array at the beginning of its room, if both rooms are large enough. `size` is how
    /// much they take.
    pub fn put(&self, bytes: &mut [u8], lengths: &mut [u64], size: &mut KeysSize) -> u32
        ensures { AreKeysPut result (key_arrays bytes.old lengths.old)
            (key_arrays bytes.new lengths.new) size.new (keys_in self.now) }
    {
        *size = self.size();
        if !self.fits(bytes, lengths) {
            return ROOM;
        }
        fill(&self.bytes, bytes);
        fill(&self.lengths, lengths);
        DONE
    }
}

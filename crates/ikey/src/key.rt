//! An internal key in the bytes where it lies.

ghost use Rattle.std.specs.Prelude.{◌≡◌, ◌^◌, ◌<◌, ◌≤◌, ◌↔◌, length, IsOk};
ghost use Rattle.std.specs.Result.{result_map_both};
ghost use Rattle.ikey.specs.Key.{IsInternalKey, internal_key_reading, user_of, tag_of, sequence_of};
ghost use Rattle.ikey.specs.Key.{kind_of};
ghost use Rattle.ikey.specs.Order.{internal_cmp};
ghost use Rattle.ikey.specs.declared.key.TheConstants.{TAG_LEN};
ghost use Rattle.std.specs.Cmp.{IsTotalOrder};
ghost use Rattle.std.specs.declared.cmp.Ordering.TheVariants.{Equal};

use crate::comparator::Comparator;
use crate::kind::Kind;
use byteorder::{ByteOrder, LittleEndian};
use coding::{Fault, FaultName};
use std::cmp::Ordering;

/// The most bytes of a user key.
pub const MAX_USER_KEY: usize = 65_535;

/// The greatest sequence, 2^56 - 1.
pub const MAX_SEQUENCE: u64 = 0xff_ffff_ffff_ffff;

/// The bytes of a tag, which comes after the user key: `sequence * 256 + type`.
pub const TAG_LEN: usize = 8;

/// The bytes of an internal key: a user key, and then 8 bytes of `sequence * 256 + type`.
#[derive(Clone, Copy)]
pub struct InternalKey<'a> {
    /// The bytes of the whole key.
    pub bytes: &'a [u8],
    ghost lawful: { IsInternalKey bytes.now },
}

impl<'a> InternalKey<'a> {
    /// The internal key that `bytes` are. Takes no memory. The first test that fails names the
    /// fault:
    ///
    /// 1. Key: there are fewer than 8 bytes, or the type is neither 0 nor 1.
    /// 2. TooLarge: the user key has more than 65,535 bytes.
    pub fn parse(bytes: &'a [u8]) -> Result<InternalKey<'a>, Fault>
        ensures reading { result_map_both (λ key. key.bytes.now) (λ e. e) result
            ≡ internal_key_reading bytes.now }
        ensures accepted { IsOk result ↔ IsInternalKey bytes.now }
    {
        if bytes.len() < TAG_LEN || tag(bytes) % 256 > 1 {
            return Err(Fault::of(FaultName::Key));
        }
        if bytes.len() - TAG_LEN > MAX_USER_KEY {
            return Err(Fault::of(FaultName::TooLarge));
        }
        Ok(InternalKey { bytes })
    }

    /// The bytes of the whole key.
    pub fn bytes(&self) -> &'a [u8]
        ensures { result.now ≡ self.now.bytes.now }
    {
        self.bytes
    }

    /// The user key.
    pub fn user(&self) -> &'a [u8]
        ensures { result.now ≡ user_of self.now.bytes.now }
    {
        &self.bytes[..self.bytes.len() - TAG_LEN]
    }

    /// The sequence, below 2^56.
    pub fn sequence(&self) -> u64
        ensures value { result ≡ sequence_of self.now.bytes.now }
        ensures fits { result < 2 ^ 56 }
    {
        tag(self.bytes) / 256
    }

    /// The type.
    pub fn kind(&self) -> Kind
        ensures { result ≡ kind_of self.now.bytes.now }
    {
        if tag(self.bytes) % 256 == 1 {
            Kind::Put
        } else {
            Kind::Delete
        }
    }

    /// The order of two internal keys: user key rising, then sequence falling, then type falling.
    pub fn compare<C: Comparator>(&self, other: &InternalKey) -> Ordering
        ensures order { result ≡ internal_cmp C.cmp self.now.bytes.now other.now.bytes.now }
        ensures exact { result ≡ Equal → self.now.bytes.now ≡ other.now.bytes.now }
    {
        C::compare(self.user(), other.user()).then_with(|| tag(other.bytes).cmp(&tag(self.bytes)))
    }
}

/// The law that internal keys are totally ordered, by every comparator. A call does nothing.
pub fn order_is_total<C: Comparator>()
    ensures { IsTotalOrder (internal_cmp C.cmp) }
{}

/// The number in the last 8 bytes.
#[tactic(auto, unfolding(crate::specs::Key::tag_of))]
fn tag(bytes: &[u8]) -> u64
    requires { TAG_LEN ≤ length bytes.now }
    ensures { result ≡ tag_of bytes.now }
{
    LittleEndian::read_u64(&bytes[bytes.len() - TAG_LEN..])
}

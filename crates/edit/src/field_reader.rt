//! Reading one field at the front of bytes. Nothing is copied.

ghost use Rattle.std.specs.Prelude.{◌≡◌, ◌^◌};
ghost use Rattle.std.specs.Option.{option_map};
ghost use Rattle.std.specs.Result.{result_map_both};
ghost use Rattle.edit.specs.CodeFields.{field_in};
ghost use Rattle.edit.specs.FieldReader.{varint_at, slice_at, level_at, text_at, key_at};
ghost use Rattle.edit.specs.FieldReader.{pointer_at, deleted_at, added_at, content_at, field_at};

use crate::field::{Field, FileContent, PointerContent};
use crate::meta::{DeletedFile, LEVELS};
use crate::tag::Tag;
use coding::{Fault, FaultName, read_u32_varint, read_u64_varint};
use ikey::InternalKey;

/// The field at the front of `bytes`, and the bytes after it.
///
/// EditTag if a varint below 2^32 is there that is no tag; else EditField if no field is there.
#[tactic(auto, unfolding(crate::specs::FieldReader::field_at))]
pub(crate) fn field_at(bytes: &[u8]) -> Result<(Field<'_>, &[u8]), Fault>
    ensures { result_map_both (λ x. (field_in x.0, x.1.now)) (λ e. e) result ≡ field_at bytes.now }
{
    let Some((number, rest)) = short_number_at(bytes) else {
        return Err(Fault::of(FaultName::EditField));
    };
    let Some(tag) = Tag::listed(number) else {
        return Err(Fault::of(FaultName::EditTag));
    };
    content_at(tag, rest).ok_or(Fault::of(FaultName::EditField))
}

/// The content of a field of this tag, and the bytes after it.
fn content_at(tag: Tag, bytes: &[u8]) -> Option<(Field<'_>, &[u8])>
    ensures { option_map (λ x. (field_in x.0, x.1.now)) result ≡ content_at tag bytes.now }
{
    match tag {
        Tag::Comparator => {
            let (name, rest) = text_at(bytes)?;
            Some((Field::Comparator(name), rest))
        }
        Tag::LogNumber => {
            let (number, rest) = number_at(bytes)?;
            Some((Field::LogNumber(number), rest))
        }
        Tag::NextFile => {
            let (number, rest) = number_at(bytes)?;
            Some((Field::NextFile(number), rest))
        }
        Tag::LastSequence => {
            let (number, rest) = number_at(bytes)?;
            Some((Field::LastSequence(number), rest))
        }
        Tag::Pointer => pointer_at(bytes),
        Tag::Deleted => deleted_at(bytes),
        Tag::Added => added_at(bytes),
        Tag::PreviousLog => {
            let (number, rest) = number_at(bytes)?;
            Some((Field::PreviousLog(number), rest))
        }
    }
}

/// A compact pointer: level, and length-prefixed internal key.
#[tactic(auto, unfolding(crate::specs::FieldReader::pointer_at))]
fn pointer_at(bytes: &[u8]) -> Option<(Field<'_>, &[u8])>
    ensures { option_map (λ x. (field_in x.0, x.1.now)) result ≡ pointer_at bytes.now }
{
    let (level, rest) = level_at(bytes)?;
    let (key, rest) = key_at(rest)?;
    Some((Field::Pointer(PointerContent { level, key }), rest))
}

/// A deleted file: level and number.
#[tactic(auto, unfolding(crate::specs::FieldReader::deleted_at))]
fn deleted_at(bytes: &[u8]) -> Option<(Field<'_>, &[u8])>
    ensures { option_map (λ x. (field_in x.0, x.1.now)) result ≡ deleted_at bytes.now }
{
    let (level, rest) = level_at(bytes)?;
    let (number, rest) = number_at(rest)?;
    Some((Field::Deleted(DeletedFile { level, number }), rest))
}

/// A new file: level, number, size, and length-prefixed smallest and largest key.
#[tactic(auto, unfolding(crate::specs::FieldReader::added_at))]
fn added_at(bytes: &[u8]) -> Option<(Field<'_>, &[u8])>
    ensures { option_map (λ x. (field_in x.0, x.1.now)) result ≡ added_at bytes.now }
{
    let (level, rest) = level_at(bytes)?;
    let (number, rest) = number_at(rest)?;
    let (size, rest) = number_at(rest)?;
    let (smallest, rest) = key_at(rest)?;
    let (largest, rest) = key_at(rest)?;
    let file = FileContent {
        level,
        number,
        size,
        smallest,
        largest,
    };
    Some((Field::Added(file), rest))
}

/// A length-prefixed internal key.
#[tactic(auto, unfolding(crate::specs::FieldReader::key_at))]
fn key_at(bytes: &[u8]) -> Option<(InternalKey<'_>, &[u8])>
    ensures { option_map (λ x. (x.0.bytes.now, x.1.now)) result ≡ key_at bytes.now }
{
    let (bytes, rest) = slice_at(bytes)?;
    let key = InternalKey::parse(bytes).ok()?;
    Some((key, rest))
}

/// A length-prefixed text, which is UTF-8.
#[tactic(auto, unfolding(crate::specs::FieldReader::text_at))]
fn text_at(bytes: &[u8]) -> Option<(&str, &[u8])>
    ensures { option_map (λ x. (x.0.now, x.1.now)) result ≡ text_at bytes.now }
{
    let (bytes, rest) = slice_at(bytes)?;
    match str::from_utf8(bytes) {
        Ok(text) => Some((text, rest)),
        Err(_) => None,
    }
}

/// A level, from 0 to 6.
#[tactic(auto, unfolding(crate::specs::FieldReader::level_at))]
fn level_at(bytes: &[u8]) -> Option<(u64, &[u8])>
    ensures { option_map (λ x. (x.0, x.1.now)) result ≡ level_at bytes.now }
{
    let (level, rest) = short_number_at(bytes)?;
    let level = u64::from(level);
    if level >= LEVELS {
        return None;
    }
    Some((level, rest))
}

/// A length-prefixed slice. The length is compared with the bytes that are there.
#[tactic(auto, unfolding(crate::specs::FieldReader::slice_at))]
fn slice_at(bytes: &[u8]) -> Option<(&[u8], &[u8])>
    ensures { option_map (λ x. (x.0.now, x.1.now)) result ≡ slice_at bytes.now }
{
    let (len, rest) = short_number_at(bytes)?;
    let len = len as usize;
    if len > rest.len() {
        return None;
    }
    Some(rest.split_at(len))
}

/// A varint below 2^32.
#[tactic(auto, unfolding(crate::specs::FieldReader::varint_at))]
fn short_number_at(bytes: &[u8]) -> Option<(u32, &[u8])>
    ensures { option_map (λ x. (x.0, x.1.now)) result ≡ varint_at (2 ^ 32) bytes.now }
{
    let (number, used) = read_u32_varint(bytes)?;
    let (_, rest) = bytes.split_at(used);
    Some((number, rest))
}

/// A varint below 2^64.
#[tactic(auto, unfolding(crate::specs::FieldReader::varint_at))]
fn number_at(bytes: &[u8]) -> Option<(u64, &[u8])>
    ensures { option_map (λ x. (x.0, x.1.now)) result ≡ varint_at (2 ^ 64) bytes.now }
{
    let (number, used) = read_u64_varint(bytes)?;
    let (_, rest) = bytes.split_at(used);
    Some((number, rest))
}

//! Which limit an edit passes whose field is refused.

use coding::read_u64_varint;
use edit::LAST_LEVEL;
use ikey::{MAX_USER_KEY, TAG_LEN};

/// The most bytes of an internal key that is compacted here.
const MAX_KEY: u64 = (MAX_USER_KEY + TAG_LEN) as u64;

/// A limit of a field that an edit passes.
#[derive(Clone, Copy)]
pub(crate) enum Limit {
    /// A key is longer than any that is compacted here.
    Key,
    /// This level is above 6.
    Level(u64),
}

/// What is read of an edit up to a place: the bytes after it, or why no more is read. None if that
/// is no limit.
type Reading<T> = Result<T, Option<Limit>>;

/// The limit that the first field of an edit passes which can't be read. None if it is refused for
/// another reason.
pub(crate) fn limit_passed(record: &[u8]) -> Option<Limit> {
    fields_read(record).err().flatten()
}

/// Reads all fields of an edit. Each has a byte at least.
fn fields_read(record: &[u8]) -> Reading<()> {
    let mut rest = record;
    for _ in 0..record.len() {
        if !rest.is_empty() {
            rest = after_field(rest)?;
        }
    }
    Ok(())
}

/// The bytes after the first field.
fn after_field(bytes: &[u8]) -> Reading<&[u8]> {
    let (tag, rest) = number(bytes)?;
    match tag {
        1 => Ok(slice(rest)?.1),
        2 | 3 | 4 | 9 => Ok(number(rest)?.1),
        5 => after_key(after_level(rest)?),
        6 => Ok(number(after_level(rest)?)?.1),
        7 => after_file(rest),
        _ => Err(None),
    }
}

/// The bytes after a new file: its level, number, size, and two keys.
fn after_file(bytes: &[u8]) -> Reading<&[u8]> {
    let rest = after_level(bytes)?;
    let (_, rest) = number(rest)?;
    let (_, rest) = number(rest)?;
    after_key(after_key(rest)?)
}

/// The bytes after a level. Level if it is above 6.
fn after_level(bytes: &[u8]) -> Reading<&[u8]> {
    let (level, rest) = number(bytes)?;
    if level > LAST_LEVEL {
        return Err(Some(Limit::Level(level)));
    }
    Ok(rest)
}

/// The bytes after a key. Key if it is longer than any that is compacted here.
fn after_key(bytes: &[u8]) -> Reading<&[u8]> {
    let (key, rest) = slice(bytes)?;
    if key.len() as u64 > MAX_KEY {
        return Err(Some(Limit::Key));
    }
    Ok(rest)
}

/// A slice, and the bytes after it.
fn slice(bytes: &[u8]) -> Reading<(&[u8], &[u8])> {
    let (len, rest) = number(bytes)?;
    if len > rest.len() as u64 {
        return Err(None);
    }
    Ok(rest.split_at(len as usize))
}

/// A varint, and the bytes after it.
fn number(bytes: &[u8]) -> Reading<(u64, &[u8])> {
    let Some((number, used)) = read_u64_varint(bytes) else {
        return Err(None);
    };
    let (_, rest) = bytes.split_at(used.min(bytes.len()));
    Ok((number, rest))
}

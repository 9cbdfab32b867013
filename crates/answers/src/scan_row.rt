//! The line of a key and its value, as one of many.

ghost use Rattle.std.specs.Prelude.{◌≡◌, ◌++◌, length, take, IsOkUnless, OnErr, OnOk};
ghost use Rattle.std.specs.Option.{option_map};
ghost use Rattle.table.specs.Answers.{fault};
ghost use Rattle.table.specs.fault.FaultName.TheVariants.{Memory};
ghost use Rattle.answers.specs.ValueForms.{key_line};

use table::Fault;
use texts::Spelling;

/// Appends the line `KEY VALUE`, or `KEY` if no value is given.
///
/// A key's text has no space, so the line is a key up to its first space and a value after that
/// ([`texts_law`](crate::texts_law)). Memory may leave a part of the line after what was there.
pub fn push_row(
    lines: &mut Vec<u8>,
    spelling: Spelling,
    key: &[u8],
    value: Option<&[u8]>,
) -> Result<(), Fault>
    ensures ok { OnOk result (lines.new.items ≡ lines.old.items
        ++ key_line spelling key.now (option_map (λ bytes. bytes.now) value.entry)) }
    ensures err { OnErr result (take (length lines.old.items) lines.new.items ≡ lines.old.items) }
    ensures memory { IsOkUnless result (fault Memory) }
{
    match value {
        Some(bytes) => {
            spelling.push_key(lines, key)?;
            lines.push(b' ')?;
            spelling.push_value(lines, bytes)?;
            lines.push(b'\n')?;
            Ok(())
        }
        None => {
            spelling.push_key(lines, key)?;
            lines.push(b'\n')?;
            Ok(())
        }
    }
}

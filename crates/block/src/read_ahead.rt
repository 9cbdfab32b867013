//! Memory that is read ahead of a walk.
//!
//! Where an entry begins is known only when the one before it was read. So a walk waits for memory
//! at each line that the processor did not foresee, and it foresees little if many walks take
//! turns. A window's lines are read together, and waited for together.

ghost use Rattle.std.specs.Prelude.{◌≡◌, ◌<◌, ◌≤◌, ◌-◌, ◌*◌, ◌/◌, length, min};
ghost use Rattle.block.specs.FoldedLines.{folded_lines};

/// The bytes of a line of memory, as a processor reads it.
const LINE_LEN: usize = 64;
/// The greatest number of bytes that are read ahead together.
const WINDOW_LEN: usize = 1024;

/// How far the bytes of a walk were read ahead.
#[derive(Clone, Copy)]
pub(crate) struct ReadAhead {
    /// The number of bytes that were left after the last window.
    left: usize,
    /// The first bytes of the last window's lines, folded. Why: so the compiler keeps their
    /// reading.
    folded: u8,
}

impl ReadAhead {
    /// Before anything was read ahead.
    pub(crate) fn nothing() -> ReadAhead
        ensures left { result.left ≡ 0xffffffffffffffff }
        ensures folded { result.folded ≡ 0 }
    {
        ReadAhead {
            left: usize::MAX,
            folded: 0,
        }
    }

    /// Reads the next window of `rest`, the bytes still to be walked, if the walk has passed the
    /// last one.
    #[inline]
    pub(crate) fn reach(&mut self, rest: &[u8])
        ensures before { self.old.left < length rest.now → self.new ≡ self.old }
        ensures left { length rest.now ≤ self.old.left → self.new.left ≡ length rest.now - 1024 }
        ensures folded { length rest.now ≤ self.old.left →
            self.new.folded ≡ folded_lines (min (length rest.now) 1024 / 64) rest.now }
    {
        if rest.len() <= self.left {
            let window_len = rest.len().min(WINDOW_LEN);
            *self = ReadAhead {
                left: rest.len() - window_len,
                folded: folded_lines(rest, window_len / LINE_LEN),
            };
        }
    }
}

/// The first byte of each of the first `lines` lines, folded.
fn folded_lines(bytes: &[u8], lines: usize) -> u8
    requires { lines * 64 ≤ length bytes.now }
    ensures { result ≡ folded_lines lines bytes.now }
{
    let mut folded = 0u8;
    for line in 0..lines {
        folded ^= bytes[LINE_LEN * line];
    }
    folded
}

//! Files that are counted.

ghost use Rattle.std.specs.Prelude.{◌≡◌, ◌+◌};
ghost use Rattle.table.specs.Saturated.{saturated};

/// Files of a folder: how many, and their bytes.
#[derive(Clone, Copy, PartialEq, Eq)]
pub struct FileTotal {
    /// How many files there are.
    pub files: u64,
    /// How many bytes they have together.
    pub bytes: u64,
}

impl FileTotal {
    /// No file.
    pub fn none() -> FileTotal
        ensures { result ≡ record { files = 0; bytes = 0 } }
    {
        FileTotal { files: 0, bytes: 0 }
    }

    /// The same with one more file of this many bytes. Both sums saturate at 2^64 - 1.
    pub fn with(self, bytes: u64) -> FileTotal
        ensures { result ≡ record {
          files = saturated (self.files + 1);
          bytes = saturated (self.bytes + bytes);
        } }
    {
        FileTotal {
            files: self.files.saturating_add(1),
            bytes: self.bytes.saturating_add(bytes),
        }
    }
}

//! What a refusal means and what to do about it, in plain words.

use coding::FaultName;

/// What is wrong, and what to do about it.
#[derive(Clone, Copy)]
pub struct Words {
    pub wrong: &'static str,
    pub remedy: &'static str,
}

/// How writes in a log become tables that are read here.
pub const CLOSE_ONCE: &str = "open and close the database once with LevelDB, with compression off \
    and the same filter, if any";

/// The words of a path where no folder is.
pub const NO_FOLDER: Words = Words {
    wrong: "there is no such folder",
    remedy: "give the folder of a database",
};

/// The words of a refusal that is about a folder or a machine; if there are none, those of a file
/// that is refused so.
pub fn in_words(name: FaultName) -> Words {
    let (wrong, remedy) = match name {
        FaultName::Locked => (
            "another program, or another sedvokt, uses the database",
            "close it, or wait until it ends, and try again",
        ),
        FaultName::Changed => (
            "another program changed the database meanwhile",
            "run it again",
        ),
        FaultName::Logs => ("a log has writes that are in no table", CLOSE_ONCE),
        FaultName::Device => ("a call of the system failed", "run it again"),
        FaultName::Memory => (
            "there is not enough memory to hold all that is read",
            "give the program more of it",
        ),
        FaultName::Numbers => (
            "the numbers of new files would pass 18446744073709551615",
            "copy what it holds into a new database",
        ),
        FaultName::Duplicate => (
            "one user key and sequence come twice",
            "restore the folder from a copy",
        ),
        FaultName::Lawless => (
            "the version is not lawful",
            "restore the folder from a copy, or have LevelDB compact all of it",
        ),
        name => return of_settings(name),
    };
    Words { wrong, remedy }
}

/// The words of a refusal of what was asked for, or of a file.
fn of_settings(name: FaultName) -> Words {
    let (wrong, remedy) = match name {
        FaultName::NoInput => (
            "there is nothing to compact at this level: it has no file",
            "manifest shows which levels have files",
        ),
        FaultName::Level => ("this level cannot be compacted", "give a level from 0 to 5"),
        FaultName::Workers => ("--workers is outside 1 to 64", "give a number within"),
        FaultName::SplitCount => ("--ranges is outside 1 to 4096", "give a number within"),
        FaultName::Options => (
            "the compaction takes more than 256 files",
            "have LevelDB compact the level",
        ),
        FaultName::Snapshot => (
            "the last sequence is 72057594037927935 or more, which no database reaches",
            "restore the folder from a copy",
        ),
        FaultName::SnapshotList => (
            "--snapshots does not rise, or has a sequence above the last one",
            "leave that sequence out",
        ),
        FaultName::TooLarge => (
            "an output would have more than 1073741824 bytes, or all more than 2^40 data blocks",
            "give a smaller --file-size, or a larger --block-size",
        ),
        name => return of_file(name),
    };
    Words { wrong, remedy }
}

/// The words of a file that is refused: here those of a manifest, or of CURRENT.
pub fn of_file(name: FaultName) -> Words {
    let (wrong, remedy) = match name {
        FaultName::LogShape => (
            "it is not laid out as a log of whole records: the database is damaged",
            "restore the folder from a copy, or open it once with LevelDB, which drops a cut end",
        ),
        FaultName::LogChecksum => (
            "a record's checksum is wrong: the database is damaged",
            "restore the folder from a copy",
        ),
        FaultName::EditTag => (
            "a version edit has a tag that LevelDB does not write: another program's, as \
                RocksDB's, or damage",
            "use the program that wrote it, or restore the folder from a copy",
        ),
        FaultName::EditField => (
            "a field of a version edit is not as LevelDB writes it: another program's, or damage",
            "use the program that wrote it, or restore the folder from a copy",
        ),
        FaultName::Comparator => (
            "it names no comparator that is known",
            "compact it with the program that wrote it",
        ),
        FaultName::Apply => (
            "it names no manifest: the database is damaged",
            "restore the folder from a copy",
        ),
        name => return of_table(name),
    };
    Words { wrong, remedy }
}

/// The words of a table that is refused.
fn of_table(name: FaultName) -> Words {
    let wrong = match name {
        FaultName::Missing => "it is missing",
        FaultName::Short => "it is shorter than a table's footer",
        FaultName::Magic => "it does not end as a table does",
        FaultName::Handle => "it does not say where its blocks are",
        FaultName::Range => "a block would lie outside the file",
        FaultName::Trailer => "a block's checksum is wrong",
        FaultName::Key => "a key is no internal key",
        FaultName::Empty => "it, or a block of it, has no entry",
        FaultName::Order => "its keys do not rise",
        FaultName::Index => "its index does not fit its blocks",
        FaultName::Bounds => "its size or its keys are not those that the manifest says",
        name => return of_other_table(name),
    };
    Words {
        wrong,
        remedy: "restore the file from a copy",
    }
}

/// The words of a table that a copy of the file may not help.
fn of_other_table(name: FaultName) -> Words {
    let (wrong, remedy) = match name {
        FaultName::Size => (
            "it has more than 1073741824 bytes, the most that a table may have",
            "have LevelDB compact the database",
        ),
        FaultName::Compressed => (
            "a block is compressed",
            "copy all keys into a new database made with kNoCompression, since to compact this one \
                without compression does not rewrite its deepest tables",
        ),
        FaultName::BlockType => (
            "a block is of an unknown type",
            "restore the file from a copy, or copy all keys into a new database made with \
                kNoCompression",
        ),
        FaultName::Block => (
            "a block's bytes cannot be read as entries: another library's, as iq80's for Java, or \
                damage",
            "copy all keys into a new database made with LevelDB, or restore the file from a copy",
        ),
        FaultName::TooLarge => (
            "a user key has more than 65535 bytes, or a value more than 16777215: no more is \
                compacted here",
            "leave its compaction to LevelDB, which has no such limit: here only shorter keys and \
                values help",
        ),
        _ => ("it is refused", "restore the file from a copy"),
    };
    Words { wrong, remedy }
}

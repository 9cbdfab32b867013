//! What is told of the commands that write, or that are for one which does.

use crate::argument::{Argument, Rule};
use crate::descriptions::{
    CLEANS, Description, FAIL_ON_LOGS, FOLDER, JSON, MEMORY, NO_VERIFY, SNAPSHOT, SNAPSHOTS,
};

pub(crate) const COMPACT: Description<'static> = Description {
    name: "compact",
    usage: "sedvokt compact DIR <--level N|--all> [OPTIONS]",
    about: "Compacts a level, or all, and prints which files are new and gone",
    examples: "Prints a line a file: output NUMBER BYTES, or deleted LEVEL NUMBER; then the
manifest that is installed.

Examples: sedvokt compact DIR --level 0
          sedvokt compact DIR --level 1 --whole
          sedvokt compact DIR --all --snapshots 900,1151 --clean
          sedvokt compact DIR --level 0 --out OUT",
    arguments: &[
        FOLDER,
        Argument::Number("level", "N", "The level: 0 to 5"),
        Argument::Flag(
            "all",
            "All levels: each that has files, from 0 down, until\n\
                all files are at one level: the deepest that has\n\
                files, or level 1",
        ),
        Argument::Flag(
            "whole",
            "All files of the level, in parts that share no user\n\
                key, one after the other, with one manifest for all",
        ),
        Argument::Value(
            "out",
            "OUT",
            "With --level: an empty folder, or a new one, that\n\
                gets the new tables and the version edit; DIR is\n\
                only read",
        ),
        Argument::Number(
            "part",
            "P",
            "With --out: one of the parts of the level alone, by\n\
                its number, as job --parts prints them",
        ),
        Argument::Number(
            "first-number",
            "K",
            "The number of the first new table in OUT, above the\n\
                version's next file number; other parts need other\n\
                numbers, well apart, and are installed in order",
        ),
        NO_VERIFY,
        FAIL_ON_LOGS,
        Argument::Memory(
            "How many MiB of tables the test may hold, and a part\n\
                of a level that --all takes with others: 1 to\n\
                16777216; 128 if it is left out",
        ),
        Argument::Number(
            "workers",
            "W",
            "How many workers carry it out: 1 to 64; 4 if it is\nleft out",
        ),
        Argument::Number(
            "ranges",
            "R",
            "Into at most how many ranges of user keys it is\n\
                split: 1 to 4096; 8 if it is left out",
        ),
        SNAPSHOT,
        SNAPSHOTS,
        Argument::Number(
            "block-size",
            "B",
            "A data block ends with the entry that brings it to B\n\
                bytes: 1 to 4194304; 4096 if it is left out",
        ),
        Argument::Number(
            "file-size",
            "F",
            "A file ends with the entry that brings its blocks to\n\
                F bytes: 1 to 1073741824; 2097152 if it is left out",
        ),
        CLEANS,
        JSON,
    ],
    rules: &[
        Rule::One("levels", &["level", "all"]),
        Rule::AtMostOne("whole or trust", &["whole", "no-verify"]),
        Rule::AtMostOne("whole, all or out", &["whole", "all", "out"]),
        Rule::AtMostOne("whole, all or part", &["whole", "all", "part"]),
        Rule::AtMostOne("whole, all or number", &["whole", "all", "first-number"]),
        Rule::AtMostOne("out or clean", &["out", "clean"]),
        // `clap` lets an option go without the one that it needs if something excludes that one.
        Rule::Needs("number", "first-number", "out"),
        Rule::Needs("one part", "part", "out"),
        Rule::AtMostOne("part or clean", &["part", "clean"]),
        Rule::AtMostOne("number or clean", &["first-number", "clean"]),
        Rule::AtMostOne("readable", &["snapshot", "snapshots"]),
    ],
};

pub(crate) const CLEAN: Description<'static> = Description {
    name: "clean",
    usage: "sedvokt clean DIR [OPTIONS]",
    about: "Removes the files that a database does not need; prints their names",
    examples: "Prints a line a file: removed NAME BYTES, or removable NAME BYTES

Examples: sedvokt clean DIR --dry-run
          sedvokt clean DIR",
    arguments: &[
        FOLDER,
        Argument::Flag(
            "dry-run",
            "Prints the names of these files, and removes none",
        ),
    ],
    rules: &[],
};

pub(crate) const JOB: Description<'static> = Description {
    name: "job",
    usage: "sedvokt job DIR --level N [OPTIONS]",
    about: "Prints the names of the files that a compaction would read",
    examples: "Prints a line a name: those to copy for compact --out --no-verify elsewhere, of
a database that was verified. With --parts it prints a line a file:
part P LEVEL NUMBER BYTES.

Examples: sedvokt job DIR --level 0
          sedvokt job DIR --level 1 --parts
          sedvokt compact DIR --level 1 --part 1 --first-number 1000 --out OUT1",
    arguments: &[
        FOLDER,
        Argument::WantedNumber("level", "N", "The level: 0 to 5"),
        Argument::Flag(
            "parts",
            "The files of the parts of the level, which can be\n\
                compacted at the same time, each by compact --part",
        ),
    ],
    rules: &[],
};

pub(crate) const INSTALL: Description<'static> = Description {
    name: "install",
    usage: "sedvokt install DIR OUT.. [OPTIONS]",
    about: "Installs what compact --out made of a database, and prints the same",
    examples: "Prints what compact prints without --out. Several outcomes are installed together, by
one manifest: all of them or none. Each is tested as if those before it were
installed, so their new tables need numbers that rise in the order of OUT..

Example: sedvokt install DIR OUT
It is for a database DIR and the folder OUT of the last example of compact.",
    arguments: &[
        FOLDER,
        Argument::Places(
            "OUT",
            "The folder that compact --out made, with the new\n\
                tables and the edit; several are installed in the\n\
                order given",
        ),
        SNAPSHOT,
        SNAPSHOTS,
        Argument::Flag(
            "no-verify",
            "Does not test whether the new tables keep what the\n\
                inputs have: a program that is trusted wrote them",
        ),
        MEMORY,
        CLEANS,
    ],
    rules: &[
        Rule::AtMostOne("readable", &["snapshot", "snapshots"]),
        Rule::AtMostOne("test or snapshot", &["no-verify", "snapshot"]),
        Rule::AtMostOne("test or list", &["no-verify", "snapshots"]),
    ],
};

pub(crate) const BLOCKS: Description<'static> = Description {
    name: "blocks",
    usage: "sedvokt blocks A B --at HEXKEY OUT [OPTIONS]",
    about: "Merges two blocks into one, and prints how much it has",
    examples: "Prints, as an example, 2 entries, 34 bytes

Example: sedvokt blocks A B --at - OUT",
    arguments: &[
        Argument::Place("A", "The first file: a block's contents, without trailer"),
        Argument::Place("B", "The second file, of the same form"),
        Argument::WantedValue(
            "at",
            "HEXKEY",
            "The user key at which the second range begins:\n\
                hexadecimal digits, or - for the empty key",
        ),
        Argument::Place("OUT", "The file that gets the block of all entries"),
    ],
    rules: &[],
};

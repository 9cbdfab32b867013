//! What is told of the commands that only read.

use crate::argument::{Argument, Rule};
use crate::descriptions::{
    Description, FAIL_ON_LOGS, FOLDER, JSON, MEMORY, NO_LOCK, NO_VERIFY, SEQUENCE, TEXT, UTF8,
};

pub(crate) const STATS: Description<'static> = Description {
    name: "stats",
    usage: "sedvokt stats DIR [OPTIONS]",
    about: "Prints the files, bytes and entries of each level",
    examples: "Prints a table with a line a level, and the least and largest key of each.

Examples: sedvokt stats DIR --text
          sedvokt stats DIR --json",
    arguments: &[FOLDER, TEXT, JSON, MEMORY, FAIL_ON_LOGS, NO_LOCK],
    rules: &[],
};

pub(crate) const VERIFY: Description<'static> = Description {
    name: "verify",
    usage: "sedvokt verify <DIR|--table FILE> [OPTIONS]",
    about: "Tests a database, or one table, and prints that it is lawful",
    examples: "Prints, as an example, lawful: 4 files, 596 entries

Examples: sedvokt verify DIR
          sedvokt verify DIR --all-faults
          sedvokt verify --table DIR/000005.ldb",
    arguments: &[
        Argument::FreePlace("DIR", "The folder of the database, if no table is given"),
        Argument::Value(
            "table",
            "FILE",
            "A table's file, which is tested in place of a folder",
        ),
        JSON,
        Argument::Flag(
            "all-faults",
            "Prints what is wrong with each file, and goes on",
        ),
        MEMORY,
        FAIL_ON_LOGS,
        NO_LOCK,
    ],
    rules: &[
        Rule::One("tested", &["DIR", "table"]),
        Rule::AtMostOne("form", &["json", "all-faults"]),
        Rule::AtMostOne("table or faults", &["table", "all-faults"]),
        Rule::AtMostOne("table or memory", &["table", "memory"]),
        Rule::AtMostOne("table or logs", &["table", "fail-on-logs"]),
        Rule::AtMostOne("table or lock", &["table", "no-lock"]),
    ],
};

pub(crate) const GET: Description<'static> = Description {
    name: "get",
    usage: "sedvokt get DIR <KEY..|--stdin> [OPTIONS]",
    about: "Prints the value of a key, or none; of several keys too",
    examples: "Prints the value in a line; none if the key has no value. Of several keys, or
of those in standard input, it prints a line each: KEY VALUE, or KEY none

Examples: sedvokt get DIR k00001 --text
          sedvokt get DIR k00001 k00002 --text
          sedvokt get DIR 6b3030303031 --at 900
          sedvokt get DIR k00001 --text --no-verify --raw
          sedvokt get DIR k00001 --text --json",
    arguments: &[
        FOLDER,
        Argument::FreePlaces(
            "KEY",
            "The user keys: hexadecimal digits, or - for the empty key; text with\n--text",
        ),
        Argument::Flag("stdin", "The keys are in standard input, one a line"),
        SEQUENCE,
        TEXT,
        UTF8,
        Argument::Flag("raw", "Prints the bytes of the value, nothing around them"),
        JSON,
        NO_VERIFY,
        MEMORY,
        FAIL_ON_LOGS,
        NO_LOCK,
    ],
    rules: &[
        Rule::One("keys", &["KEY", "stdin"]),
        Rule::AtMostOne("form", &["raw", "json"]),
    ],
};

pub(crate) const SCAN: Description<'static> = Description {
    name: "scan",
    usage: "sedvokt scan DIR [OPTIONS]",
    about: "Prints the keys that have a value, in their order, with their values",
    examples: "Prints a line a key: KEY VALUE

Examples: sedvokt scan DIR --text --limit 10
          sedvokt scan DIR --from k00001 --to k00005 --text
          sedvokt scan DIR --prefix k0003 --text --count
          sedvokt scan DIR --from 6b3030303031 --at 900 --keys",
    arguments: &[
        FOLDER,
        Argument::Value(
            "from",
            "KEY",
            "The user key at which the scan begins: hexadecimal\n\
                digits, or - for the empty key; text with --text",
        ),
        Argument::Value(
            "to",
            "KEY",
            "The user key before which the scan ends, written in\nthe same way",
        ),
        Argument::Value(
            "prefix",
            "KEY",
            "What each key begins with, written in the same way,\n\
                in place of --from and --to",
        ),
        SEQUENCE,
        Argument::Number(
            "limit",
            "N",
            "At most how many keys are printed, in decimal digits",
        ),
        Argument::Flag("keys", "Prints the keys alone"),
        Argument::Flag("count", "Prints how many keys there are, and none of them"),
        TEXT,
        UTF8,
        JSON,
        NO_VERIFY,
        MEMORY,
        FAIL_ON_LOGS,
        NO_LOCK,
    ],
    rules: &[
        Rule::AtMostOne("prefix or from", &["prefix", "from"]),
        Rule::AtMostOne("prefix or to", &["prefix", "to"]),
        Rule::AtMostOne("printed", &["keys", "count"]),
    ],
};

pub(crate) const HISTORY: Description<'static> = Description {
    name: "history",
    usage: "sedvokt history DIR KEY [OPTIONS]",
    about: "Prints all entries of a key, the newest first",
    examples: "Prints a line an entry: LEVEL FILE SEQUENCE put VALUE, or LEVEL FILE SEQUENCE
del; nothing if there is none.

Example: sedvokt history DIR k00001 --text",
    arguments: &[
        FOLDER,
        Argument::Place(
            "KEY",
            "The user key: hexadecimal digits, or - for the empty key; text with\n--text",
        ),
        TEXT,
        UTF8,
        JSON,
        NO_VERIFY,
        MEMORY,
        FAIL_ON_LOGS,
        NO_LOCK,
    ],
    rules: &[],
};

pub(crate) const MANIFEST: Description<'static> = Description {
    name: "manifest",
    usage: "sedvokt manifest DIR [OPTIONS]",
    about: "Prints what the manifest says: numbers, and the files of each level",
    examples: "Prints a line a number, and a line a file: file LEVEL NUMBER BYTES

Examples: sedvokt manifest DIR
          sedvokt manifest DIR --json --text",
    arguments: &[FOLDER, TEXT, JSON, FAIL_ON_LOGS, NO_LOCK],
    rules: &[],
};

pub(crate) const DUMP: Description<'static> = Description {
    name: "dump",
    usage: "sedvokt dump TABLE [OPTIONS]",
    about: "Prints the entries of one table",
    examples: "Prints a line an entry: KEY SEQUENCE put VALUE, or KEY SEQUENCE del

Example: sedvokt dump DIR/000005.ldb --text",
    arguments: &[Argument::Place("TABLE", "The file of the table"), TEXT],
    rules: &[],
};

pub(crate) const FILES: Description<'static> = Description {
    name: "files",
    usage: "sedvokt files DIR [OPTIONS]",
    about: "Prints the names of the files that a copy of a database needs",
    examples: "Prints a line a name: CURRENT, the manifest, the tables by level, and the logs
that LevelDB would replay.

Example: sedvokt files DIR",
    arguments: &[FOLDER, JSON, NO_LOCK],
    rules: &[],
};

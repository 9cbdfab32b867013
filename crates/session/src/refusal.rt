//! A refusal, and what is told of it.

use crate::explanations::{Words, of_file};
use crate::folder_files::path_in;
use coding::{Fault, FaultName};
use disk::error_words;
use std::alloc::{AllocError, AllocFailed, Global};
use std::io;
use std::io::ErrorKind;

/// A refusal, and what is told of it beside its name.
#[derive(Drop)]
pub struct Refusal {
    pub fault: Fault,
    /// What is told. If it isn't known, or there was no memory for it, the words of the fault are.
    pub told: Option<RefusalText>,
    /// Whether nothing is told, not even the fault: who read the answer reads no further, or the
    /// answer is the refusal.
    pub is_silent: bool,
    /// Whether its name is told already.
    pub is_named: bool,
    /// The name of the folder's file that was read last. None if that isn't known.
    pub file: Option<String>,
}

/// What a command comes to: what is left to print, or its refusal.
pub type Answer = Result<Vec<u8>, Refusal>;

/// What is told of a refusal.
#[derive(Drop)]
pub struct RefusalText {
    /// The file or folder that it is about.
    pub path: String,
    /// What is wrong.
    pub wrong: String,
    /// What to do, if that is told.
    pub remedy: Option<&'static str>,
}

impl RefusalText {
    /// What is `wrong` with a path, and a remedy. None if there was no memory for one of the texts.
    pub fn new(
        alloc: Global,
        path: &str,
        wrong: Result<String, AllocError>,
        remedy: &'static str,
    ) -> Option<RefusalText> {
        RefusalText::of(alloc, path, wrong, Some(remedy))
    }

    /// The same with a remedy, or without one.
    pub fn of(
        alloc: Global,
        path: &str,
        wrong: Result<String, AllocError>,
        remedy: Option<&'static str>,
    ) -> Option<RefusalText> {
        let wrong = wrong.ok()?;
        let path = String::from_str(alloc, path).ok()?;
        Some(RefusalText {
            path,
            wrong,
            remedy,
        })
    }
}

impl From<Fault> for Refusal {
    fn from(fault: Fault) -> Refusal {
        Refusal::new(fault, None)
    }
}

impl From<AllocError> for Refusal {
    fn from(error: AllocError) -> Refusal {
        Refusal::from(Fault::from(error))
    }
}

impl<T: Drop> From<AllocFailed<T>> for Refusal {
    fn from(error: AllocFailed<T>) -> Refusal {
        Refusal::from(Fault::from(error))
    }
}

impl Refusal {
    /// The refusal of which this is told.
    pub fn new(fault: Fault, told: Option<RefusalText>) -> Refusal {
        Refusal {
            fault,
            told,
            is_silent: false,
            is_named: false,
            file: None,
        }
    }

    /// The refusal of work on a folder of which the file of this name was read last.
    pub fn at(alloc: Global, fault: Fault, file: Option<&str>) -> Refusal {
        let mut refusal = Refusal::new(fault, None);
        if let Some(name) = file {
            refusal.file = String::from_str(alloc, name).ok();
        }
        refusal
    }

    /// The refusal of which nothing is told, since the answer tells it.
    pub fn silent(fault: Fault) -> Refusal {
        let mut refusal = Refusal::new(fault, None);
        refusal.is_silent = true;
        refusal
    }

    /// Tells its name on the standard error, unless that is told already or nothing is. If it can't
    /// be told, nothing else changes.
    pub fn tell_name<R: Eprint>(&mut self, rt: &R) {
        if !self.is_silent && !self.is_named {
            let fault = self.fault;
            let _ = eprintln!(rt; "refused: {fault}");
            self.is_named = true;
        }
    }

    /// The same refusal, of which this is told.
    pub fn telling(mut self, told: Option<RefusalText>) -> Refusal {
        self.told = told;
        self
    }

    /// The refusal of the file at `path`, by a test of its bytes.
    pub fn of_file(alloc: Global, path: &str, fault: Fault) -> Refusal {
        let told = match fault.name {
            FaultName::Memory => None,
            name => told(alloc, path, of_file(name)),
        };
        Refusal::new(fault, told)
    }

    /// The refusal that the file at `path` isn't there.
    pub fn of_missing(alloc: Global, path: &str) -> Refusal {
        let remedy = "give the path of a file that is there";
        let told = said(alloc, path, "it is missing", remedy);
        Refusal::new(Fault::of(FaultName::Missing), told)
    }

    /// The refusal of a call of the system on what `path` names: `Memory` if memory ran out, else
    /// `Device`.
    pub fn of_call(alloc: Global, path: &str, call: &str, error: &io::Error) -> Refusal {
        match error.kind() {
            ErrorKind::OutOfMemory => Refusal::from(Fault::of(FaultName::Memory)),
            _ => {
                let told = call_refusal(alloc, path, call, error);
                Refusal::new(Fault::of(FaultName::Device), told)
            }
        }
    }

    /// The refusal that the files of a folder can't be listed.
    pub fn of_listing(alloc: Global, folder: &str, error: &io::Error) -> Refusal {
        Refusal::of_call(alloc, folder, "list its files", error)
    }

    /// The refusal that the standard output can't be written. If it is a pipe that nobody reads any
    /// more, nothing is told.
    pub fn of_output(alloc: Global, error: &io::Error) -> Refusal {
        let mut refusal = Refusal::of_call(alloc, "standard output", "write", error);
        refusal.is_silent = error.kind() == ErrorKind::BrokenPipe;
        refusal
    }
}

/// What is told of `path` in these words.
pub fn told(alloc: Global, path: &str, words: Words) -> Option<RefusalText> {
    said(alloc, path, words.wrong, words.remedy)
}

/// What is told of a folder's file of this name in these words.
pub fn told_of_file(alloc: Global, folder: &str, file: &str, words: Words) -> Option<RefusalText> {
    told(alloc, path_in(alloc, folder, file).ok()?.as_str(), words)
}

/// What is told of `path`: what is `wrong`, and what to do.
pub fn said(alloc: Global, path: &str, wrong: &str, remedy: &'static str) -> Option<RefusalText> {
    RefusalText::new(alloc, path, String::from_str(alloc, wrong), remedy)
}

/// What is told of a call of the system that failed.
fn call_refusal(alloc: Global, path: &str, call: &str, error: &io::Error) -> Option<RefusalText> {
    let reason = error_words(alloc, error).ok()?;
    let wrong = format!(in alloc; "cannot {call}: {reason}");
    RefusalText::of(alloc, path, wrong, None)
}

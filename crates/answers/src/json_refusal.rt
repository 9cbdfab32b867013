//! The status of a refusal, and its JSON line.

ghost use Rattle.std.specs.Prelude.{◌≡◌};
ghost use Rattle.answers.specs.FaultLines.{status_of};

use crate::json_object::json_line;
use serde_json::{Map, Value, put};
use std::alloc::Global;
use table::{Fault, FaultName};

/// The status with which the program ends after a refusal: 3 for `Device`, else 1.
pub fn status(fault: &Fault) -> u8
    ensures { result ≡ status_of fault.now.name }
{
    match fault.name {
        FaultName::Device => 3,
        _ => 1,
    }
}

/// What is told of a refusal beside its name.
#[derive(Clone, Copy, Debug)]
pub struct Told<'a> {
    /// The file or folder that it is about.
    pub path: Option<&'a str>,
    /// What is wrong.
    pub wrong: Option<&'a str>,
    /// What may be done.
    pub remedy: Option<&'a str>,
}

/// The line `{"path":P,"refused":NAME,"remedy":R,"wrong":W}` of a refusal. What isn't given is
/// left out.
pub fn refusal_json(alloc: Global, name: &str, told: Told<'_>) -> Result<String, Fault> {
    let texts = [
        ("path", told.path),
        ("refused", Some(name)),
        ("remedy", told.remedy),
        ("wrong", told.wrong),
    ];
    let mut object = Map::new(alloc);
    for (field, text) in &texts {
        if let Some(text) = *text {
            let value = Value::try_from_str(alloc, text)?;
            put(&mut object, alloc, field, value)?;
        }
    }
    json_line(alloc, &Value::Object(object))
}

//! Laws of the format.

ghost use Rattle.logrec.specs.Log.{AppendLaw, OneListLaw};

/// Two laws. The log of one record more is the log, and then what is written at its length. Bytes
/// are the log of at most one list of records. A call does nothing.
pub fn log_laws()
    ensures append { AppendLaw }
    ensures one_list { OneListLaw }
{}

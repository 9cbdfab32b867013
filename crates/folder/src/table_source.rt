//! Tables that are made when they are asked for.

ghost use Rattle.std.specs.Prelude.{◌≡◌, ℕ, List};
ghost use Rattle.std.specs.Borrow.{ftrue};

use ikey::Fault;
use std::alloc::Global;
use std::marker::Model;

/// Tables by their numbers. Each is made when it is asked for, in any thread.
pub trait TableSource: Send + Sync {
    ghost use Rattle.std.specs.Prelude.{◌≡◌, ◌<◌, ℕ, List, length, slice_get, Some, IfOk, IfErr};
    ghost use Rattle.std.specs.Option.{option_map};
    ghost use Rattle.ikey.specs.Answers.{fault};
    ghost use Rattle.ikey.specs.fault.FaultName.TheVariants.{Memory};

    /// The number and the bytes of each table, in order.
    ghost tables: { Self → List (ℕ × List ℕ) };

    /// How many tables there are.
    fn len(&self) -> usize
        ensures { result ≡ length (tables self.now) };

    /// The number of the table at `place`.
    fn number(&self, place: usize) -> u64
        requires { place < length (tables self.now) }
        ensures { option_map (λ t. t.0) (slice_get (tables self.now) place) ≡ Some result };

    /// Makes the table at `place`, and answers it with its number.
    fn table(&self, alloc: Global, place: usize) -> Result<(u64, Vec<u8>), Fault>
        requires { place < length (tables self.now) }
        ensures ok { IfOk result (λ t.
            slice_get (tables self.now) place ≡ Some (t.0, t.1.items)) }
        ensures memory { IfErr result (λ e. e ≡ fault Memory) };
}

/// The tables of a source, as clauses read them. A proof's value: it takes no memory, and nothing
/// is done with it at run time.
#[derive(Drop)]
pub struct SourceTables {
    pub ghost tables: { List (ℕ × List ℕ) },
}

impl Model for SourceTables {
    ghost also_owns = { λ _. ftrue };
}

impl SourceTables {
    /// Those of this source.
    pub fn of<S: TableSource>(_source: &S) -> SourceTables
        ensures { result.tables ≡ S.tables _source.now }
    {
        SourceTables {}
    }
}

//! The test of a number of workers.

ghost use Rattle.std.specs.Prelude.{◌≡◌, nat_le, ◌&&◌};
ghost use Rattle.ikey.specs.fault.FaultName.TheVariants.{Workers};
ghost use Rattle.table.specs.TestResult.{test_result};

use board::MAX_WORKERS;
use ikey::{Fault, FaultName};

/// `Workers` if `workers` is outside 1 to 64. It takes no memory.
pub(crate) fn check_workers(workers: u64) -> Result<(), Fault>
    ensures { result ≡ test_result (nat_le 1 workers && nat_le workers 64) Workers }
{
    if workers < 1 || workers > MAX_WORKERS {
        return Err(Fault::of(FaultName::Workers));
    }
    Ok(())
}

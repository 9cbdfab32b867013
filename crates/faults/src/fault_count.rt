//! Who is told faults, how many were told, and telling more.

ghost use Rattle.std.specs.Prelude.{◌≡◌, true, map};
ghost use Rattle.faults.specs.VersionFault.{OfFile, OfKey};
ghost use Rattle.faults.specs.KeyWalk.{misplaced_in};
ghost use Rattle.faults.specs.ToldFaults.{IsTold, next_count};

use crate::file_fault::FileFault;
use crate::key_walk::KeyFault;

/// Who is told the faults of a version, in their order.
pub trait FaultTaker {
    ghost use Rattle.std.specs.Prelude.{Bool};
    ghost use Rattle.faults.specs.VersionFault.{VersionFault, OfFile, OfKey};

    /// The change that a call with this fault and this answer makes. By default any change is
    /// allowed.
    ghost tells: { Self → VersionFault → Bool → Self → Type 0 } = { λ _ _ _ _. Unit {0} };

    /// Takes a fault of the file of a number. The answer is whether to go on.
    fn file_fault(&mut self, number: u64, fault: FileFault) -> bool
        ensures { tells self.old (OfFile number fault) result self.new };

    /// Takes a user key whose entries are not in their order, and the numbers of two files that
    /// hold it. The answer is whether to go on.
    ///
    /// `file` is searched first, and its entry isn't newer than that in `other`. Both may be one
    /// file.
    fn key_fault(&mut self, user: &[u8], file: u64, other: u64) -> bool
        ensures { tells self.old
            (OfKey (record { user = user.now; file = file; other = other })) result self.new };
}

/// How many faults were told, and whether the taker wants more.
#[derive(Clone, Copy)]
pub(crate) struct FaultCount {
    /// 2^64 - 1 if there were more.
    pub count: u64,
    /// Whether the taker said to go on.
    pub goes: bool,
}

impl FaultCount {
    /// One more, after which the taker said whether to go on.
    pub fn one_more(self, goes: bool) -> FaultCount
        ensures { result ≡ record { count = next_count self.count; goes = goes } }
    {
        FaultCount {
            count: self.count.saturating_add(1),
            goes,
        }
    }
}

/// Tells faults of the file of a number, until the taker says to stop.
pub(crate) fn tell_file<T: FaultTaker>(
    taker: &mut T,
    number: u64,
    faults: &[FileFault],
    told: FaultCount,
) -> FaultCount
    requires { told.goes ≡ true }
    ensures { IsTold T.tells (map (OfFile number) faults.now) taker.old told.count
        taker.new result }
{
    let mut told = told;
    for fault in faults {
        let goes = taker.file_fault(number, *fault);
        told = told.one_more(goes);
        if !goes {
            return told;
        }
    }
    told
}

/// Tells faults of user keys, until the taker says to stop.
pub(crate) fn tell_keys<T: FaultTaker>(
    taker: &mut T,
    faults: &[KeyFault],
    told: FaultCount,
) -> FaultCount
    requires { told.goes ≡ true }
    ensures { IsTold T.tells (map (λ k. OfKey (misplaced_in k)) faults.now) taker.old
        told.count taker.new result }
{
    let mut told = told;
    for fault in faults {
        let goes = taker.key_fault(&fault.user, fault.file, fault.other);
        told = told.one_more(goes);
        if !goes {
            return told;
        }
    }
    told
}

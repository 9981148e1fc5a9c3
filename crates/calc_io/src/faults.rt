ghost use Rattle.std.specs.Prelude.{◌≡◌, ◌↔◌, ◌≤◌, IsTrue, Contains};
ghost use Rattle.calc_io.specs.Faults.{one_more};

use calc_addr::NoMemory;
use thiserror::Error;

/// A call couldn't be done, and the object that answers so has counted a fault.
#[derive(Clone, Copy, Debug, PartialEq, Eq, Error)]
#[error("a device failed")]
pub struct Failed;

/// Why an input isn't read, or an output isn't written, to its end.
#[derive(Clone, Copy, Debug, PartialEq, Eq, Error)]
pub enum DeviceFault {
    #[error(transparent)]
    Failed(#[from] Failed),
    #[error("memory was refused")]
    NoMemory(#[from(alloc)] NoMemory),
}

/// Counts one more fault, up to the last value of the count.
pub(crate) fn count_fault(faults: &mut u64) -> Failed
    ensures later { faults.old ≤ faults.new }
    ensures counted { faults.new ≡ one_more faults.old }
{
    *faults = faults.saturating_add(1);
    Failed
}

/// Which calls of an object are to fail, by their numbers from 1 on.
#[derive(Drop)]
pub(crate) struct Failing {
    numbers: Vec<u64>,
    calls: u64,
}

impl Failing {
    pub(crate) fn new(numbers: Vec<u64>) -> Failing
        ensures numbers { result.numbers ≡ numbers }
        ensures calls { result.calls ≡ 0 }
    {
        Failing { numbers, calls: 0 }
    }

    /// Counts a call, and says whether it is to fail.
    pub(crate) fn call_fails(&mut self) -> bool
        ensures call { self.new.calls ≡ one_more self.old.calls }
        ensures listed { IsTrue result ↔ Contains self.old.numbers.items self.new.calls }
        ensures same { self.new.numbers ≡ self.old.numbers }
    {
        self.calls = self.calls.saturating_add(1);
        self.numbers.contains(&self.calls)
    }
}

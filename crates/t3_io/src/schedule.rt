//! Which calls of a device in memory are to fail.
ghost use Rattle.std.specs.Prelude.{◌≡◌, ◌==◌, ◌-◌, ◌^◌, ◌<◌, take, IfOk};
ghost use Rattle.std.specs.List.{list_any};
ghost use Rattle.t3_io.specs.Failing.{no_calls, is_to_fail, numbers_after, calls_after};

use std::alloc::Global;
use std::marker::Model;
use t3_holder::NoMemory;

/// The numbers of the calls to come that are to fail, where the next call is 0, and how many calls have
/// failed.
#[derive(Drop)]
pub(crate) struct Schedule {
    failing: Vec<u32>,
    faults: u64,
}

impl Model for Schedule {
    ghost use Rattle.t3_io.specs.Failing.{Calls, calls_code};

    ghost Value = { Calls };

    ghost coded = { calls_code };

    ghost view = { λ s. record { failing = s.failing.items; faults = s.faults } };
}

impl Schedule {
    /// No call was made yet.
    pub(crate) fn new(alloc: Global, failing: &[u32]) -> Result<Schedule, NoMemory>
        ensures { IfOk result (λ calls. calls ≡ no_calls failing.now) }
    {
        Ok(Schedule {
            failing: Vec::from_slice(alloc, failing)?,
            faults: 0,
        })
    }

    /// Counts a call, and says whether it is to fail.
    pub(crate) fn next_fails(&mut self) -> bool
        requires { self.old.faults < 2 ^ 64 - 1 }
        ensures fails { result ≡ is_to_fail self.old }
        ensures counted { self.new ≡ calls_after self.old }
    {
        let fails = has_zero(&self.failing);
        let kept = count_down(&mut self.failing);
        self.failing.truncate(kept);
        if fails {
            self.faults += 1;
        }
        fails
    }
}

/// Whether the next call's number is among these.
fn has_zero(numbers: &[u32]) -> bool
    ensures { result ≡ list_any (λ number. number == 0) numbers.now }
{
    numbers.iter().any(|number| *number == 0)
}

/// Makes each number less by one, but drops those that are 0. The numbers that are left are the first so
/// many.
fn count_down(numbers: &mut [u32]) -> usize
    ensures { take result numbers.new ≡ numbers_after numbers.old }
{
    let mut kept = 0;
    for at in 0..numbers.len() {
        let number = numbers[at];
        if number > 0 {
            numbers[kept] = number - 1;
            kept += 1;
        }
    }
    kept
}

//! The numbers of the calls that fail.

ghost use Rattle.std.specs.Prelude.{◌≡◌, ℕ, ◌^◌, ◌<◌, ◌||◌, Bool, if◌then◌else◌, nat_eq, length};
ghost use Rattle.bm_base.specs.Count.{raised};
ghost use Rattle.bm_memrack.specs.FaultList.{is_listed};

/// The numbers of a device's calls that fail, counted from 1.
///
/// It keeps two counts: the calls made so far, and those that failed. Both stand still at their
/// last value.
#[derive(Drop)]
pub struct FaultList {
    /// The numbers of the calls that fail, counted from 1.
    pub numbers: Vec<u64>,
    /// The calls made so far.
    pub calls: u64,
    /// The calls that failed.
    pub faults: u64,
    ghost calls_fit: { calls < 2 ^ 64 },
    ghost faults_fit: { faults < 2 ^ 64 },
}

impl FaultList {
    /// No call was made yet.
    pub fn new(numbers: Vec<u64>) -> FaultList
        ensures numbers { result.numbers ≡ numbers }
        ensures calls { result.calls ≡ 0 }
        ensures faults { result.faults ≡ 0 }
    {
        FaultList {
            numbers,
            calls: 0,
            faults: 0,
        }
    }

    /// Counts a call. It fails where its number stands in the list, or by the other cause.
    pub fn fails(&mut self, other_cause: bool) -> bool
        ensures answer { result ≡ (other_cause || is_listed self.old.numbers.items self.new.calls) }
        ensures numbers { self.new.numbers ≡ self.old.numbers }
        ensures calls { self.new.calls ≡ raised self.old.calls 1 }
        ensures faults { self.new.faults ≡ raised self.old.faults (if result then 1 else 0) }
    {
        self.calls = self.calls.saturating_add(1);
        let fails = other_cause || self.numbers.contains(&self.calls);
        if fails {
            self.faults = self.faults.saturating_add(1);
        }
        fails
    }
}

ghost use Rattle.std.specs.Prelude.{◌≡◌, ℕ, ◌+◌, ◌*◌, ◌<◌, ◌≤◌, ◌↔◌, IsTrue, All, length, map, sum_by, slice_index_or};
ghost use Rattle.std.specs.List.Sorted.{IsPermutation};
ghost use Rattle.dual_bounds.specs.declared.constants.TheConstants.{LAMBDA_MOST, WINDOWS_MOST};
ghost use Rattle.certificate_checker.specs.declared.prices.Dated.{Dated};
ghost use Rattle.certificate_checker.specs.Faults.{KeepLimit};
ghost use Rattle.certificate_checker.specs.Private.Prices.{HasPassed, KeepsLimits, counted, fall_of, rise_of};

use arrayvec::ArrayVec;
use dual_bounds::Window;
use dual_bounds::constants::WINDOWS_MOST;

/// A lambda that counts behind a time.
#[derive(Clone, Copy, Default)]
pub(crate) struct Dated {
    /// The time, in ticks.
    pub time: u64,
    /// The price of a packet, in 1/256 of a distortion.
    pub lambda: u64,
}

/// Lambdas with times, one for each window.
pub(crate) type DatedLambdas = ArrayVec<Dated, WINDOWS_MOST>;

/// Lambdas in the order of their times, which pass one after another.
#[derive(Drop)]
pub(crate) struct Passing {
    dated: DatedLambdas,
    /// How many of them have passed.
    place: usize,
    /// The sum of these.
    sum: u64,
}

impl Passing {
    /// Before all of some lambdas.
    pub(crate) fn new(dated: DatedLambdas) -> Passing
        requires { KeepsLimits dated.items }
        ensures same { IsPermutation dated.items result.dated.items }
        ensures passed { (time : ℕ) → HasPassed time result }
    {
        let mut dated = dated;
        dated.as_mut_slice().sort_unstable_by_key(|one| one.time);
        Passing {
            dated,
            place: 0,
            sum: 0,
        }
    }

    /// The sum of the lambdas whose times are before a time, none of those that have passed being at it or later.
    pub(crate) fn before(&mut self, time: u64) -> u64
        requires { HasPassed time self.old }
        ensures sum { result ≡ sum_by (counted time) self.old.dated.items }
        ensures small { result ≤ WINDOWS_MOST * LAMBDA_MOST }
        ensures same { self.new.dated.items ≡ self.old.dated.items }
        ensures passed { HasPassed time self.new }
    {
        while self.is_next_before(time) {
            self.pass();
        }
        self.sum
    }

    /// Whether there is a next lambda, with a time before this one.
    fn is_next_before(&self, time: u64) -> bool
        ensures { IsTrue result ↔ ((self.now.place < length self.now.dated.items) × ((d : Dated) → (slice_index_or self.now.dated.items self.now.place d).time < time)) }
    {
        let dated = self.dated.as_slice();
        self.place < dated.len() && time_at(dated, self.place) < time
    }

    /// The next lambda passes.
    fn pass(&mut self)
        requires more { self.old.place < length self.old.dated.items }
        requires limits { KeepsLimits self.old.dated.items }
        requires sum { self.old.sum ≤ self.old.place * LAMBDA_MOST }
        ensures place { self.new.place ≡ self.old.place + 1 }
        ensures same { self.new.dated.items ≡ self.old.dated.items }
        ensures sum { (d : Dated) → self.new.sum ≡ self.old.sum + (slice_index_or self.old.dated.items self.old.place d).lambda }
    {
        self.sum += lambda_at(self.dated.as_slice(), self.place);
        self.place += 1;
    }
}

/// The time of a lambda.
fn time_at(dated: &[Dated], place: usize) -> u64
    requires { place < length dated.now }
    ensures { (d : Dated) → result ≡ (slice_index_or dated.now place d).time }
{
    dated[place].time
}

/// A lambda without its time.
fn lambda_at(dated: &[Dated], place: usize) -> u64
    requires { place < length dated.now }
    ensures { (d : Dated) → result ≡ (slice_index_or dated.now place d).lambda }
{
    dated[place].lambda
}

/// The lambdas of windows, which count from the windows' beginnings on.
pub(crate) fn rises_of(windows: &[Window]) -> DatedLambdas
    requires few { length windows.now ≤ WINDOWS_MOST }
    ensures { result.items ≡ map rise_of windows.now }
{
    let mut rises = DatedLambdas::new();
    for window in windows {
        rises.push(Dated {
            time: window.from,
            lambda: window.lambda,
        });
    }
    rises
}

/// The lambdas of windows, which count no more behind the windows' ends.
pub(crate) fn falls_of(windows: &[Window]) -> DatedLambdas
    requires few { length windows.now ≤ WINDOWS_MOST }
    ensures { result.items ≡ map fall_of windows.now }
{
    let mut falls = DatedLambdas::new();
    for window in windows {
        falls.push(Dated {
            time: window.due,
            lambda: window.lambda,
        });
    }
    falls
}

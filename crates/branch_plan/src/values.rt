ghost use Rattle.std.specs.Prelude.{◌≡◌, ◌≢◌, ◌<◌, ◌≤◌, ◌^◌, ℕ, List, length, Option, Some, None, All, IfSome, MatchOption, pos, neg_ℤ, ◌+ℤ◌, ◌≤ℤ◌};
ghost use Rattle.version_table.specs.Table.{IsValidTable, IsValidVersion, units_of};
ghost use Rattle.dual_bounds.specs.Bounds.{bound_of_value};
ghost use Rattle.dual_bounds.specs.Fixed.{FixesVersions};
ghost use Rattle.dual_bounds.specs.Values.{least_cost, value_of_windows};
ghost use Rattle.dual_bounds.specs.declared.constants.TheConstants.{WINDOWS_MOST};
ghost use Rattle.buffer_windows.specs.Bounds.{bound_of_buffer_windows, bound_of_byte_value};
ghost use Rattle.buffer_windows.specs.Values.{least_owned_cost};
ghost use Rattle.certificate_checker.specs.Faults.{IsFree};
ghost use Rattle.certificate_checker.specs.Shown.{fix, versions_of};
ghost use Rattle.multiplier_search.specs.Buffered.{AreSearchedBuffered};
ghost use Rattle.multiplier_search.specs.Windows.{AreSearched};
ghost use Rattle.branch_plan.specs.declared.values.TheConstants.{UNKNOWN};
ghost use Rattle.branch_plan.specs.Bound.{owned_at};
ghost use Rattle.branch_plan.specs.Private.Valued.{AreKept, IsSeenBy, IsSeenKept, IsTimeKept};

use crate::changes::unit_at;
use crate::fitting::owner_of;
use buffer_windows::{
    BufferWindows, bound_of_value as bound_of_byte_value, each_has_left, unit_cost as owned_cost,
    value_of_windows as value_of_buffer_windows,
};
use dual_bounds::{Fixed, Windows, bound_of, price, unit_cost, window_value};
use version_table::{Table, Unit};

/// What windows come to, as a node keeps it: those of time in 1/256 of a distortion, those that see the buffers in 1/47,104.
#[derive(Clone, Copy)]
pub(crate) struct KeptValue {
    /// So many parts; `UNKNOWN` where they aren't known, or have no place here.
    pub parts: i64,
}

/// What the windows of both kinds come to at a node: its own, and else those that were found for the root.
#[derive(Clone, Copy)]
pub(crate) struct Values {
    /// The windows of time.
    pub time: KeptValue,
    /// The windows that see the buffers.
    pub seen: KeptValue,
}

/// What some windows come to, and the bound that it gives.
#[derive(Clone, Copy)]
pub(crate) struct Valued {
    /// What they come to.
    pub kept: KeptValue,
    /// The bound, as a distortion.
    pub bound: u128,
}

/// What a unit costs at least, and in one of its versions.
#[derive(Clone, Copy)]
struct Costs {
    /// The least of its versions.
    least: u128,
    /// That version.
    own: u128,
}

/// In the place of the parts of a value that isn't kept.
const UNKNOWN: i64 = i64::MIN;

impl KeptValue {
    /// No value is known.
    pub(crate) fn unknown() -> KeptValue
        ensures { result.parts ≡ UNKNOWN }
    {
        KeptValue { parts: UNKNOWN }
    }

    /// A value, where it has a place.
    fn of(value: i128) -> KeptValue
        ensures { result.parts ≢ UNKNOWN → result.parts ≡ value }
    {
        KeptValue {
            parts: i64::try_from(value).unwrap_or(UNKNOWN),
        }
    }

    /// The value, where it is known.
    fn known(&self) -> Option<i128>
        ensures known { IfSome result (λ value. self.now.parts ≢ UNKNOWN) }
        ensures value { IfSome result (λ value. value ≡ self.now.parts) }
        ensures low { IfSome result (λ value. neg_ℤ (pos (2 ^ 64)) ≤ℤ value) }
        ensures high { IfSome result (λ value. value ≤ℤ pos (2 ^ 64)) }
    {
        if self.parts == UNKNOWN {
            None
        } else {
            Some(i128::from(self.parts))
        }
    }

    /// The value where a unit costs what one of its versions does, in place of the least; unknown where this one is.
    fn with_costs(&self, costs: Costs) -> KeptValue
        requires least { costs.least ≤ 2 ^ 80 }
        requires own { costs.own ≤ 2 ^ 80 }
        ensures known { result.parts ≢ UNKNOWN → self.now.parts ≢ UNKNOWN }
        ensures value { result.parts ≢ UNKNOWN → (result.parts +ℤ pos costs.least) ≡ (self.now.parts +ℤ pos costs.own) }
    {
        match self.known() {
            Some(value) => KeptValue::of(value - costs.least as i128 + costs.own as i128),
            None => KeptValue::unknown(),
        }
    }
}

impl Values {
    /// Nothing is known.
    pub(crate) fn unknown() -> Values
        ensures time { result.time.parts ≡ UNKNOWN }
        ensures seen { result.seen.parts ≡ UNKNOWN }
    {
        Values {
            time: KeptValue::unknown(),
            seen: KeptValue::unknown(),
        }
    }
}

/// What windows of both kinds come to with a version of one more unit fixed, of which none was: a child's values from its parent's, by
/// what that one unit costs.
pub(crate) fn values_with(
    table: &Table,
    unit: usize,
    k: u8,
    windows: &Windows,
    buffers: &BufferWindows,
    values: Values,
) -> Values
    requires valid { IsValidTable table.now }
    requires unit { unit < length (units_of table.now) }
    requires version { k < versions_of table.now unit }
    requires windows { AreSearched windows.now.items }
    requires buffers { AreSearchedBuffered table.now buffers.now }
    ensures { (fixed : List (Option ℕ)) → IsFree fixed unit → length fixed ≡ length (units_of table.now)
        → AreKept table.now fixed windows.now.items buffers.now values → AreKept table.now (fix unit k fixed) windows.now.items buffers.now result }
{
    let in_time = costs_in_time(unit_at(table, unit), k, windows);
    let in_buffers = costs_in_buffers(table, unit, k, buffers);
    Values {
        time: values.time.with_costs(in_time),
        seen: values.seen.with_costs(in_buffers),
    }
}

/// What a unit costs in windows of time.
fn costs_in_time(unit: &Unit, k: u8, windows: &Windows) -> Costs
    requires some { 1 ≤ length unit.now.versions.items }
    requires valid { All IsValidVersion unit.now.versions.items }
    requires version { k < length unit.now.versions.items }
    requires windows { AreSearched windows.now.items }
    ensures least { result.least ≡ least_cost windows.now.items unit.now None }
    ensures own { result.own ≡ least_cost windows.now.items unit.now (Some k) }
    ensures least_small { result.least ≤ 2 ^ 80 }
    ensures own_small { result.own ≤ 2 ^ 80 }
{
    let charged = price(windows.as_slice(), unit.due);
    Costs {
        least: u128::from(unit_cost(unit, None, charged)),
        own: u128::from(unit_cost(unit, Some(k), charged)),
    }
}

/// What a unit costs in windows that see the buffers.
fn costs_in_buffers(table: &Table, unit: usize, k: u8, buffers: &BufferWindows) -> Costs
    requires valid { IsValidTable table.now }
    requires unit { unit < length (units_of table.now) }
    requires version { k < versions_of table.now unit }
    requires buffers { AreSearchedBuffered table.now buffers.now }
    ensures least { result.least ≡ least_owned_cost table.now.slot buffers.now (owned_at table.now unit) None }
    ensures own { result.own ≡ least_owned_cost table.now.slot buffers.now (owned_at table.now unit) (Some k) }
    ensures least_small { result.least ≤ 2 ^ 80 }
    ensures own_small { result.own ≤ 2 ^ 80 }
{
    let owner = owner_of(table, unit);
    let coded = unit_at(table, unit);
    let windows = buffers.as_slice();
    Costs {
        least: owned_cost(table.slot, windows, owner.number, owner.vbv, coded, None),
        own: owned_cost(table.slot, windows, owner.number, owner.vbv, coded, Some(k)),
    }
}

/// What windows of time come to where these versions are fixed: what is kept, and else by a pass over the table.
pub(crate) fn time_valued(
    table: &Table,
    fixed: &Fixed,
    windows: &Windows,
    kept: KeptValue,
) -> Valued
    requires valid { IsValidTable table.now }
    requires fixed { FixesVersions table.now fixed.now }
    requires windows { AreSearched windows.now.items }
    requires kept { IsTimeKept table.now fixed.now windows.now.items kept }
    ensures kept { IsTimeKept table.now fixed.now windows.now.items result.kept }
    ensures bound { result.bound ≡ bound_of_value (value_of_windows table.now fixed.now windows.now.items) }
    ensures most { length windows.now.items ≤ WINDOWS_MOST }
{
    let with = windows.as_slice();
    match kept.known() {
        Some(value) => Valued {
            kept,
            bound: bound_of(value),
        },
        None => in_time(window_value(table, fixed, with)),
    }
}

/// A value of windows of time.
fn in_time(value: i128) -> Valued
    ensures kept { result.kept.parts ≢ UNKNOWN → result.kept.parts ≡ value }
    ensures bound { result.bound ≡ bound_of_value value }
{
    Valued {
        kept: KeptValue::of(value),
        bound: bound_of(value),
    }
}

/// What windows that see the buffers come to where these versions are fixed: what is kept, and else by a pass over the table. None
/// where a unit has no version left.
pub(crate) fn seen_valued(
    table: &Table,
    fixed: &Fixed,
    buffers: &BufferWindows,
    kept: KeptValue,
) -> Option<Valued>
    requires valid { IsValidTable table.now }
    requires fixed { FixesVersions table.now fixed.now }
    requires searched { AreSearchedBuffered table.now buffers.now }
    requires kept { IsSeenKept table.now fixed.now buffers.now kept }
    ensures { IsSeenBy table.now fixed.now buffers.now result }
{
    match kept.known() {
        Some(value) => Some(Valued {
            kept,
            bound: bound_of_byte_value(value),
        }),
        None => seen_by_pass(table, fixed, buffers),
    }
}

/// The same by a pass over the table.
fn seen_by_pass(table: &Table, fixed: &Fixed, buffers: &BufferWindows) -> Option<Valued>
    requires valid { IsValidTable table.now }
    requires fixed { FixesVersions table.now fixed.now }
    requires searched { AreSearchedBuffered table.now buffers.now }
    ensures { MatchOption result (bound_of_buffer_windows table.now fixed.now buffers.now ≡ None)
        (λ seen. (bound_of_buffer_windows table.now fixed.now buffers.now ≡ Some seen.bound) × IsSeenKept table.now fixed.now buffers.now seen.kept) }
{
    if each_has_left(table, fixed.as_slice()) {
        let value = value_of_buffer_windows(table, fixed.as_slice(), buffers.as_slice());
        Some(in_buffers(value))
    } else {
        None
    }
}

/// A value of windows that see the buffers.
fn in_buffers(value: i128) -> Valued
    ensures kept { result.kept.parts ≢ UNKNOWN → result.kept.parts ≡ value }
    ensures bound { result.bound ≡ bound_of_byte_value value }
{
    Valued {
        kept: KeptValue::of(value),
        bound: bound_of_byte_value(value),
    }
}

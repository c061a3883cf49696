ghost use Rattle.std.specs.Prelude.{◌≡◌, ℕ, ◌<◌, ◌≤◌, List, [], ◌∷◌, Option, None, All, is_some, IsTrue, IfOk, length, slice_index, slice_index_or, vec_capacity};
ghost use Rattle.std.specs.List.Sorted.{IsNonDecreasingBy};
ghost use Rattle.version_table.specs.Choice.{version_at};
ghost use Rattle.version_table.specs.Table.{IsValidTable, units_of};
ghost use Rattle.dual_bounds.specs.Values.{least_cost};
ghost use Rattle.certificate_checker.specs.Faults.{IsFree};
ghost use Rattle.certificate_checker.specs.Shown.{fix, unfixed, versions_of};
ghost use Rattle.certificate_checker.specs.Private.FixedCosts.{SplitsBefore, SplitsBy, packets_within};
ghost use Rattle.certificate_checker.specs.Private.Order.{IsDueOrder, IsPlaced, unit_of};
ghost use Rattle.certificate_checker.specs.Private.Paths.{unfix};
ghost use Rattle.certificate_checker.specs.Private.PlaceSums.{AreSums};
ghost use Rattle.sum_tree.specs.Nodes.{sum_from};
ghost use Rattle.certificate_checker.specs.Private.Tallies.{AreApart, ArePlaces, HasTallyRoom, IsTally, IsVersionPut, KeepsTallyRoom, free_sum, unit_at};

use crate::filling::refill;
use crate::links::Links;
use crate::order::{DueUnit, put_in_order, unit_at};
use crate::sums::PlaceSums;
use dual_bounds::unit_cost;
use list_types::OutOfMemory;
use std::alloc::Global;
use stream_constants::packets::PAYLOAD_BYTES;
use version_table::Table;

/// What a path fixes and what it leaves free, by the places of the units in the order of their due times.
#[derive(Drop)]
pub(crate) struct Tally {
    /// The units in the order of their due times.
    pub order: Vec<DueUnit>,
    /// The place of each unit in the order.
    pub places: Vec<usize>,
    /// The places of units of which nothing is fixed.
    pub links: Links,
    /// The packets of the versions that are fixed, at their units' places.
    pub packets: PlaceSums,
    /// Their distortions.
    pub distortions: PlaceSums,
    /// What the units cost at least together of which nothing is fixed, where no packet is charged, in 1/256 of a distortion.
    pub free_least: u128,
}

impl Tally {
    /// Room for tables of so many units. Fails only for want of memory.
    pub(crate) fn new(alloc: Global, most: usize) -> Result<Tally, OutOfMemory>
        ensures { IfOk result (HasTallyRoom most) }
    {
        Ok(Tally {
            order: Vec::with_capacity(alloc, most)?,
            places: Vec::with_capacity(alloc, most)?,
            links: Links::new(alloc, most)?,
            packets: PlaceSums::new(alloc, most)?,
            distortions: PlaceSums::new(alloc, most)?,
            free_least: 0,
        })
    }

    /// Puts the units of a table in order, of which nothing is fixed.
    pub(crate) fn start(&mut self, table: &Table)
        requires valid { IsValidTable table.now }
        requires room { HasTallyRoom (length (units_of table.now)) self.old }
        ensures tally { IsTally table.now (unfixed table.now) [] self.new }
        ensures room { KeepsTallyRoom self.old self.new }
    {
        put_in_order(table, &mut self.order);
        let count = self.order.len();
        place_units(self.order.as_slice(), &mut self.places);
        self.links.clear(count);
        self.packets.clear(count);
        self.distortions.clear(count);
        self.free_least = least_of_all(table, self.order.as_slice());
    }

    /// Fixes version 0 of a unit of which nothing is fixed.
    pub(crate) fn fix_first(&mut self, table: &Table, unit: u32)
        requires valid { IsValidTable table.now }
        requires unit { unit < length (units_of table.now) }
        requires tally { (fixed : List (Option ℕ)) × (innermost : List ℕ) × IsTally table.now fixed innermost self.old × IsFree fixed unit }
        ensures tally { (fixed : List (Option ℕ)) (innermost : List ℕ) → IsTally table.now fixed innermost self.old → unit < length fixed → IsFree fixed unit
            → IsTally table.now (fix unit 0 fixed) (unit ∷ innermost) self.new }
        ensures room { KeepsTallyRoom self.old self.new }
    {
        let place = self.places[unit as usize];
        let least = self.least_at(table, place);
        self.links.take_out(place + 1);
        self.put_version(table, place, 0);
        self.free_least -= u128::from(least);
    }

    /// Fixes another version of the innermost unit.
    pub(crate) fn fix_next(&mut self, table: &Table, unit: u32, k: u8)
        requires valid { IsValidTable table.now }
        requires unit { unit < length (units_of table.now) }
        requires version { k < versions_of table.now unit }
        requires tally { (fixed : List (Option ℕ)) × (outer : List ℕ) × IsTally table.now fixed (unit ∷ outer) self.old }
        ensures tally { (fixed : List (Option ℕ)) (outer : List ℕ) → IsTally table.now fixed (unit ∷ outer) self.old → unit < length fixed
            → IsTrue (is_some (slice_index_or fixed unit None)) → IsTally table.now (fix unit k fixed) (unit ∷ outer) self.new }
        ensures room { KeepsTallyRoom self.old self.new }
    {
        let place = self.places[unit as usize];
        self.put_version(table, place, k);
    }

    /// Fixes nothing of the innermost unit any more.
    pub(crate) fn set_free(&mut self, table: &Table, unit: u32)
        requires valid { IsValidTable table.now }
        requires unit { unit < length (units_of table.now) }
        requires tally { (fixed : List (Option ℕ)) × (outer : List ℕ) × IsTally table.now fixed (unit ∷ outer) self.old }
        ensures tally { (fixed : List (Option ℕ)) (outer : List ℕ) → IsTally table.now fixed (unit ∷ outer) self.old → unit < length fixed
            → IsTrue (is_some (slice_index_or fixed unit None)) → IsTally table.now (unfix unit fixed) outer self.new }
        ensures room { KeepsTallyRoom self.old self.new }
    {
        let place = self.places[unit as usize];
        let least = self.least_at(table, place);
        self.links.put_back(place + 1);
        self.put_nothing(place);
        self.free_least += u128::from(least);
    }

    /// How many packets of the versions that are fixed are due in a window.
    pub(crate) fn packets_due(&self, from: u64, due: u64) -> u128
        requires rising { IsNonDecreasingBy (λ at. at.due) self.now.order.items }
        requires window { from ≤ due }
        requires packets { AreSums self.now.packets × (self.now.packets.count ≡ length self.now.order.items) }
        ensures { result ≡ sum_from (packets_within self.now from due) 0 (length self.now.order.items) }
    {
        let order = self.order.as_slice();
        self.packets
            .between(places_before(order, from), places_by(order, due))
    }

    /// What the unit at a place costs at least where nothing is fixed of it and no packet is charged.
    fn least_at(&self, table: &Table, place: usize) -> u64
        requires valid { IsValidTable table.now }
        requires place { place < length self.now.order.items }
        requires placed { All (IsPlaced table.now) self.now.order.items }
        ensures { result ≡ least_cost [] (unit_of table.now (unit_at self.now.order.items place)) None }
    {
        least_of(table, self.order[place])
    }

    /// Puts the amounts of a version at the place of its unit.
    fn put_version(&mut self, table: &Table, place: usize, k: u8)
        requires valid { IsValidTable table.now }
        requires place { place < length self.old.order.items }
        requires placed { All (IsPlaced table.now) self.old.order.items }
        requires version { k < versions_of table.now (unit_at self.old.order.items place) }
        requires packets { AreSums self.old.packets × (self.old.packets.count ≡ length self.old.order.items) }
        requires distortions { AreSums self.old.distortions × (self.old.distortions.count ≡ length self.old.order.items) }
        ensures put { IsVersionPut place (version_at (unit_of table.now (unit_at self.old.order.items place)) k) self.old self.new }
        ensures room { KeepsTallyRoom self.old self.new }
    {
        let unit = unit_at(table, self.order[place]);
        let version = unit.versions[usize::from(k)];
        let packets = version.bytes.div_ceil(PAYLOAD_BYTES as u32);
        self.packets.put(place, u64::from(packets));
        self.distortions.put(place, version.distortion);
    }

    /// Puts no amounts at a place.
    fn put_nothing(&mut self, place: usize)
        requires place { place < length self.old.order.items }
        requires packets { AreSums self.old.packets × (self.old.packets.count ≡ length self.old.order.items) }
        requires distortions { AreSums self.old.distortions × (self.old.distortions.count ≡ length self.old.order.items) }
        ensures put { IsVersionPut place (record { bytes = 0; distortion = 0 }) self.old self.new }
        ensures room { KeepsTallyRoom self.old self.new }
    {
        self.packets.put(place, 0);
        self.distortions.put(place, 0);
    }
}

/// What a unit costs at least where nothing is fixed of it and no packet is charged.
fn least_of(table: &Table, at: DueUnit) -> u64
    requires valid { IsValidTable table.now }
    requires placed { IsPlaced table.now at }
    ensures { result ≡ least_cost [] (unit_of table.now at.unit) None }
{
    unit_cost(unit_at(table, at), None, 0)
}

/// What all units cost at least together where nothing is fixed and no packet is charged.
fn least_of_all(table: &Table, order: &[DueUnit]) -> u128
    requires valid { IsValidTable table.now }
    requires order { IsDueOrder table.now order.now }
    ensures { result ≡ free_sum table.now order.now (unfixed table.now) }
{
    let mut total = 0;
    for at in order {
        total += u128::from(least_of(table, *at));
    }
    total
}

/// How many units are due before a time.
fn places_before(order: &[DueUnit], time: u64) -> usize
    requires { IsNonDecreasingBy (λ at. at.due) order.now }
    ensures { SplitsBefore time order.now result }
{
    order.partition_point(|at| at.due < time)
}

/// How many units are due by a time.
fn places_by(order: &[DueUnit], time: u64) -> usize
    requires { IsNonDecreasingBy (λ at. at.due) order.now }
    ensures { SplitsBy time order.now result }
{
    order.partition_point(|at| at.due <= time)
}

/// Lists the place of each unit, in a list that has room for them.
fn place_units(order: &[DueUnit], places: &mut Vec<usize>)
    requires room { length order.now ≤ vec_capacity places.old }
    requires numbers { All (λ at. at.unit < length order.now) order.now }
    requires apart { AreApart order.now }
    ensures places { ArePlaces order.now places.new.items (length order.now) }
    ensures size { length places.new.items ≡ length order.now }
    ensures room { vec_capacity places.new ≡ vec_capacity places.old }
{
    refill(places, order.len(), 0);
    for (place, at) in order.iter().enumerate() {
        places[at.unit] = place;
    }
}

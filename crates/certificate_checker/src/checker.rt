ghost use Rattle.std.specs.Prelude.{ℕ, ◌≡◌, ◌^◌, ◌<◌, ◌≤◌, ◌↔◌, List, [], length, replicate, IfOk, IfErr, OnOk, IsTrue, MatchOption, Ok, Err, None, vec_capacity};
ghost use Rattle.version_table.specs.Choice.{Fits, distortion_of_choice};
ghost use Rattle.version_table.specs.Table.{IsValidTable, units_of};
ghost use Rattle.slot_rule.specs.Schedule.{IsScheduled};
ghost use Rattle.certificate_checker.specs.Checked.{IsAtMost, IsFaultless, IsFirstFault};
ghost use Rattle.certificate_checker.specs.Faults.{IsFirstOfHead, IsHeadRight};
ghost use Rattle.certificate_checker.specs.declared.why.CertFault.{CertFault};
ghost use Rattle.certificate_checker.specs.Shown.{unfixed};
ghost use Rattle.certificate_checker.specs.Private.Paths.{HasRoomFor, KeepsRoom};
ghost use Rattle.certificate_checker.specs.Private.Tallies.{IsTally, KeepsTallyRoom};

use crate::faults::is_scheduled;
use crate::filling::refill;
use crate::path::{Path, versions_of};
use crate::tally::Tally;
use crate::walk::walk;
use crate::why::{CertFault, Why};
use bound_certificate::Cert;
use dual_bounds::nothing_fixed;
use list_types::OutOfMemory;
use std::alloc::Global;
use std::marker::Model;
use version_table::{Choice, Table, distortion_of};

/// Room in which certificates are checked, for tables of so many units at most.
#[derive(Drop)]
pub struct CheckRoom {
    units: usize,
    path: Path,
    tally: Tally,
}

impl Model for CheckRoom {
    ghost use Rattle.std.specs.Prelude.{ℕ};
    ghost use Rattle.certificate_checker.specs.Private.Paths.{HasRoomFor};
    ghost use Rattle.certificate_checker.specs.Private.Tallies.{HasTallyRoom};

    ghost Value = { ℕ };

    ghost view = { λ a. a.units };

    ghost invariant = { λ a. HasRoomFor a.units a.path × HasTallyRoom a.units a.tally };
}

impl CheckRoom {
    /// Room for certificates of this table, and of each that has no more units. Fails only for want of memory.
    pub fn new(alloc: Global, table: &Table) -> Result<CheckRoom, OutOfMemory>
        ensures { IfOk result (λ room. room ≡ length (units_of table.now)) }
    {
        let units = nothing_fixed(alloc, table)?.len();
        Ok(CheckRoom {
            units,
            path: Path {
                fixed: Vec::with_capacity(alloc, units)?,
                choice: Vec::with_capacity(alloc, units)?,
                branches: Vec::with_capacity(alloc, units)?,
            },
            tally: Tally::new(alloc, units)?,
        })
    }
}

/// Checks a certificate: its stated bound where it has no fault, else its first fault. Takes no memory.
pub fn check(table: &Table, cert: &Cert, room: &mut CheckRoom) -> Result<u64, CertFault>
    requires valid { IsValidTable table.now }
    requires room { length (units_of table.now) ≤ room.old }
    requires few { length cert.now.nodes < 2 ^ 32 }
    // What is answered is so.
    ensures bound { IfOk result (λ bound. bound ≡ cert.now.bound) }
    ensures faultless { OnOk result (IsFaultless table.now cert.now) }
    ensures fault { IfErr result (IsFirstFault table.now cert.now) }

    // What is so is answered.
    ensures only_faultless { IsFaultless table.now cert.now → result ≡ Ok cert.now.bound }
    ensures only_fault { (fault : CertFault) → IsFirstFault table.now cert.now fault → result ≡ Err fault }

    // The bound is one.
    ensures sound { IfOk result (λ bound. (choice : List ℕ) → Fits table.now choice → IsScheduled table.now choice → bound ≤ distortion_of_choice table.now choice) }
    ensures room { room.new ≡ room.old }
{
    room.tally.start(table);
    match fault_of_head(table, room.tally.order.len(), cert) {
        Some(why) => Err(CertFault { node: 0, why }),
        None => check_tree(table, cert, &mut room.path, &mut room.tally),
    }
}

/// Checks the tree of a certificate whose head is right.
fn check_tree(
    table: &Table,
    cert: &Cert,
    path: &mut Path,
    tally: &mut Tally,
) -> Result<u64, CertFault>
    requires valid { IsValidTable table.now }
    requires room { HasRoomFor (length (units_of table.now)) path.old }
    requires tally { IsTally table.now (unfixed table.now) [] tally.old }
    requires few { length cert.now.nodes < 2 ^ 32 }
    requires head { IsHeadRight table.now cert.now }
    ensures room { KeepsRoom path.old path.new }
    ensures tally_room { KeepsTallyRoom tally.old tally.new }
    ensures bound { IfOk result (λ bound. bound ≡ cert.now.bound) }
    ensures faultless { OnOk result (IsFaultless table.now cert.now) }
    ensures fault { IfErr result (IsFirstFault table.now cert.now) }
{
    clear(path, tally.order.len());
    let tree = walk(table, cert.nodes.as_slice(), path, tally)?;
    if tree.nodes < cert.nodes.len() {
        return Err(CertFault {
            node: tree.nodes as u32,
            why: Why::ExtraNode,
        });
    }
    if !is_at_most(cert.bound, tree.bound) {
        return Err(CertFault {
            node: 0,
            why: Why::BoundHigh,
        });
    }
    Ok(cert.bound)
}

/// What is wrong with the choice and its distortion first, of a table of so many units.
fn fault_of_head(table: &Table, units: usize, cert: &Cert) -> Option<Why>
    requires valid { IsValidTable table.now }
    requires units { units ≡ length (units_of table.now) }
    ensures { MatchOption result (IsHeadRight table.now cert.now) (IsFirstOfHead table.now cert.now) }
{
    if cert.choice.len() != units {
        return Some(Why::ChoiceLength);
    }
    if !fits(table, &cert.choice) {
        return Some(Why::ChoiceVersion);
    }
    if !is_scheduled(table, cert.choice.as_slice()) {
        return Some(Why::ChoiceMissed);
    }
    if distortion_of(table, &cert.choice) != cert.distortion {
        return Some(Why::WrongDistortion);
    }
    None
}

/// Whether a choice of as many numbers as there are units names versions that exist.
fn fits(table: &Table, choice: &Choice) -> bool
    requires { length choice.now ≡ length (units_of table.now) }
    ensures { IsTrue result ↔ Fits table.now choice.now }
{
    let choice = choice.as_slice();
    for unit in 0..choice.len() {
        if usize::from(choice[unit]) >= versions_of(table, unit) {
            return false;
        }
    }
    true
}

/// Fixes nothing of so many units, and opens no branch.
fn clear(path: &mut Path, units: usize)
    requires { HasRoomFor units path.old }
    ensures room { KeepsRoom path.old path.new }
    ensures fixed { path.new.fixed.items ≡ replicate units None }
    ensures choice { path.new.choice.items ≡ replicate units 0 }
    ensures branches { path.new.branches.items ≡ [] }
{
    refill(&mut path.fixed, units, None);
    refill(&mut path.choice, units, 0);
    path.branches.clear();
}

/// Whether a number is at most a bound; where there is none, each is.
fn is_at_most(number: u64, bound: Option<u128>) -> bool
    ensures { IsTrue result ↔ IsAtMost number bound }
{
    match bound {
        None => true,
        Some(bound) => u128::from(number) <= bound,
    }
}

//! By how much the distortions of a unit count, for what is predicted from its picture.
ghost use Rattle.std.specs.Prelude.{◌≡◌, ◌+◌, ◌≤◌, ◌<◌, ◌==◌, min, length, drop, slice_index_or, if◌then◌else◌};
ghost use Rattle.job_report.specs.declared.limits.TheConstants.{DRIFT_MOST, WEIGHT_MOST};
ghost use Rattle.syntax_types.specs.declared.picture.TheConstants.{I_PICTURE, P_PICTURE};
ghost use Rattle.program_reader.specs.declared.program.UnitSource.{UnitSource as AnyUnit};
ghost use Rattle.program_reader.specs.Carry as spec;
ghost use Rattle.program_reader.specs.Private.Frames.{begins_i, p_more};

use crate::limits::{FRAMES_CARRIED_MOST, UNIT_WEIGHT_MOST};
use crate::program::UnitSource;
use crate::timed_picture::Role;
use syntax_types::{B_PICTURE, I_PICTURE, P_PICTURE};

/// What the distortions of the unit at a place are multiplied by, in a program of this weight and drift. No more than the units of 13
/// coded frames of I and P pictures behind it, and the B pictures between them, are looked at.
pub fn unit_weight(units: &[UnitSource], k: usize, weight: u8, drift: u8) -> u32
    requires k { k < length units.now }
    requires weight { weight ≤ WEIGHT_MOST }
    requires drift { drift ≤ DRIFT_MOST }
    ensures value { (other : AnyUnit) → result ≡ spec.unit_weight weight drift (slice_index_or units.now k other) (drop (k + 1) units.now) }
    ensures most { result ≤ UNIT_WEIGHT_MOST }
{
    if drift == 0 {
        return u32::from(weight);
    }
    u32::from(weight) * u32::from(carry(units, k, drift))
}

/// The carry of the unit at a place.
fn carry(units: &[UnitSource], k: usize, drift: u8) -> u8
    requires k { k < length units.now }
    requires drift { drift ≤ DRIFT_MOST }
    ensures value { (other : AnyUnit) → result ≡ spec.carry drift (slice_index_or units.now k other) (drop (k + 1) units.now) }
    ensures most { result ≤ 200 }
{
    if units[k].kind == B_PICTURE {
        return 4;
    }
    8 + drift * p_frames(units, k + 1)
}

/// How many coded frames with a P picture there are from a place on before the next coded frame with an I picture, but 12 at most.
fn p_frames(units: &[UnitSource], from: usize) -> u8
    requires from { from ≤ length units.now }
    ensures value { result ≡ min FRAMES_CARRIED_MOST (spec.p_frames (drop from units.now)) }
    ensures most { result ≤ FRAMES_CARRIED_MOST }
{
    let mut count = 0;
    for at in from..units.len() {
        if count == FRAMES_CARRIED_MOST {
            return count;
        }
        if begins_i(&units[at]) {
            return count;
        }
        count += p_more(&units[at]);
    }
    count
}

/// True where a coded frame with an I picture begins.
fn begins_i(unit: &UnitSource) -> bool
    ensures { result ≡ begins_i unit.now }
{
    begins_frame(unit.role) && unit.kind == I_PICTURE
}

/// One where a coded frame with a P picture begins, and none elsewhere.
fn p_more(unit: &UnitSource) -> u8
    ensures value { result ≡ p_more unit.now }
    ensures most { result ≤ 1 }
{
    if begins_frame(unit.role) && unit.kind == P_PICTURE {
        1
    } else {
        0
    }
}

/// True where a coded frame begins.
fn begins_frame(role: Role) -> bool
    ensures { result ≡ spec.begins_frame role }
{
    match role {
        Role::Frame => true,
        Role::FirstField => true,
        Role::SecondField => false,
    }
}

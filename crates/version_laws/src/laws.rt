//! What holds of all versions of units.
ghost use Rattle.std.specs.Prelude.{◌≤◌, ◌<◌, ◌+◌, ◌*◌, ℕ, Option, List, All, length};
ghost use Rattle.bit_lists.specs.Fields.{AreBytes};
ghost use Rattle.syntax_types.specs.declared.picture.SeqState.{SeqState};
ghost use Rattle.picture_grammar.specs.Picture.{MayPrecede};
ghost use Rattle.version_table.specs.Table.{IsValidVersion};
ghost use Rattle.version_maker.specs.declared.version.UnitVersion.{UnitVersion};
ghost use Rattle.version_maker.specs.declared.version.VersionSize.{VersionSize};
ghost use Rattle.version_maker.specs.Versions.{AreSizes, AreVersions};

use crate::limits::{UNIT_VERSION_BYTES_MOST, UNIT_VERSION_DISTORTION_MOST};
use pes_units::MOST_HEADER_BYTES;
use version_maker::UNIT_BYTES_MOST;
use version_table::limits::DISTORTION_LIMIT;

/// No version of a unit is empty or longer than a table allows with a PES header before it, and none is farther from its
/// source than a table allows at the greatest weight.
pub fn versions_are_bounded()
    ensures { (before : Option SeqState) (unit coarser : List ℕ) (versions : List UnitVersion) → MayPrecede before → AreBytes unit → length unit ≤ UNIT_BYTES_MOST
        → AreVersions before unit coarser versions
        → All (λ version. (1 ≤ length version.bytes) × (length version.bytes ≤ UNIT_VERSION_BYTES_MOST) × (version.distortion ≤ UNIT_VERSION_DISTORTION_MOST)) versions }
{}

/// So are the sizes of a unit's versions.
pub fn sizes_are_bounded()
    ensures { (before : Option SeqState) (unit coarser : List ℕ) (sizes : List VersionSize) → MayPrecede before → AreBytes unit → length unit ≤ UNIT_BYTES_MOST
        → AreSizes before unit coarser sizes
        → All (λ size. (1 ≤ size.bytes) × (size.bytes ≤ UNIT_VERSION_BYTES_MOST) × (size.distortion ≤ UNIT_VERSION_DISTORTION_MOST)) sizes }
{}

/// So a table has a place for each version, with a PES header before its bytes, and at each weight under which the greatest
/// distortion is within its limit.
pub fn versions_have_places()
    ensures { (before : Option SeqState) (unit coarser : List ℕ) (versions : List UnitVersion) (header weight : ℕ) → MayPrecede before → AreBytes unit
        → length unit ≤ UNIT_BYTES_MOST → AreVersions before unit coarser versions → header ≤ MOST_HEADER_BYTES → UNIT_VERSION_DISTORTION_MOST * weight < DISTORTION_LIMIT
        → All (λ version. IsValidVersion (record { bytes = header + length version.bytes; distortion = version.distortion * weight })) versions }
{}

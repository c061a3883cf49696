//! A unit from its head to its end (6.2.2).
ghost use Rattle.std.specs.Prelude.{◌≡◌, ◌≤◌, ◌^◌, ◌++◌, ◌∷◌, [], drop, length, MatchResult, OnOk};
ghost use Rattle.std.specs.Option.{option_copied};
ghost use Rattle.picture_reader.specs.declared.keep.Keep.TheVariants.{Tree};
ghost use Rattle.picture_reader.specs.Picture.{IsRefusedAs};
ghost use Rattle.picture_reader.specs.Private.Unit.{UnitRead};

use crate::cursor::{UnitCursor, UnitPart};
use crate::fault::PictureFault;
use crate::keep::Keep;
use crate::slice::walk_slice;
use list_types::{ListOf, OutOfMemory};
use std::alloc::Global;
use syntax_types::{Macroblock, PictureParameters, SeqState, Slice};
use video_headers::Headers;

/// A unit that was read.
#[derive(Drop)]
pub struct UnitWalked {
    pub headers: Headers,
    /// The slices, where they are kept.
    pub slices: ListOf<Slice>,
    /// A sequence end code stands behind them.
    pub sequence_end: bool,
}

/// Goes through a unit, from its head to its end, and keeps its slices or nothing.
pub fn walk_unit(
    alloc: Global,
    unit: &[u8],
    before: Option<&SeqState>,
    keep: Keep,
) -> Result<UnitWalked, PictureFault>
    requires { length unit.now ≤ 2 ^ 60 }
    ensures { MatchResult result (UnitRead (option_copied before.entry) unit.now keep) (IsRefusedAs (option_copied before.entry) unit.now) }
{
    let mut cursor = match UnitCursor::new(unit, before) {
        Ok(cursor) => cursor,
        Err(fault) => return Err(fault),
    };
    let mut lent = Macroblock::empty();
    let mut slices = ListOf::new(alloc);
    'slices: loop {
        let part = match cursor.next(unit) {
            Ok(part) => part,
            Err(fault) => return Err(fault),
        };
        match part {
            UnitPart::End { sequence_end } => {
                return Ok(UnitWalked {
                    headers: cursor.headers,
                    slices,
                    sequence_end,
                });
            }
            UnitPart::Slice { row, at } => {
                let bytes = bytes_from(unit, at);
                let headers = cursor.headers;
                let picture = PictureParameters {
                    seq: &headers.seq,
                    coding: &headers.coding,
                };
                let walked = match walk_slice(bytes, picture, row, keep, &mut lent, alloc) {
                    Ok(walked) => walked,
                    Err(fault) => return Err(cursor.fault_of(unit, row, at, fault)),
                };
                cursor = cursor.past(unit, row, at, walked.bits, walked.span);
                keep_slice(keep, &mut slices, walked.slice)?;
            }
        }
    }
}

/// The bytes from this one on.
fn bytes_from(unit: &[u8], first: usize) -> &[u8]
    requires { first ≤ length unit.now }
    ensures { result.now ≡ drop first unit.now }
{
    &unit[first..]
}

/// Puts a slice behind those that are kept, if they are.
fn keep_slice(keep: Keep, kept: &mut ListOf<Slice>, slice: Slice) -> Result<(), OutOfMemory>
    ensures { OnOk result (keep ≡ Tree → kept.new ≡ kept.old ++ slice ∷ []) }
{
    match keep {
        Keep::Tree => kept.push(slice),
        Keep::Nothing => Ok(()),
    }
}

//! The version of a unit, written while the unit is read: one slice after another, of which none is kept.
ghost use Rattle.std.specs.Prelude.{◌≡◌, ◌≤◌, ◌^◌, ℕ, List, length, take, MatchResult, OnOk};
ghost use Rattle.std.specs.Option.{option_copied};
ghost use Rattle.shelf_io.specs.Sink.{with_bytes};
ghost use Rattle.bit_cursor.specs.BitWriter.{AddsBits};
ghost use Rattle.picture_grammar.specs.Picture.{MayPrecede};
ghost use Rattle.picture_heads.specs.Heads.{HasDelay, IsHeadWithoutDelay};
ghost use Rattle.picture_reader.specs.Picture.{IsRefusedAs};
ghost use Rattle.picture_writer.specs.WrittenPicture.{written_end};
ghost use Rattle.version_maker.specs.Private.Bytes.{AreCoarserBytesOf};
ghost use Rattle.version_maker.specs.Private.Making.{IsMadeVersion};

use crate::lent::Lent;
use crate::limits::UNIT_BYTES_MOST;
use crate::sizes::bytes_from;
use crate::slice_version::{in_memory, make_slice};
use bit_cursor::BitWriter;
use list_types::{ListOf, OutOfMemory};
use picture_heads::without_delay;
use picture_reader::{PictureFault, UnitCursor, UnitPart};
use picture_writer::write_end;
use shelf_io::{Sink, VecSink, put_all};
use std::alloc::Global;
use syntax_types::{PictureParameters, SeqState};

/// The bytes of the version at `m` sixteenths.
pub fn coarser_bytes(
    alloc: Global,
    unit: &[u8],
    before: Option<&SeqState>,
    m: u16,
) -> Result<ListOf<u8>, PictureFault>
    requires unit { length unit.now ≤ UNIT_BYTES_MOST }
    requires before { MayPrecede (option_copied before) }
    ensures { MatchResult result (AreCoarserBytesOf (option_copied before.entry) unit.now m) (IsRefusedAs (option_copied before.entry) unit.now) }
{
    let mut sink = VecSink::new(alloc);
    match make_version(alloc, unit, before, m, &mut sink) {
        Ok(()) => Ok(ListOf::from_vec(sink.into_bytes())),
        Err(fault) => Err(fault),
    }
}

/// Writes the version at `m` sixteenths. A fault of the sink is answered as want of memory.
fn make_version<K: Sink>(
    alloc: Global,
    unit: &[u8],
    before: Option<&SeqState>,
    m: u16,
    to: &mut K,
) -> Result<(), PictureFault>
    requires unit { length unit.now ≤ UNIT_BYTES_MOST }
    requires before { MayPrecede (option_copied before) }
    ensures { MatchResult result (λ _. IsMadeVersion (option_copied before.entry) unit.now m (K.written to.old) (K.written to.new))
        (IsRefusedAs (option_copied before.entry) unit.now) }
{
    let mut cursor = match UnitCursor::new(unit, before) {
        Ok(cursor) => cursor,
        Err(fault) => return Err(fault),
    };
    write_head(alloc, unit, cursor.headers.slices_at as usize, to)?;
    let mut lent = Lent::new();
    'slices: loop {
        let part = match cursor.next(unit) {
            Ok(part) => part,
            Err(fault) => return Err(fault),
        };
        match part {
            UnitPart::End { sequence_end } => {
                write_last(sequence_end, to)?;
                return Ok(());
            }
            UnitPart::Slice { row, at } => {
                let bytes = bytes_from(unit, at);
                let picture = PictureParameters {
                    seq: &cursor.headers.seq,
                    coding: &cursor.headers.coding,
                };
                let made = match make_slice(alloc, bytes, picture, row, m, &mut lent, to) {
                    Ok(made) => made,
                    Err(fault) => return Err(cursor.fault_of(unit, row, at, fault)),
                };
                cursor = cursor.past(unit, row, at, made.bits, made.span);
            }
        }
    }
}

/// Writes the first so many bytes of a unit, its head, without its vbv_delay.
fn write_head<K: Sink>(
    alloc: Global,
    unit: &[u8],
    size: usize,
    to: &mut K,
) -> Result<(), OutOfMemory>
    requires within { size ≤ length unit.now }
    requires delay { (front : List ℕ) × (delay : List ℕ) × (back : List ℕ) × HasDelay (take size unit.now) front delay back }
    ensures { OnOk result ((head : List ℕ) × IsHeadWithoutDelay (take size unit.now) head × (K.written to.new ≡ with_bytes (K.written to.old) head)) }
{
    let head = without_delay(alloc, &unit[..size])?;
    in_memory(put_all(to, head.as_slice()))
}

/// Writes the sequence end code where it stands.
fn write_last<K: Sink>(sequence_end: bool, to: &mut K) -> Result<(), OutOfMemory>
    ensures { OnOk result (AddsBits (K.written to.old) (K.written to.new) (written_end sequence_end)) }
{
    let mut writer = BitWriter::new(to);
    in_memory(write_end(&mut writer, sequence_end))?;
    in_memory(writer.finish())
}

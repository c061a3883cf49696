//! A video whose units are sent, one behind the other.
ghost use Rattle.std.specs.Prelude.{◌≡◌, ℕ, ◌≤◌, ◌<◌, All, List, None, Some, length, slice_index_or, IfOk, IsSome, OnOk, false, []};
ghost use Rattle.program_reader.specs.declared.program.UnitSource.{UnitSource};
ghost use Rattle.version_maker.specs.declared.version.UnitVersion.{UnitVersion};
ghost use Rattle.mux_writer.specs.Pieces.{HasPayloadSize, IsFilledWith};
ghost use Rattle.version_source.specs.Pieces.{video_items};
ghost use Rattle.version_source.specs.Sendable.{IsUnitOf, SpellInOrder};
ghost use Rattle.version_source.specs.Versions.{AreVideoVersions};
ghost use Rattle.version_source.specs.Private.Kept.{IsKept, IsVideo};
ghost use Rattle.version_source.specs.Private.Made.{HasVersions};
ghost use Rattle.version_source.specs.Private.Sending.{LeaveBehind};

use crate::packet::{packet_piece, unit_packet};
use crate::state::state_behind;
use list_types::{ListOf, OutOfMemory};
use mux_writer::Filled;
use program_reader::UnitSource;
use std::alloc::Global;
use stream_constants::packets::PAYLOAD_BYTES;
use syntax_types::SeqState;

/// A video in versions: its bytes, its units, the ratios of their versions, and the number of the chosen one for each unit.
#[derive(Clone, Copy)]
pub struct Video<'a> {
    pub es: &'a [u8],
    pub units: &'a [UnitSource],
    pub coarser: &'a [u16],
    pub choice: &'a [u8],
}

/// What is kept of a video whose units are sent, one sequence state and one PES packet.
#[derive(Drop)]
pub struct SentVideo {
    /// The number of a unit.
    pub unit: usize,
    /// The state in force before it.
    pub before: Option<SeqState>,
    /// Its PES packet, once a piece of it was asked for.
    pub packet: Option<ListOf<u8>>,
}

impl SentVideo {
    /// Before the first unit.
    pub fn new() -> SentVideo
        ensures unit { result.unit ≡ 0 }
        ensures before { result.before ≡ None }
        ensures packet { result.packet ≡ None }
    {
        SentVideo {
            unit: 0,
            before: None,
            packet: None,
        }
    }

    /// Puts a piece of a unit's PES packet into the front of `into`. After want of memory what is kept still serves.
    pub fn piece(
        &mut self,
        alloc: Global,
        video: &Video<'_>,
        number: usize,
        k: u32,
        into: &mut [u8; PAYLOAD_BYTES],
    ) -> Result<Filled, OutOfMemory>
        requires video { IsVideo video.now.es.now video.now.coarser.now video.now.units.now video.now.choice.now }
        requires made { HasVersions video.now.es.now video.now.coarser.now video.now.units.now }
        requires kept { IsKept video.now.es.now video.now.coarser.now video.now.units.now video.now.choice.now self.old }
        requires number { number < length video.now.units.now }
        requires piece { (versions : List (List UnitVersion)) → AreVideoVersions video.now.es.now video.now.coarser.now None video.now.units.now versions
            → k < length (slice_index_or (video_items video.now.units.now versions video.now.choice.now) number []) }
        ensures kept { IsKept video.now.es.now video.now.coarser.now video.now.units.now video.now.choice.now self.new }
        ensures size { IfOk result (λ filled. HasPayloadSize filled.bytes) }
        ensures piece { IfOk result (λ filled. (versions : List (List UnitVersion)) → AreVideoVersions video.now.es.now video.now.coarser.now None video.now.units.now versions
            → IsFilledWith (slice_index_or (slice_index_or (video_items video.now.units.now versions video.now.choice.now) number []) k (record { start = false; bytes = [] })) filled into.new) }
    {
        self.hold(alloc, video, number)?;
        match &self.packet {
            Some(packet) => Ok(packet_piece(packet.as_slice(), k, into)),
            None => unreachable!(),
        }
    }

    /// Keeps the PES packet of the unit of this number. Where that isn't the one that is kept or a later one, the state before it
    /// is made again from the first unit on. After want of memory nothing but what was kept is kept.
    pub fn hold(
        &mut self,
        alloc: Global,
        video: &Video<'_>,
        number: usize,
    ) -> Result<(), OutOfMemory>
        requires video { IsVideo video.now.es.now video.now.coarser.now video.now.units.now video.now.choice.now }
        requires kept { IsKept video.now.es.now video.now.coarser.now video.now.units.now video.now.choice.now self.old }
        requires number { number < length video.now.units.now }
        ensures kept { IsKept video.now.es.now video.now.coarser.now video.now.units.now video.now.choice.now self.new }
        ensures held { OnOk result (self.new.unit ≡ number) }
        ensures packet { OnOk result (IsSome self.new.packet) }
    {
        self.go_to(video, number)?;
        if self.packet.is_some() {
            return Ok(());
        }
        let packet = unit_packet(
            alloc,
            video.es,
            &video.units[number],
            self.before.as_ref(),
            video.coarser,
            video.choice[number],
        )?;
        self.packet = Some(packet);
        Ok(())
    }

    /// Goes to the unit of this number.
    fn go_to(&mut self, video: &Video<'_>, number: usize) -> Result<(), OutOfMemory>
        requires video { IsVideo video.now.es.now video.now.coarser.now video.now.units.now video.now.choice.now }
        requires kept { IsKept video.now.es.now video.now.coarser.now video.now.units.now video.now.choice.now self.old }
        requires number { number < length video.now.units.now }
        ensures kept { IsKept video.now.es.now video.now.coarser.now video.now.units.now video.now.choice.now self.new }
        ensures there { OnOk result (self.new.unit ≡ number) }
    {
        if self.unit == number {
            return Ok(());
        }
        let before = if self.unit < number {
            state_before(video.es, video.units, self.unit, self.before, number)?
        } else {
            state_before(video.es, video.units, 0, None, number)?
        };
        self.unit = number;
        self.before = before;
        self.packet = None;
        Ok(())
    }
}

/// The state before the unit of this number, from the one before an earlier unit on.
fn state_before(
    es: &[u8],
    units: &[UnitSource],
    from: usize,
    before: Option<SeqState>,
    number: usize,
) -> Result<Option<SeqState>, OutOfMemory>
    requires units { All (IsUnitOf es.now) units.now }
    requires pictures { SpellInOrder es.now None units.now }
    requires before { LeaveBehind es.now None units.now from before }
    requires order { from ≤ number }
    requires within { number ≤ length units.now }
    ensures { IfOk result (LeaveBehind es.now None units.now number) }
{
    let mut state = before;
    for k in from..number {
        let next = state_behind(es, &units[k], state.as_ref())?;
        state = Some(next);
    }
    Ok(state)
}

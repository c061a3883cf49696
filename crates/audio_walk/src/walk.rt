//! An audio stream that is read while its PES packets pass.
ghost use Rattle.std.specs.Prelude.{◌≡◌, ◌⊎◌, ℕ, ◌+◌, ◌≤◌, false, List, [], ◌∷◌, ◌++◌, length, None, Some, IfErr, IfOk, MatchResult, if◌then◌else◌};
ghost use Rattle.std.specs.List.{sum_by};
ghost use Rattle.std.specs.Option.{option_copied, option_to_list};
ghost use Rattle.audio_frames.specs.declared.limits.TheConstants.{PAYLOAD_BYTES_MOST};
ghost use Rattle.audio_frames.specs.Walk.{bytes_seen};
ghost use Rattle.pes_units.specs.PesHeader.{pes_fields_of};
ghost use Rattle.pes_units.specs.PesPackets.{is_dropped, last_refusal, packet_refusal};
ghost use Rattle.ts_demux.specs.declared.demuxed.AudioStream.{AudioStream};
ghost use Rattle.ts_demux.specs.declared.demuxed.PesUnit.{PesUnit};
ghost use Rattle.elementary_streams.specs.declared.pes_starts.TheConstants.{PES_PACKETS_MOST};
ghost use Rattle.elementary_streams.specs.declared.stream_fault.StreamFault.TheVariants as faults;
ghost use Rattle.elementary_streams.specs.Audio.{IsStreamRead, IsStreamRefused, of_frames};
ghost use Rattle.elementary_streams.specs.NearTimes.{IsNear};
ghost use Rattle.elementary_streams.specs.Private.TakenPackets.{IsFaultOf};
ghost use Rattle.pes_passing.specs.PassingPackets.{AreSplit};

use crate::first_rate::FirstRate;
use audio_frames::{AudioFault, FrameWalk};
use elementary_streams::{
    AxisTime, PlacedPacket, ReadStream, StreamFault, audio_starts, bytes_behind,
};
use list_types::OutOfMemory;
use pes_units::PesHeader;
use std::alloc::Global;
use ts_demux::PesUnit;

/// `stream_type` of audio of ISO/IEC 11172-3.
const AUDIO: u8 = 0x03;

/// `stream_type` of audio of ISO/IEC 13818-3, whose sampling rates are low.
const LOW_RATE_AUDIO: u8 = 0x04;

/// An audio stream that is read while its PES packets pass, each of which is given whole. It keeps where each packet and frame stands; and of the bytes those that
/// `FrameWalk` keeps, and as many until the first frame is known.
#[derive(Drop)]
pub struct AudioWalk {
    alloc: Global,
    packets: Vec<PlacedPacket>,
    /// The bytes of their payloads.
    bytes: u64,
    frames: FrameWalk,
    rate: FirstRate,
    ghost seen: { bytes ≡ bytes_seen frames },
    ghost few: { bytes ≤ PAYLOAD_BYTES_MOST },
}

impl AudioWalk {
    ghost use Rattle.audio_walk.specs.AudioWalk.{HasRead, IsFaultBefore, IsPlaced, packet_count, payload_bytes};
    ghost use Rattle.audio_walk.specs.Private.Ends.{EndsWith};

    /// A walk before the first PES packet of an audio stream.
    pub fn new(alloc: Global) -> Self
        ensures { HasRead [] result }
    {
        AudioWalk {
            alloc,
            packets: Vec::new(alloc),
            bytes: 0,
            frames: FrameWalk::new(alloc),
            rate: FirstRate::new(alloc),
        }
    }

    /// How many PES packets are taken.
    pub fn count(&self) -> usize
        ensures { result ≡ packet_count self.now }
    {
        self.packets.len()
    }

    /// How many bytes their payloads have.
    pub fn bytes(&self) -> u64
        ensures { result ≡ payload_bytes self.now }
    {
        self.bytes
    }

    /// The walk behind the next PES packet, which another one follows. An error is its fault, which is the stream's first refusal, or want of
    /// memory.
    pub fn take(self, packet: &PesUnit) -> Result<Self, StreamFault>
        requires { payload_bytes self + length packet.now.bytes ≤ PAYLOAD_BYTES_MOST }
        ensures read { (packets : List PesUnit) → HasRead packets self → IfOk result (HasRead (packets ++ packet.now ∷ [])) }
        ensures refused { (packets : List PesUnit) → HasRead packets self →
            IfErr result (λ fault. (fault ≡ faults.OutOfMemory) ⊎ IsFaultBefore packets packet.now fault) }
    {
        let header = match whole_header(packet) {
            Ok(header) => header,
            Err(fault) => return Err(fault),
        };
        let walk = self.add(packet, header)?;
        Ok(walk)
    }

    /// What is read of the stream of a program whose video begins at a time, behind the last PES packet, which the file's end may cut; a stream may have none
    /// at all. An error is the stream's first refusal, or want of memory.
    pub fn end(self, last: Option<&PesUnit>, first: &AxisTime) -> Result<ReadStream, StreamFault>
        requires read { (packets : List PesUnit) × (all : List PesUnit) × HasRead packets self × AreSplit all packets (option_copied last) }
        requires few { packet_count self + length (option_to_list (option_copied last)) ≤ PES_PACKETS_MOST }
        requires size { payload_bytes self + sum_by (λ packet. length packet.bytes) (option_to_list (option_copied last)) ≤ PAYLOAD_BYTES_MOST }
        requires first { IsNear 0 first.now.time }
        ensures { (packets : List PesUnit) (stream : AudioStream) → HasRead packets self → AreSplit stream.units packets (option_copied last.entry) →
            MatchResult result (IsStreamRead first.now.time stream) (λ fault. (fault ≡ faults.OutOfMemory) ⊎ IsStreamRefused first.now.time stream fault) }
    {
        let Some(last) = last else {
            return self.finish(0, first);
        };
        match last_header(last) {
            Ok(Some(header)) => {
                let walk = self.add(last, header)?;
                walk.finish(0, first)
            }
            Ok(None) => self.finish(1, first),
            Err(fault) => Err(fault),
        }
    }

    /// The walk behind a PES packet with this header.
    fn add(self, packet: &PesUnit, header: PesHeader) -> Result<Self, OutOfMemory>
        requires size { payload_bytes self + length packet.now.bytes ≤ PAYLOAD_BYTES_MOST }
        requires header { header ≡ pes_fields_of packet.now.bytes }
        ensures { (packets : List PesUnit) → IsPlaced packets self → IfOk result (IsPlaced (packets ++ packet.now ∷ [])) }
    {
        let AudioWalk {
            alloc,
            mut packets,
            bytes,
            frames,
            mut rate,
        } = self;
        let payload = bytes_behind(packet.bytes.as_slice(), header.len as usize);
        let end = bytes + payload.len() as u64;
        packets.push(PlacedPacket {
            from: bytes,
            end,
            header,
        })?;
        let frames = frames.push(payload)?;
        rate.push(payload, &frames)?;
        Ok(AudioWalk {
            alloc,
            packets,
            bytes: end,
            frames,
            rate,
        })
    }

    /// Ends the walk behind all PES packets that are taken, beside which so many are dropped.
    fn finish(self, dropped: u32, first: &AxisTime) -> Result<ReadStream, StreamFault>
        requires read { (packets : List PesUnit) × (all : List PesUnit) × IsPlaced packets self × EndsWith packets dropped all }
        requires few { packet_count self ≤ PES_PACKETS_MOST }
        requires first { IsNear 0 first.now.time }
        ensures { (packets : List PesUnit) (stream : AudioStream) → IsPlaced packets self → EndsWith packets dropped stream.units →
            MatchResult result (IsStreamRead first.now.time stream) (λ fault. (fault ≡ faults.OutOfMemory) ⊎ IsStreamRefused first.now.time stream fault) }
    {
        let AudioWalk {
            alloc,
            packets,
            bytes,
            frames,
            rate,
        } = self;
        let starts = audio_starts(alloc, packets.as_slice(), first)?;
        match frames.end(alloc, starts.as_slice()) {
            Ok(frames) => Ok(ReadStream {
                packets,
                dropped,
                bytes,
                frames,
                kind: stream_type(rate.is_low()),
            }),
            Err(fault) => Err(frames_refused(fault)),
        }
    }
}

/// The header of a PES packet that another one follows. An error is its fault.
fn whole_header(packet: &PesUnit) -> Result<PesHeader, StreamFault>
    ensures sound { IfOk result (λ _. packet_refusal false packet.now.bytes ≡ None) }
    ensures header { IfOk result (λ header. header ≡ pes_fields_of packet.now.bytes) }
    ensures refused { IfErr result (IsFaultOf packet.now.at (packet_refusal false packet.now.bytes)) }
{
    match PesHeader::read_packet(packet.bytes.as_slice(), false) {
        Ok(header) => Ok(header),
        Err(fault) => Err(StreamFault::Pes {
            at: packet.at,
            fault,
        }),
    }
}

/// The header of the last PES packet, or none where it is dropped. An error is its fault.
fn last_header(packet: &PesUnit) -> Result<Option<PesHeader>, StreamFault>
    ensures sound { IfOk result (λ _. last_refusal false packet.now.bytes ≡ None) }
    ensures header { IfOk result (λ header. header ≡ (if is_dropped false packet.now.bytes then None else Some (pes_fields_of packet.now.bytes))) }
    ensures refused { IfErr result (IsFaultOf packet.now.at (last_refusal false packet.now.bytes)) }
{
    match PesHeader::read_last(packet.bytes.as_slice(), false) {
        Ok(header) => Ok(header),
        Err(fault) => Err(StreamFault::Pes {
            at: packet.at,
            fault,
        }),
    }
}

/// The type of an audio stream, by whether the sampling rate of its first frame is low.
fn stream_type(is_low: bool) -> u8
    ensures { result ≡ (if is_low then 4 else 3) }
{
    if is_low { LOW_RATE_AUDIO } else { AUDIO }
}

/// What an audio stream is refused for by a fault of its frames.
fn frames_refused(fault: AudioFault) -> StreamFault
    ensures { result ≡ of_frames fault }
{
    match fault {
        AudioFault::OutOfMemory => StreamFault::OutOfMemory,
        _ => StreamFault::Frames(fault),
    }
}

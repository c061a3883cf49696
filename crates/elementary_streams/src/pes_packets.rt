//! The PES packets of a stream that are taken (ISO/IEC 13818-1, 2.4.3.6).
ghost use Rattle.std.specs.Prelude.{◌≡◌, ◌⊎◌, ◌∷◌, ◌++◌, [], List, drop, length, None, MatchResult, OnOk, IfErr, IfOk, if◌then◌else◌};
ghost use Rattle.pes_units.specs.PesHeader.{pes_fields_of};
ghost use Rattle.ts_demux.specs.declared.demuxed.PesUnit.{PesUnit};
ghost use Rattle.pes_units.specs.PesPackets.{is_dropped, packet_refusal, last_refusal};
ghost use Rattle.elementary_streams.specs.declared.stream_fault.StreamFault.TheVariants.{OutOfMemory};
ghost use Rattle.elementary_streams.specs.Packets.{IsPacketFault};
ghost use Rattle.elementary_streams.specs.Taken.{Holds, AreTaken};
ghost use Rattle.elementary_streams.specs.Private.TakenPackets.{Adds, IsFaultOf, last_taken};

use crate::stream_fault::StreamFault;
use pes_units::PesHeader;
use std::alloc::{AllocError, Global};
use ts_demux::PesUnit;

/// A PES packet that is taken, and where its payload stands among those of its stream.
#[derive(Clone, Copy)]
pub struct PlacedPacket {
    /// The place of its first payload byte in the joined payload, and the one behind its last.
    pub from: u64,
    pub end: u64,
    /// What its header says.
    pub header: PesHeader,
}

/// The PES packets of a stream that are taken.
#[derive(Drop)]
pub struct TakenPackets {
    /// Their payloads, one behind the other.
    pub payload: Vec<u8>,
    pub packets: Vec<PlacedPacket>,
    /// How many are dropped.
    pub dropped: u32,
}

/// Takes the PES packets of a video stream, or else of an audio stream: all, but a last one that the file's end cuts. An
/// error is the fault of the first packet that has one.
pub fn take_packets(
    alloc: Global,
    packets: &[PesUnit],
    video: bool,
) -> Result<TakenPackets, StreamFault>
    ensures { MatchResult result (AreTaken video packets.now) (λ fault. (fault ≡ OutOfMemory) ⊎ IsPacketFault video packets.now fault) }
{
    let mut held = TakenPackets::with_room(alloc, packets)?;
    let Some((last, others)) = packets.split_last() else {
        return Ok(held);
    };
    for packet in others {
        match held.take_whole(packet, video) {
            Ok(()) => {}
            Err(fault) => return Err(fault),
        }
    }
    match held.take_last(last, video) {
        Ok(()) => Ok(held),
        Err(fault) => Err(fault),
    }
}

impl TakenPackets {
    /// None are taken, with room for all of these.
    fn with_room(alloc: Global, packets: &[PesUnit]) -> Result<Self, AllocError>
        ensures { IfOk result (λ held. Holds [] held × (held.dropped ≡ 0)) }
    {
        Ok(TakenPackets {
            payload: Vec::with_capacity(alloc, bytes_of(packets))?,
            packets: Vec::with_capacity(alloc, packets.len())?,
            dropped: 0,
        })
    }

    /// Takes a PES packet that others follow.
    fn take_whole(&mut self, packet: &PesUnit, video: bool) -> Result<(), StreamFault>
        ensures sound { OnOk result (packet_refusal video packet.now.bytes ≡ None) }
        ensures adds { OnOk result (Adds (packet.now ∷ []) self.old self.new) }
        ensures refused { IfErr result (IsFaultOf packet.now.at (packet_refusal video packet.now.bytes)) }
    {
        let header = match PesHeader::read_packet(packet.bytes.as_slice(), video) {
            Ok(header) => header,
            Err(fault) => {
                return Err(StreamFault::Pes {
                    at: packet.at,
                    fault,
                });
            }
        };
        self.add(packet, header)?;
        Ok(())
    }

    /// Takes the last PES packet, or drops it where the file's end cuts it.
    fn take_last(&mut self, packet: &PesUnit, video: bool) -> Result<(), StreamFault>
        requires { self.old.dropped ≡ 0 }
        ensures sound { OnOk result (last_refusal video packet.now.bytes ≡ None) }
        ensures adds { OnOk result ((before : List PesUnit) → Holds before self.old → Holds (before ++ last_taken video packet.now) self.new) }
        ensures dropped { OnOk result (self.new.dropped ≡ (if is_dropped video packet.now.bytes then 1 else 0)) }
        ensures refused { IfErr result (IsFaultOf packet.now.at (last_refusal video packet.now.bytes)) }
    {
        let read = match PesHeader::read_last(packet.bytes.as_slice(), video) {
            Ok(read) => read,
            Err(fault) => {
                return Err(StreamFault::Pes {
                    at: packet.at,
                    fault,
                });
            }
        };
        match read {
            Some(header) => self.add(packet, header)?,
            None => self.dropped = 1,
        }
        Ok(())
    }

    /// Adds a PES packet with this header.
    fn add(&mut self, packet: &PesUnit, header: PesHeader) -> Result<(), AllocError>
        requires { header ≡ pes_fields_of packet.now.bytes }
        ensures { OnOk result (Adds (packet.now ∷ []) self.old self.new) }
    {
        let payload = bytes_behind(packet.bytes.as_slice(), header.len as usize);
        let from = count_of(&self.payload);
        self.payload.extend_from_slice(payload)?;
        let end = count_of(&self.payload);
        self.packets.push(PlacedPacket { from, end, header })?;
        Ok(())
    }
}

/// How many bytes PES packets have, as room for them: nothing is promised of it.
pub fn bytes_of(packets: &[PesUnit]) -> usize {
    let mut bytes = 0usize;
    for packet in packets {
        bytes = bytes.wrapping_add(packet.bytes.len());
    }
    bytes
}

/// The bytes behind so many, or none where there are fewer.
pub fn bytes_behind(bytes: &[u8], count: usize) -> &[u8]
    ensures { result.now ≡ drop count bytes.now }
{
    if count <= bytes.len() {
        &bytes[count..]
    } else {
        &[]
    }
}

/// The number of bytes.
pub(crate) fn count_of(bytes: &Vec<u8>) -> u64
    ensures { result ≡ length bytes.now.items }
{
    bytes.as_slice().len() as u64
}

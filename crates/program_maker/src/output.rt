//! Transport packets of a program in the making (ISO/IEC 13818-1, 2.4.3.2 to 2.4.3.5).
ghost use Rattle.std.specs.Prelude.{◌≡◌, ◌≢◌, ◌<◌, ◌≤◌, ◌+◌, ◌*◌, ◌^◌, [], ◌∷◌, ◌++◌, List, length, OnOk};
ghost use Rattle.std.specs.Fork.{slice_chunk};
ghost use Rattle.ts_packets.specs.Packet.{PacketRecord, IsWritable, record_of, written};
ghost use Rattle.psi_tables.specs.Sections.{section_payload};
ghost use Rattle.program_maker.specs.Packets.{payload_packet, payloads_of, pcr_packet, pes_packets, section_packet, stuffing as stuffing_of};
ghost use Rattle.program_maker.specs.Private.Output.{IsBehind, TakesCounter, pid_of};

use crate::format::{AUDIO_PID, FIRST_TIME, PCR_LEAD, PICTURE_TIME, PICTURES_MOST, VIDEO_PID};
use list_types::{ListOf, OutOfMemory};
use std::alloc::Global;
use stream_constants::clock::TICKS_PER_TIME_UNIT;
use stream_constants::packets::{PACKET_BYTES, PAYLOAD_BYTES};
use ts_packets::{AdaptationField, Packet};

/// The elementary streams of the program.
#[derive(Clone, Copy)]
pub enum Carried {
    Video,
    Audio,
}

/// Packets in order, and the counters of those to come.
#[derive(Drop)]
pub struct Output {
    bytes: Vec<u8>,
    video: u8,
    audio: u8,
}

impl Output {
    /// No packet yet.
    pub fn new(alloc: Global) -> Self
        ensures { IsBehind [] result }
    {
        Output {
            bytes: Vec::new(alloc),
            video: 0,
            audio: 0,
        }
    }

    /// The packets' bytes, without taking memory.
    pub fn into_bytes(self) -> ListOf<u8>
        ensures { result ≡ self.bytes.items }
    {
        let Output {
            bytes,
            video: _,
            audio: _,
        } = self;
        ListOf::from_vec(bytes)
    }

    /// Writes a section in a packet of its own, the first of its PID.
    pub fn put_section(&mut self, pid: u16, section: &[u8]) -> Result<(), OutOfMemory>
        requires pid { pid < 2 ^ 13 }
        requires few { length section.now < PAYLOAD_BYTES }
        ensures { (packets : List PacketRecord) → IsBehind packets self.old → payloads_of pid packets ≡ 0 → pid ≢ VIDEO_PID → pid ≢ AUDIO_PID →
            OnOk result (IsBehind (packets ++ section_packet pid section.now ∷ []) self.new) }
    {
        let payload = section_bytes(section);
        self.put(&Packet {
            pid,
            start: true,
            counter: 0,
            field: None,
            payload: &payload,
        })
    }

    /// Writes the PCR before picture k.
    pub fn put_pcr(&mut self, k: u32) -> Result<(), OutOfMemory>
        requires { k < PICTURES_MOST }
        ensures { (packets : List PacketRecord) → IsBehind packets self.old → OnOk result (IsBehind (packets ++ pcr_packet k ∷ []) self.new) }
    {
        let time = FIRST_TIME + PICTURE_TIME * u64::from(k) - PCR_LEAD;
        self.put(&Packet {
            pid: VIDEO_PID,
            start: false,
            counter: (self.video % 16 + 15) % 16,
            field: Some(AdaptationField {
                discontinuity: false,
                pcr: Some(TICKS_PER_TIME_UNIT * time),
            }),
            payload: &[],
        })
    }

    /// Writes a PES packet of a stream.
    pub fn put_pes(&mut self, carried: Carried, bytes: &[u8]) -> Result<(), OutOfMemory>
        ensures { (packets : List PacketRecord) → IsBehind packets self.old → OnOk result (IsBehind (packets ++ pes_packets (pid_of carried) bytes.now) self.new) }
    {
        let count = (bytes.len() + (PAYLOAD_BYTES - 1)) / PAYLOAD_BYTES;
        for n in 0..count {
            self.put_payload(carried, n == 0, chunk(bytes, n))?;
        }
        Ok(())
    }

    // Writes a packet with payload.
    fn put_payload(
        &mut self,
        carried: Carried,
        start: bool,
        payload: &[u8],
    ) -> Result<(), OutOfMemory>
        requires some { 0 < length payload.now }
        requires few { length payload.now ≤ PAYLOAD_BYTES }
        ensures { (packets : List PacketRecord) → IsBehind packets self.old →
            OnOk result (IsBehind (packets ++ payload_packet (pid_of carried) start payload.now ∷ []) self.new) }
    {
        let counter = self.take_counter(carried);
        self.put(&Packet {
            pid: pid_by(carried),
            start,
            counter,
            field: stuffing(payload.len()),
            payload,
        })
    }

    // The counter of a stream's next packet with payload.
    fn take_counter(&mut self, carried: Carried) -> u8
        ensures counter { TakesCounter carried self.old self.new result }
        ensures below { result < 16 }
        ensures bytes { self.new.bytes.items ≡ self.old.bytes.items }
    {
        match carried {
            Carried::Video => {
                let counter = self.video % 16;
                self.video = (counter + 1) % 16;
                counter
            }
            Carried::Audio => {
                let counter = self.audio % 16;
                self.audio = (counter + 1) % 16;
                counter
            }
        }
    }

    fn put(&mut self, packet: &Packet) -> Result<(), OutOfMemory>
        requires { IsWritable (record_of packet.now) }
        ensures bytes { OnOk result (self.new.bytes.items ≡ self.old.bytes.items ++ written (record_of packet.now)) }
        ensures video { self.new.video ≡ self.old.video }
        ensures audio { self.new.audio ≡ self.old.audio }
    {
        let mut bytes = [0; PACKET_BYTES];
        packet.write(&mut bytes);
        self.bytes.extend_from_slice(&bytes)?;
        Ok(())
    }
}

/// The PID of a stream.
fn pid_by(carried: Carried) -> u16
    ensures { result ≡ pid_of carried }
{
    match carried {
        Carried::Video => VIDEO_PID,
        Carried::Audio => AUDIO_PID,
    }
}

/// The adaptation field beside so many bytes of payload.
fn stuffing(size: usize) -> Option<AdaptationField>
    ensures { result ≡ stuffing_of size }
{
    if size == PAYLOAD_BYTES {
        None
    } else {
        Some(AdaptationField {
            discontinuity: false,
            pcr: None,
        })
    }
}

/// A section behind pointer_field 0, and bytes FF.
fn section_bytes(section: &[u8]) -> [u8; PAYLOAD_BYTES]
    requires { length section.now < PAYLOAD_BYTES }
    ensures { result ≡ section_payload section.now }
{
    let mut payload = [0xFF; PAYLOAD_BYTES];
    payload[0] = 0;
    payload[1..1 + section.len()].copy_from_slice(section);
    payload
}

/// The bytes in the n-th packet of a PES packet.
fn chunk(bytes: &[u8], n: usize) -> &[u8]
    requires { n * PAYLOAD_BYTES < length bytes.now }
    ensures chunk { result.now ≡ slice_chunk bytes.now PAYLOAD_BYTES n }
    ensures some { 0 < length result.now }
    ensures few { length result.now ≤ PAYLOAD_BYTES }
{
    let rest = &bytes[n * PAYLOAD_BYTES..];
    if rest.len() < PAYLOAD_BYTES {
        rest
    } else {
        &rest[..PAYLOAD_BYTES]
    }
}

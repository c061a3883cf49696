//! What the bytes of PES packets are, byte by byte, and what transport packets bring of them (ISO/IEC 13818-1, 2.4.2.3 and 2.4.3.6).
ghost use Rattle.std.specs.Prelude.{◌≡◌, ◌+◌, ◌-◌, ◌<◌, ◌≤◌, ◌^◌, ◌++◌, count_by, drop, replicate, take, length};
ghost use Rattle.pes_units.specs.PesHeader.{header_length};
ghost use Rattle.tstd_model.specs.declared.decoder_input.PacketPart.TheVariants.{Overhead};
ghost use Rattle.tstd_model.specs.PacketBytes.{is_payload};
ghost use Rattle.stream_audit.specs.PesBytes.{brought_by, is_pes_header, part_at, parts_of_packets};
ghost use Rattle.stream_audit.specs.Private.PesParts.{GivesPart, span_of};

use std::marker::Model;
use ts_demux::{PesUnit, Place};
use tstd_model::{Arrival, PacketPart};

/// The bytes of a PES header before those that its ninth byte counts.
const FIRST_BYTES: u64 = 9;

/// The place of that byte.
const COUNT_BYTE: usize = 8;

/// How many bytes of an elementary stream come before those that are kept, and how many are kept.
#[derive(Clone, Copy)]
pub struct KeptBytes {
    pub skipped: u64,
    pub kept: u64,
}

impl KeptBytes {
    /// What the next byte is.
    fn next(&mut self) -> PacketPart
        ensures part { result ≡ part_at (span_of self.old) 0 }
        ensures skipped { self.new.skipped ≡ self.old.skipped - 1 }
        ensures kept { self.new.skipped + self.new.kept ≡ self.old.skipped + self.old.kept - 1 }
    {
        if self.skipped > 0 {
            self.skipped -= 1;
            PacketPart::Overhead
        } else if self.kept > 0 {
            self.kept -= 1;
            PacketPart::Data
        } else {
            PacketPart::Overhead
        }
    }
}

/// The bytes of a stream's PES packets that still come.
#[derive(Drop)]
pub struct PesParts<'a> {
    /// Those that belong to no PES packet and come before the first one.
    before: u64,
    /// Those of the header of the packet that is under way.
    header: u64,
    /// Those behind its header.
    payload: u64,
    /// Which of the elementary stream's are kept, from here on.
    kept: KeptBytes,
    /// The packets behind it.
    later: &'a [PesUnit],
}

impl<'a> Model for PesParts<'a> {
    ghost use Rattle.std.specs.Prelude.{List};
    ghost use Rattle.tstd_model.specs.declared.decoder_input.PacketPart.{PacketPart};
    ghost use Rattle.stream_audit.specs.Private.PesParts.{parts_ahead};

    ghost Value = { List PacketPart };

    ghost view = { λ p. parts_ahead p.before p.header p.payload p.kept p.later.now };
}

/// How many bytes of a transport packet's payload are of PES headers, and how many of these and of kept bytes there are.
#[derive(Clone, Copy)]
struct PartCounts {
    header: u8,
    payload: u8,
}

impl<'a> PesParts<'a> {
    /// Those of these packets, behind so many bytes that belong to none.
    pub fn new(before: u64, kept: KeptBytes, packets: &'a [PesUnit]) -> Self
        ensures { result ≡ replicate before Overhead ++ parts_of_packets (record { from = kept.skipped; to = kept.skipped + kept.kept }) 0 packets.now }
    {
        PesParts {
            before,
            header: 0,
            payload: 0,
            kept,
            later: packets,
        }
    }

    /// What the next byte is.
    fn next(&mut self) -> Option<PacketPart>
        ensures { GivesPart result self.old self.new }
    {
        if self.before > 0 {
            self.before -= 1;
            return Some(PacketPart::Overhead);
        }
        if self.header > 0 {
            self.header -= 1;
            return Some(PacketPart::PesHeader);
        }
        if self.payload > 0 {
            self.payload -= 1;
            return Some(self.kept.next());
        }
        let Some((packet, later)) = self.later.split_first() else {
            return None;
        };
        let bytes = packet.bytes.as_slice();
        let header = header_length(bytes);
        self.header = header - 1;
        self.payload = (bytes.len() as u64).saturating_sub(header);
        self.later = later;
        Some(PacketPart::PesHeader)
    }

    /// What the next bytes are, so many of them, as far as there are some.
    fn take_counts(&mut self, count: u8) -> PartCounts
        ensures header { result.header ≡ count_by is_pes_header (take count self.old) }
        ensures payload { result.payload ≡ count_by is_payload (take count self.old) }
        ensures rest { self.new ≡ drop count self.old }
    {
        let mut counts = PartCounts {
            header: 0,
            payload: 0,
        };
        let mut left = count;
        while left > 0 {
            match self.next() {
                Some(PacketPart::PesHeader) => {
                    counts.header += 1;
                    counts.payload += 1;
                }
                Some(PacketPart::Data) => counts.payload += 1,
                Some(PacketPart::Overhead) => {}
                None => {}
            }
            left -= 1;
        }
        counts
    }

    /// What the next transport packet of the PID brings to the decoder.
    pub fn arrival(&mut self, place: &Place) -> Arrival
        requires { place.now.packet < 2 ^ 32 }
        ensures arrival { result ≡ brought_by place.now (take place.now.payload self.old) }
        ensures rest { self.new ≡ drop place.now.payload self.old }
    {
        let counts = self.take_counts(place.payload);
        Arrival {
            slot_no: place.packet as u32,
            header: counts.header,
            payload: counts.payload,
        }
    }
}

/// The length of the header that the bytes of a PES packet begin with, by its ninth byte.
#[tactic(auto, using(crate::proofs::PartSteps::header_is))]
fn header_length(bytes: &[u8]) -> u64
    ensures value { result ≡ header_length bytes.now }
    ensures some { 0 < result }
{
    if bytes.len() > COUNT_BYTE {
        FIRST_BYTES + u64::from(bytes[COUNT_BYTE])
    } else {
        FIRST_BYTES
    }
}

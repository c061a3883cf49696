//! The packets of a program as a program stream (ISO/IEC 13818-1, 2.5.3).
ghost use Rattle.std.specs.Prelude.{◌≡◌, ◌++◌, length, IfOk, OnOk};
ghost use Rattle.std.specs.List.{flat_map};
ghost use Rattle.program_maker.specs.ProgramStream.{as_element, audio_elements, packet_element, program_stream_of, stated_length};

use list_types::{ListOf, OutOfMemory};
use std::alloc::Global;
use ts_demux::{AudioStream, Demuxed, PesUnit};

/// A pack header without stuffing: its clock reference and rate are made up.
const PACK_HEADER: [u8; 14] = [
    0, 0, 1, 0xBA, 0x44, 0x00, 0x04, 0x00, 0x04, 0x01, 0x00, 0x00, 0x07, 0xF8,
];

/// Bytes of a PES packet up to the end of its length, and how many stand before that length.
const LENGTH_END: usize = 6;

const LENGTH_AT: usize = 4;

/// The packets of a program's streams as a program stream: a pack header, the video's packets, and those of one audio stream after the
/// other, each with its length stated, which a packet of a transport stream may leave open.
pub fn in_program_stream(alloc: Global, demuxed: &Demuxed) -> Result<ListOf<u8>, OutOfMemory>
    ensures { IfOk result (λ stream. stream ≡ program_stream_of demuxed.now) }
{
    let mut stream = Vec::new(alloc);
    stream.extend_from_slice(&PACK_HEADER)?;
    put_packets(&mut stream, demuxed.video.as_slice())?;
    put_audios(&mut stream, demuxed.audios.as_slice())?;
    Ok(ListOf::from_vec(stream))
}

// The packets of audio streams.
fn put_audios(stream: &mut Vec<u8>, audios: &[AudioStream]) -> Result<(), OutOfMemory>
    ensures { OnOk result (stream.new.items ≡ stream.old.items ++ flat_map audio_elements audios.now) }
{
    for audio in audios {
        put_packets(stream, audio.units.as_slice())?;
    }
    Ok(())
}

// Packets as elements.
fn put_packets(stream: &mut Vec<u8>, packets: &[PesUnit]) -> Result<(), OutOfMemory>
    ensures { OnOk result (stream.new.items ≡ stream.old.items ++ flat_map packet_element packets.now) }
{
    for packet in packets {
        put_element(stream, packet.bytes.as_slice())?;
    }
    Ok(())
}

/// Puts a PES packet into a program stream as an element, with its length stated; 0 where two bytes can't say it.
pub fn put_element(stream: &mut Vec<u8>, pes: &[u8]) -> Result<(), OutOfMemory>
    ensures { OnOk result (stream.new.items ≡ stream.old.items ++ as_element pes.now) }
{
    stream.extend_from_slice(&pes[..pes.len().min(LENGTH_AT)])?;
    stream.extend_from_slice(&stated_length(pes.len()).to_be_bytes())?;
    stream.extend_from_slice(&pes[pes.len().min(LENGTH_END)..])?;
    Ok(())
}

// The length that a packet of so many bytes states.
fn stated_length(len: usize) -> u16
    ensures { result ≡ stated_length len }
{
    match u16::try_from(len.saturating_sub(LENGTH_END)) {
        Ok(stated) => stated,
        Err(_) => 0,
    }
}

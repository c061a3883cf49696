//! The streams of a program stream, taken out of its file once more.

use crate::carrier::Carrier;
use crate::named_program::NamedProgram;
use pes_units::PesHeader;
use program_reader::limits::FILE_BYTES_MOST;
use program_stream::{SplitFault, split};
use shelf_io::read_file;
use shelf_kinds::FileShelf;
use std::rt::Files;
use ts_demux::{Demuxed, PesUnit};

/// The streams of a program whose file is a program stream. An error is why they aren't taken out, or that the file can't be read any more.
pub(crate) fn split_again<R: Files + AllocGlobal>(
    rt: &R,
    program: &NamedProgram<'_>,
) -> Result<Demuxed, SplitFault> {
    let mut shelf = FileShelf::new(rt);
    let Ok(file) = read_file(rt.alloc(), &mut shelf, program.file, FILE_BYTES_MOST as u64) else {
        return Err(SplitFault::OutOfMemory);
    };
    let Some(drop) = program.dropped_ids(rt.alloc()) else {
        return Err(SplitFault::OutOfMemory);
    };
    let (demuxed, _cut) = split(rt.alloc(), file.as_slice(), drop.as_slice())?;
    Ok(demuxed)
}

/// The packet that carries the byte at a place of its video, or of its audio stream where it has one alone; none where the file doesn't tell.
pub(crate) fn element_of<R: Files + AllocGlobal>(
    rt: &R,
    program: &NamedProgram<'_>,
    is_video: bool,
    place: u64,
) -> Option<Carrier> {
    let demuxed = split_again(rt, program).ok()?;
    match demuxed.audios.as_slice() {
        _ if is_video => packet_with(demuxed.video.as_slice(), true, place),
        [audio] => packet_with(audio.units.as_slice(), false, place),
        _ => None,
    }
}

/// The packet of a stream that carries the byte at a place of it, its packets' bytes behind their headers joined.
fn packet_with(units: &[PesUnit], is_video: bool, place: u64) -> Option<Carrier> {
    let mut passed = 0u64;
    for (pes, unit) in units.iter().enumerate() {
        passed = passed.saturating_add(data_bytes(unit.bytes.as_slice(), is_video));
        if passed > place {
            return Some(Carrier {
                pes: pes as u64,
                at: unit.at,
            });
        }
    }
    None
}

/// How many bytes stand behind the header of a packet.
fn data_bytes(packet: &[u8], is_video: bool) -> u64 {
    match PesHeader::read(packet, is_video) {
        Ok(header) => packet.len().saturating_sub(usize::from(header.len)) as u64,
        Err(_) => 0,
    }
}

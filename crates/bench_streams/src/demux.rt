//! Takes a program out of a transport stream or a program stream, so that its instructions can be counted and its streams be compared
//! (bench/README.md).
//!
//! The words are what is done, the stream's file, the program's number, or `ps` of a program stream, and for `video` and `audio` the file that
//! is written: `read` reads the file alone, `demux` takes the program out too, `video` writes its video behind that, `audio` its first
//! audio stream. What is written are the bytes of the PES packets behind their headers, joined. It prints how many PES
//! packets and bytes the stream has.
use pes_units::PesHeader;
use program_stream::split;
use std::io::{ErrorKind, Write};
use std::rt::Files;
use std::{fs, io};
use ts_demux::{Demuxed, PesUnit, demux};

/// Does what the words say.
pub fn work(rt: &HostRuntime, words: &[String]) -> io::Result<()> {
    let [what, from, number, behind @ ..] = words else {
        return println!(rt; "bench_streams demux read|demux|video|audio STREAM PROGRAM|ps [OUT]");
    };
    let file = fs::read(rt, from.as_str())?;
    if what.as_str() == "read" {
        return println!(rt; "{} bytes", file.len());
    }
    let Some(demuxed) = take_out(rt, file.as_slice(), number.as_str())? else {
        return Ok(());
    };
    let video = what.as_str() != "audio";
    let units = units_of(&demuxed, video);
    println!(rt; "{} PES packets, {} bytes", units.len(), count(units))?;
    match behind.first() {
        Some(to) => write_units(&mut fs::create(rt, to.as_str())?, units, video),
        None => Ok(()),
    }
}

/// The streams of a program of a transport stream, or of a program stream; none where it is refused, which is printed.
fn take_out(rt: &HostRuntime, file: &[u8], number: &str) -> io::Result<Option<Demuxed>> {
    if number == "ps" {
        return match split(rt.alloc(), file, &[]) {
            Ok((demuxed, _cut)) => Ok(Some(demuxed)),
            Err(fault) => {
                println!(rt; "{fault}")?;
                Ok(None)
            }
        };
    }
    let Ok(program) = number.parse::<u16>() else {
        println!(rt; "no number of a program")?;
        return Ok(None);
    };
    match demux(rt.alloc(), file, program, &[]) {
        Ok(demuxed) => Ok(Some(demuxed)),
        Err(fault) => {
            println!(rt; "{fault}")?;
            Ok(None)
        }
    }
}

/// The PES packets of the video, or else of the first audio stream.
fn units_of(demuxed: &Demuxed, video: bool) -> &[PesUnit] {
    if video {
        return demuxed.video.as_slice();
    }
    match demuxed.audios.as_slice().first() {
        Some(audio) => audio.units.as_slice(),
        None => &[],
    }
}

/// The bytes of PES packets, headers included.
fn count(units: &[PesUnit]) -> u64 {
    let mut bytes = 0u64;
    for unit in units {
        bytes = bytes.wrapping_add(unit.bytes.len() as u64);
    }
    bytes
}

/// Writes what stands behind the headers of PES packets. An error also comes where a header is refused.
fn write_units<W: Write>(to: &mut W, units: &[PesUnit], video: bool) -> io::Result<()> {
    for unit in units {
        let bytes = unit.bytes.as_slice();
        let Ok(header) = PesHeader::read(bytes, video) else {
            return Err(io::Error::from(ErrorKind::InvalidData));
        };
        to.write_all(bytes.get(header.len as usize..).unwrap_or(&[]))?;
    }
    to.flush()
}

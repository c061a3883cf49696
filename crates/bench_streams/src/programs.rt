//! Reads a program of a transport stream, so that its instructions can be counted and its times be compared (bench/README.md).
//!
//! The words are what is done, the stream's file and the program's number: `read` reads the file alone, `parts` takes the
//! program out with `demux` and goes through each unit of its video with `check_picture`, `program` calls `read_program`, and
//! `times` prints the times of each unit of its answer too: PTS and DTS as they stand, and when it is due. `sized` calls
//! `read_sized_program` at the ratios that follow, in sixteenths, at most seven.
//! It prints how many units, audio streams and audio packets there are, and the first refusal; for `sized` the bytes of all
//! versions together too.
use arrayvec::ArrayVec;
use es_units::split_units;
use job_report::Form;
use pes_units::PesHeader;
use picture_reader::{Headers, PictureFault, check_picture};
use program_reader::{Program, UnitSizes, UnitSource, read_program, read_sized_program};
use std::alloc::{AllocError, Global};
use std::rt::Files;
use std::{fs, io};
use syntax_types::SeqState;
use ts_demux::{PesUnit, demux};

/// When the earliest time is due, in ticks.
const START: u64 = 2_700_000;

/// The most ratios.
const RATIOS_MOST: usize = 7;

/// A unit is at most this long.
const UNIT_MOST: usize = 1 << 30;

/// Does what the words say.
pub fn work(rt: &HostRuntime, words: &[String]) -> io::Result<()> {
    let [what, from, number, rest @ ..] = words else {
        return println!(rt;
            "bench_streams programs read|parts|program|times STREAM PROGRAM, or sized STREAM PROGRAM [RATIO ..]"
        );
    };
    let Ok(number) = number.as_str().parse::<u16>() else {
        return println!(rt; "no number of a program");
    };
    let file = fs::read(rt, from.as_str())?;
    match what.as_str() {
        "read" => println!(rt; "{} bytes", file.len()),
        "parts" => {
            let demuxed = match demux(rt.alloc(), file.as_slice(), number, &[]) {
                Ok(demuxed) => demuxed,
                Err(fault) => return println!(rt; "{fault}"),
            };
            let video = payload_of(rt.alloc(), demuxed.video.as_slice())?;
            let (checked, fault) = check_units(rt.alloc(), video.as_slice());
            match fault {
                Some(fault) => println!(rt; "{checked} units, {fault}"),
                None => println!(rt; "{checked} units"),
            }
        }
        "sized" => {
            let ratios = ratios_of(rest);
            let sized = match read_sized_program(
                rt.alloc(),
                file.as_slice(),
                Form::Ts,
                number,
                &[],
                START,
                ratios.as_slice(),
            ) {
                Ok(sized) => sized,
                Err(fault) => return println!(rt; "{fault}"),
            };
            print_program(rt, &sized.program)?;
            println!(rt;
                "{} bytes in all versions",
                bytes_of(sized.sizes.as_slice())
            )
        }
        _ => {
            let program = match read_program(
                rt.alloc(),
                file.as_slice(),
                Form::Ts,
                number,
                &[],
                START,
            ) {
                Ok(program) => program,
                Err(fault) => return println!(rt; "{fault}"),
            };
            if what.as_str() == "times" {
                for unit in program.units.as_slice() {
                    print_unit(rt, unit)?;
                }
            }
            print_program(rt, &program)
        }
    }
}

/// The ratios among the words, as many as there may be.
fn ratios_of(words: &[String]) -> ArrayVec<u16, RATIOS_MOST> {
    let mut ratios = ArrayVec::new();
    for word in words {
        if let Ok(ratio) = word.as_str().parse::<u16>() {
            if ratios.len() < RATIOS_MOST {
                ratios.push(ratio);
            }
        }
    }
    ratios
}

/// The bytes of all versions of units.
fn bytes_of(units: &[UnitSizes]) -> u64 {
    let mut bytes = 0u64;
    for unit in units {
        for size in unit.versions.as_slice() {
            bytes = bytes.wrapping_add(size.bytes);
        }
    }
    bytes
}

/// The bytes of PES packets of a video behind their headers, up to the first one that is refused.
fn payload_of(alloc: Global, packets: &[PesUnit]) -> Result<Vec<u8>, AllocError> {
    let mut payload = Vec::new(alloc);
    for packet in packets {
        let bytes = packet.bytes.as_slice();
        let Ok(header) = PesHeader::read(bytes, true) else {
            return Ok(payload);
        };
        payload.extend_from_slice(bytes.get(header.len as usize..).unwrap_or(&[]))?;
    }
    Ok(payload)
}

/// How many units are pictures, each behind the state of the one before, and why the first other one isn't.
fn check_units(alloc: Global, video: &[u8]) -> (u32, Option<PictureFault>) {
    let mut checked = 0u32;
    let mut before: Option<SeqState> = None;
    let Ok(units) = split_units(alloc, video) else {
        return (0, None);
    };
    for (begin, end) in units.cuts.as_slice() {
        let unit = video.get(*begin as usize..*end as usize).unwrap_or(&[]);
        let front = unit.get(..unit.len().min(UNIT_MOST)).unwrap_or(&[]);
        match check_picture(alloc, front, before.as_ref()) {
            Ok(Headers { seq, .. }) => {
                before = Some(seq);
                checked = checked.wrapping_add(1);
            }
            Err(fault) => return (checked, Some(fault)),
        }
    }
    (checked, None)
}

/// Prints the times of a unit, a dash for one that doesn't stand.
fn print_unit(rt: &HostRuntime, unit: &UnitSource) -> io::Result<()> {
    match unit.times.pts {
        Some(pts) => print!(rt; "{pts}")?,
        None => print!(rt; "-")?,
    }
    match unit.times.dts {
        Some(dts) => print!(rt; " {dts}")?,
        None => print!(rt; " -")?,
    }
    println!(rt; " {} {}", unit.due, unit.end.wrapping_sub(unit.begin))
}

/// Prints how much a program has.
fn print_program(rt: &HostRuntime, program: &Program) -> io::Result<()> {
    println!(rt;
        "{} units in {} bytes, base {}",
        program.units.len(),
        program.video.len(),
        program.base
    )?;
    for audio in program.audios.as_slice() {
        println!(rt;
            "audio: {} packets, {} bytes",
            audio.pieces.len(),
            audio.bytes.len()
        )?;
    }
    println!(rt;
        "{} units and {} PES packets dropped, {} bytes left",
        program.units_dropped, program.pes_dropped, program.rest
    )
}

//! Programs of program streams (ISO/IEC 13818-1, 2.5).

use crate::packets::{audio_pes, video_pes};
use crate::streams::{I_FRAME, PROGRESSIVE, SEQUENCE, two_frames, unit_of};
use job_report::Form;
use program_maker::{in_program_stream, make_program, put_element};
use program_reader::{AudioSource, Program, ProgramFault, SourceKind, read_program};
use std::alloc::{AllocError, Global};
use std::test::Fail;
use ts_demux::demux;

/// When the earliest time is due, in ticks.
const START: u64 = 1_000;

/// A pack header without stuffing, and the same of MPEG-1 in its first bits.
const PACK: [u8; 14] = [
    0, 0, 1, 0xBA, 0x44, 0x00, 0x04, 0x00, 0x04, 0x01, 0x00, 0x00, 0x07, 0xF8,
];

const OLD_PACK: [u8; 14] = [
    0, 0, 1, 0xBA, 0x21, 0x00, 0x04, 0x00, 0x04, 0x01, 0x00, 0x00, 0x07, 0xF8,
];

/// An end code.
const END: [u8; 4] = [0, 0, 1, 0xB9];

/// A video packet of one byte, which is none of a PES header.
const SHORT_VIDEO: [u8; 7] = [0, 0, 1, 0xE0, 0, 1, 0xAA];

/// True where audio streams have the same bytes and pieces.
fn are_same_audios(one: &[AudioSource], other: &[AudioSource]) -> bool {
    one.len() == other.len()
        && one.iter().zip(other).all(|(one, other)| {
            one.bytes.as_slice() == other.bytes.as_slice()
                && one.pieces.as_slice() == other.pieces.as_slice()
        })
}

/// The types and PIDs of a program's streams.
fn streams_of(alloc: Global, program: &Program) -> Result<Vec<(u8, u16)>, AllocError> {
    let mut streams = Vec::new(alloc);
    for stream in program.map.streams.as_slice() {
        streams.push((stream.kind, stream.pid))?;
    }
    Ok(streams)
}

#[test]
fn the_packets_of_a_transport_stream_are_the_same_program(rt: HostRuntime) -> Result<(), Fail> {
    let transport = make_program(rt.alloc(), 1, 12)?.into_vec();
    let demuxed = demux(rt.alloc(), transport.as_slice(), 1, &[])?;
    let stream = in_program_stream(rt.alloc(), &demuxed)?;
    let one = read_program(rt.alloc(), transport.as_slice(), Form::Ts, 1, &[], START)?;
    let other = read_program(rt.alloc(), stream.as_slice(), Form::Ps, 1, &[], START)?;
    assert_eq!(rt; other.units.len(), 12);
    assert_eq!(rt; other.units.as_slice(), one.units.as_slice());
    assert!(rt; other.video.as_slice() == one.video.as_slice());
    assert!(rt; are_same_audios(other.audios.as_slice(), one.audios.as_slice()));
    assert_eq!(rt; (other.base, other.vbv), (one.base, one.vbv));
    // sound at 48,000 Hz
    assert_eq!(rt;
        streams_of(rt.alloc(), &other)?.as_slice(),
        [(2, 0xE0), (3, 0xC0)].as_slice()
    );
    assert_eq!(rt; (other.pes_dropped, other.rest), (0, 0));
    Ok(())
}

#[test]
fn sound_of_a_low_rate_and_a_cut_last_element(rt: HostRuntime) -> Result<(), Fail> {
    let unit = unit_of(&[SEQUENCE, PROGRESSIVE, I_FRAME]);
    let video = video_pes(rt.alloc(), Some(90_000), unit.as_slice())?;
    let audio = audio_pes(rt.alloc(), Some(90_000), &two_frames(), 0)?;
    let mut stream = Vec::new(rt.alloc());
    stream.extend_from_slice(&PACK)?;
    put_element(&mut stream, video.as_slice())?;
    put_element(&mut stream, audio.as_slice())?;
    stream.extend_from_slice(&[0, 0, 1, 0xE0, 0])?;
    let program = read_program(rt.alloc(), stream.as_slice(), Form::Ps, 1, &[], START)?;
    assert_eq!(rt; (program.units.len(), program.pes_dropped), (1, 1));
    assert_eq!(rt;
        streams_of(rt.alloc(), &program)?.as_slice(),
        [(2, 0xE0), (4, 0xC0)].as_slice()
    );
    let silent = read_program(rt.alloc(), stream.as_slice(), Form::Ps, 1, &[0xC0], START)?;
    assert_eq!(rt;
        (silent.audios.len(), silent.not_carried.as_slice()),
        (0, [0xC0].as_slice())
    );
    Ok(())
}

/// Why a program stream of these parts is refused where the program of a number is wanted.
fn fault_of(
    alloc: Global,
    number: u16,
    parts: &[&[u8]],
) -> Result<Option<ProgramFault>, AllocError> {
    let mut stream = Vec::new(alloc);
    for part in parts {
        stream.extend_from_slice(*part)?;
    }
    Ok(read_program(alloc, stream.as_slice(), Form::Ps, number, &[], START).err())
}

/// A refusal at a byte.
fn refused(kind: SourceKind, at: u64) -> Option<ProgramFault> {
    Some(ProgramFault::Refused { kind, at })
}

#[test]
fn elements_are_refused_before_another_number(rt: HostRuntime) -> Result<(), Fail> {
    assert_eq!(rt;
        fault_of(rt.alloc(), 2, &[&PACK[..13]])?,
        refused(SourceKind::ShortFile, 0)
    );
    assert_eq!(rt;
        fault_of(rt.alloc(), 2, &[&PACK, &[1, 0, 1, 0xB9]])?,
        refused(SourceKind::BadStart, 14)
    );
    assert_eq!(rt;
        fault_of(rt.alloc(), 2, &[&OLD_PACK, &END])?,
        refused(SourceKind::BadPack, 0)
    );
    assert_eq!(rt;
        fault_of(rt.alloc(), 2, &[&PACK, &[0, 0, 1, 0xC0, 0, 0]])?,
        refused(SourceKind::BadLength, 14)
    );
    Ok(())
}

#[test]
fn another_number_is_refused_before_the_streams(rt: HostRuntime) -> Result<(), Fail> {
    assert_eq!(rt;
        fault_of(rt.alloc(), 2, &[&PACK, &END])?,
        refused(SourceKind::NoProgram, 0)
    );
    assert_eq!(rt;
        fault_of(rt.alloc(), 1, &[&PACK, &END])?,
        refused(SourceKind::NoVideo, 0)
    );
    let mut sounds = Vec::new(rt.alloc());
    for id in 0xC0..0xC9u8 {
        sounds.extend_from_slice(&[0, 0, 1, id, 0, 1, 7])?;
    }
    assert_eq!(rt;
        fault_of(rt.alloc(), 2, &[&PACK, &SHORT_VIDEO, sounds.as_slice()])?,
        refused(SourceKind::NoProgram, 0)
    );
    assert_eq!(rt;
        fault_of(rt.alloc(), 1, &[&PACK, &SHORT_VIDEO, sounds.as_slice()])?,
        refused(SourceKind::ProgramLimit, 0)
    );
    // behind the streams their packets come
    assert_eq!(rt;
        fault_of(rt.alloc(), 1, &[&PACK, &SHORT_VIDEO, &SHORT_VIDEO])?,
        refused(SourceKind::Short, 14)
    );
    Ok(())
}

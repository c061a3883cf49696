//! The generated program.
ghost use Rattle.std.specs.Prelude.{◌≡◌, ◌<◌, ◌≤◌, ◌+◌, ◌-◌, ◌++◌, [], ◌∷◌, ℕ, List, length, IfOk, OnOk};
ghost use Rattle.std.specs.List.{flat_map, range_with_len};
ghost use Rattle.psi_tables.specs.Pmt.{written_pmt};
ghost use Rattle.psi_tables.specs.Section.{IsWithCrc};
ghost use Rattle.ts_packets.specs.Packet.{PacketRecord};
ghost use Rattle.program_maker.specs.Packets.{pcr_packet, pes_packets};
ghost use Rattle.program_maker.specs.Pictures.{drawn_pictures, AreWritten};
ghost use Rattle.program_maker.specs.Program.{program_map, plain_stream, packets_at, IsGeneratedProgram};
ghost use Rattle.program_maker.specs.Streams.{drawn_frames, picture_pes};
ghost use Rattle.program_maker.specs.Private.Output.{IsBehind};
ghost use Rattle.program_maker.specs.Private.Program.{IsBehindTables, frames_state, frames_packets, first_frame};

use crate::draws::Draws;
use crate::format::{
    AUDIO_PID, AUDIO_TYPE, FRAMES_MOST, PAT_PID, PICTURES_MOST, PMT_PID, PROGRAM, STREAM_ID,
    VIDEO_PID, VIDEO_TYPE,
};
use crate::frames::{make_frame_pes, make_picture_pes};
use crate::output::{Carried, Output};
use crate::pictures::make_picture;
use arrayvec::ArrayVec;
use list_types::{ListOf, OutOfMemory};
use psi_tables::{ProgramMap, Section, Stream, write_pat, write_pmt};
use std::alloc::Global;
use syntax_types::Macroblock;

/// The program of a seed with so many pictures, at most 4,096: the bytes of a transport stream (ISO/IEC 13818-1, 2.4.3).
pub fn make_program(alloc: Global, seed: u64, pictures: u32) -> Result<ListOf<u8>, OutOfMemory>
    requires { pictures ≤ PICTURES_MOST }
    ensures { IfOk result (IsGeneratedProgram seed pictures) }
{
    let mut draws = Draws::new(seed);
    let units = make_pictures(alloc, &mut draws, pictures)?;
    let mut out = Output::new(alloc);
    put_tables(&mut out)?;
    put_units(alloc, &mut out, &mut draws, units.as_slice())?;
    Ok(out.into_bytes())
}

// The pictures, each with its bytes.
fn make_pictures(
    alloc: Global,
    draws: &mut Draws,
    pictures: u32,
) -> Result<ListOf<ListOf<u8>>, OutOfMemory>
    ensures written { IfOk result (λ units. AreWritten (drawn_pictures pictures draws.old.state).0 units) }
    ensures state { OnOk result (draws.new.state ≡ (drawn_pictures pictures draws.old.state).1) }
{
    let mut lent = Macroblock::empty();
    let mut units = ListOf::new(alloc);
    for k in 0..pictures {
        let unit = make_picture(alloc, draws, k, &mut lent)?;
        units.push(unit)?;
    }
    Ok(units)
}

// PAT and PMT.
fn put_tables(out: &mut Output) -> Result<(), OutOfMemory>
    ensures { IsBehind [] out.old → OnOk result (IsBehindTables out.new) }
{
    let mut section = Section::new();
    write_pat(STREAM_ID, &[(PROGRAM, PMT_PID)], &mut section);
    out.put_section(PAT_PID, section.as_slice())?;
    write_map(&mut section);
    out.put_section(PMT_PID, section.as_slice())
}

// The program map section.
fn write_map(into: &mut Section)
    ensures { IsWithCrc (written_pmt program_map) into.new.items }
{
    let mut streams = ArrayVec::new();
    streams.push(stream(VIDEO_TYPE, VIDEO_PID));
    streams.push(stream(AUDIO_TYPE, AUDIO_PID));
    let map = ProgramMap {
        number: PROGRAM,
        pcr_pid: VIDEO_PID,
        streams,
        dropped: 0,
    };
    let Ok(()) = write_pmt(&map, into) else {
        unreachable!();
    };
}

// A stream without descriptors.
fn stream(kind: u8, pid: u16) -> Stream
    ensures { result ≡ plain_stream kind pid }
{
    Stream {
        kind,
        pid,
        descriptors: ArrayVec::new(),
    }
}

// Picture by picture, each with its PCR before it and its frames behind it.
fn put_units(
    alloc: Global,
    out: &mut Output,
    draws: &mut Draws,
    units: &[ListOf<u8>],
) -> Result<(), OutOfMemory>
    requires { length units.now ≤ PICTURES_MOST }
    ensures { (packets : List PacketRecord) → IsBehind packets out.old →
        OnOk result (IsBehind (packets ++ flat_map (packets_at units.now (drawn_frames (length units.now) draws.old.state).0) (range_with_len 0 (length units.now))) out.new) }
{
    let frames = 5 * units.len() as u32 / 3;
    let mut pes = Vec::new(alloc);
    for k in 0..units.len() {
        let at = k as u32;
        put_picture(out, &mut pes, at, units[k].as_slice())?;
        put_frames(
            out,
            &mut pes,
            draws,
            frames_before(at),
            frames_before(at + 1).min(frames),
        )?;
    }
    Ok(())
}

// How many frames have a PTS before picture k is decoded.
fn frames_before(k: u32) -> u32
    requires { k ≤ PICTURES_MOST }
    ensures { result ≡ first_frame k }
{
    (5 * k + 2) / 3
}

// The PCR before a picture, and the picture.
fn put_picture(out: &mut Output, pes: &mut Vec<u8>, k: u32, bytes: &[u8]) -> Result<(), OutOfMemory>
    requires { k < PICTURES_MOST }
    ensures { (packets : List PacketRecord) → IsBehind packets out.old →
        OnOk result (IsBehind (packets ++ (pcr_packet k ∷ pes_packets VIDEO_PID (picture_pes k bytes.now))) out.new) }
{
    out.put_pcr(k)?;
    make_picture_pes(pes, k, bytes)?;
    out.put_pes(Carried::Video, pes.as_slice())
}

// The frames from one number up to another, which isn't one of them.
fn put_frames(
    out: &mut Output,
    pes: &mut Vec<u8>,
    draws: &mut Draws,
    first: u32,
    end: u32,
) -> Result<(), OutOfMemory>
    requires ordered { first ≤ end }
    requires few { end < FRAMES_MOST }
    ensures { (packets : List PacketRecord) (start : ℕ) → IsBehind packets out.old → draws.old.state ≡ frames_state start first →
        OnOk result (IsBehind (packets ++ frames_packets start first (end - first)) out.new × (draws.new.state ≡ frames_state start end)) }
{
    for j in first..end {
        make_frame_pes(pes, draws, j)?;
        out.put_pes(Carried::Audio, pes.as_slice())?;
    }
    Ok(())
}

ghost use Rattle.std.specs.Prelude.{◌≡◌, ℕ, ◌+◌, ◌*◌, ◌^◌, ◌<◌, ◌≤◌, true, length, All, Some, IfOk};
ghost use Rattle.psi_tables.specs.Descriptors.{is_tag_kept};
ghost use Rattle.psi_tables.specs.Pat.{pat_map_pid};
ghost use Rattle.psi_tables.specs.Streams.{IsStreamWritable};
ghost use Rattle.psi_tables.specs.Pmt.{IsWritableMap, without_dropped};

use crate::same::assert_same;
use arrayvec::{ArrayVec, CapacityError};
use psi_tables::{
    ProgramMap, Section, SectionFault, Stream, crc32, is_pat, read_pat, read_pmt, write_pat,
    write_pmt,
};
use std::test::Fail;

/// The section of stream 1 with program 1, its map on PID 0x100.
const PAT: [u8; 16] = [
    0x00, 0xB0, 0x0D, 0x00, 0x01, 0xC1, 0x00, 0x00, 0x00, 0x01, 0xE1, 0x00, 0xE8, 0xF9, 0x5E, 0x7D,
];

/// The section of program 1 with a video stream on PID 0x101, which has the clock, and an audio stream in English on
/// PID 0x102.
const PMT: [u8; 32] = [
    0x02, 0xB0, 0x1D, 0x00, 0x01, 0xC1, 0x00, 0x00, 0xE1, 0x01, 0xF0, 0x00, 0x02, 0xE1, 0x01, 0xF0,
    0x00, 0x03, 0xE1, 0x02, 0xF0, 0x06, 0x0A, 0x04, 0x65, 0x6E, 0x67, 0x00, 0x4E, 0x4E, 0xFA, 0x05,
];

/// A section of program 7 with other reserved bits, version 5, two descriptors of its own, and a stream with one
/// descriptor that is kept and one that isn't.
const OTHER_PMT: [u8; 34] = [
    0x02, 0x00, 0x1F, 0x00, 0x07, 0x0B, 0x01, 0x02, 0x01, 0x01, 0x00, 0x05, 0x09, 0x00, 0x05, 0x01,
    0x11, 0x02, 0x01, 0x01, 0x00, 0x08, 0x52, 0x01, 0x0F, 0x02, 0x03, 0x11, 0x22, 0x33, 0x00, 0x00,
    0x00, 0x00,
];

fn section_of(bytes: &[u8]) -> Result<Section, CapacityError> {
    Section::try_from(bytes)
}

/// What is read of a PMT with these bytes, where they fit into a section.
fn pmt_of(bytes: &[u8]) -> Option<Result<Option<ProgramMap>, SectionFault>> {
    Some(read_pmt(&section_of(bytes).ok()?))
}

/// A stream with one descriptor.
fn stream_of(kind: u8, pid: u16, tag: u8, content: &[u8]) -> Result<Stream, CapacityError>
    requires pid { pid < 2 ^ 13 }
    requires kept { is_tag_kept tag ≡ true }
    requires size { length content.now < 256 }
    ensures { IfOk result IsStreamWritable }
{
    let mut descriptors = ArrayVec::new();
    descriptors.push(tag);
    descriptors.push(content.len() as u8);
    descriptors.try_extend_from_slice(content)?;
    Ok(Stream {
        kind,
        pid,
        descriptors,
    })
}

/// What is read of a map that was written: the same, nothing dropped.
fn read_back(map: &ProgramMap) -> Result<Option<ProgramMap>, SectionFault>
    requires { IsWritableMap map.now }
    ensures { IfOk result (λ read. read ≡ Some (without_dropped map.now)) }
{
    let mut section = Section::new();
    write_pmt(map, &mut section)?;
    read_pmt(&section)
}

/// What is read of programs that were written: the PID of the first of the number.
fn pid_read_back(programs: &[(u16, u16)], number: u16) -> Result<Option<u16>, SectionFault>
    requires few { length programs.now ≤ 8 }
    requires pids { All (λ program. program.1 < 2 ^ 13) programs.now }
    ensures { result ≡ Ok (pat_map_pid number programs.now) }
{
    let mut section = Section::new();
    write_pat(1, programs, &mut section);
    read_pat(&section, number)
}

/// The map of program 1 with the clock on PID 0x101, a video stream without descriptors there, and another stream.
fn with_video(stream: Stream) -> ProgramMap
    requires { IsStreamWritable stream }
    ensures { IsWritableMap result }
{
    let mut streams = ArrayVec::new();
    streams.push(Stream {
        kind: 2,
        pid: 0x101,
        descriptors: ArrayVec::new(),
    });
    streams.push(stream);
    ProgramMap {
        number: 1,
        pcr_pid: 0x101,
        streams,
        dropped: 0,
    }
}

#[test]
fn the_crc_is_that_of_annex_a(rt: HostRuntime) {
    let sums = [crc32(b"123456789"), crc32(&[]), crc32(&PAT), crc32(&PMT)];
    assert_same(&rt, sums, [0x0376_E6E7, 0xFFFF_FFFF, 0, 0]);
    assert_ne!(rt; crc32(&OTHER_PMT), 0);
}

#[test]
fn a_pat_is_read(rt: HostRuntime) -> Result<(), Fail> {
    let section = section_of(&PAT)?;
    assert!(rt; is_pat(&section));
    let pids = [
        read_pat(&section, 1),
        read_pat(&section, 2),
        read_pat(&section, 0),
    ];
    assert_same(&rt, pids, [Ok(Some(0x100)), Ok(None), Ok(None)]);
    Ok(())
}

#[test]
fn the_networks_pid_is_skipped_and_the_first_of_two_taken(rt: HostRuntime) -> Result<(), Fail> {
    let section = section_of(&[
        0x00, 0x30, 0x15, 0x00, 0x01, 0x01, 0x00, 0x00, 0x00, 0x00, 0x00, 0x10, 0x00, 0x02, 0x1F,
        0xFF, 0x00, 0x02, 0x00, 0x20, 0x00, 0x00, 0x00, 0x00,
    ])?;
    let pids = [read_pat(&section, 0), read_pat(&section, 2)];
    assert_same(&rt, pids, [Ok(None), Ok(Some(0x1FFF))]);
    Ok(())
}

#[test]
fn a_section_of_another_table_or_not_current_says_nothing(rt: HostRuntime) -> Result<(), Fail> {
    let mut bytes = PAT;
    bytes[5] = 0xC0;
    let next = section_of(&bytes)?;
    let map = section_of(&PMT)?;
    let short = section_of(&[0x00, 0xB0, 0x02, 0x00, 0x01])?;
    assert_same(&rt, [is_pat(&next), is_pat(&map)], [false, false]);
    let pids = [read_pat(&next, 1), read_pat(&map, 1), read_pat(&short, 1)];
    assert_same(&rt, pids, [Ok(None), Ok(None), Ok(None)]);
    assert_same(&rt, read_pmt(&section_of(&PAT)?), Ok(None));
    Ok(())
}

#[test]
fn a_section_that_its_loops_do_not_fill_is_bad(rt: HostRuntime) -> Result<(), Fail> {
    let cut = section_of(&PAT[..15])?;
    let header = section_of(&PAT[..6])?;
    let pids = [read_pat(&cut, 2), read_pat(&header, 1)];
    assert_same(
        &rt,
        pids,
        [Err(SectionFault::BadSection), Err(SectionFault::BadSection)],
    );
    let mut bytes = OTHER_PMT;
    bytes[21] = 7;
    let bad = Some(Err(SectionFault::BadSection));
    assert_same(&rt, pmt_of(&bytes), bad);
    bytes[21] = 8;
    bytes[26] = 4;
    let bad = Some(Err(SectionFault::BadSection));
    assert_same(&rt, pmt_of(&bytes), bad);
    bytes[5] = 0x0A;
    assert_same(&rt, pmt_of(&bytes), Some(Ok(None)));
    Ok(())
}

#[test]
fn a_pat_is_written_byte_for_byte(rt: HostRuntime) {
    let mut section = Section::new();
    write_pat(1, &[(1, 0x100)], &mut section);
    assert_same(&rt, section.as_slice(), PAT.as_slice());
    assert_same(
        &rt,
        pid_read_back(&[(1, 0x100), (7, 0x1FFF)], 7),
        Ok(Some(0x1FFF)),
    );
}

#[test]
fn a_pmt_is_written_byte_for_byte_and_read_back(rt: HostRuntime) -> Result<(), Fail> {
    let mut section = Section::new();
    let map = with_video(stream_of(3, 0x102, 10, &[0x65, 0x6E, 0x67, 0])?);
    assert_same(&rt, write_pmt(&map, &mut section), Ok(()));
    assert_same(&rt, section.as_slice(), PMT.as_slice());
    assert_same(&rt, read_back(&map)?, Some(map));
    Ok(())
}

#[test]
fn descriptors_of_other_tags_are_counted(rt: HostRuntime) -> Result<(), Fail> {
    let mut streams = ArrayVec::new();
    streams.push(stream_of(2, 0x101, 2, &[0x11, 0x22, 0x33])?);
    let map = ProgramMap {
        number: 7,
        pcr_pid: 0x101,
        streams,
        dropped: 3,
    };
    assert_same(&rt, read_pmt(&section_of(&OTHER_PMT)?), Ok(Some(map)));
    Ok(())
}

#[test]
fn no_more_than_64_streams_are_read(rt: HostRuntime) -> Result<(), Fail> {
    let mut section = section_of(&[2, 0xB1, 0x4D, 0, 1, 0xC1, 0, 0, 0xE1, 1, 0xF0, 0])?;
    for _ in 0..64 {
        section.try_extend_from_slice(&[2, 0xE1, 1, 0xF0, 0])?;
    }
    section.try_extend_from_slice(&[0; 4])?;
    let count = read_pmt(&section)?.map_or(0, |map| map.streams.len());
    assert_same(&rt, count, 64);
    let mut longer = section_of(&[2, 0xB1, 0x52, 0, 1, 0xC1, 0, 0, 0xE1, 1, 0xF0, 0])?;
    for _ in 0..65 {
        longer.try_extend_from_slice(&[2, 0xE1, 1, 0xF0, 0])?;
    }
    longer.try_extend_from_slice(&[0; 4])?;
    assert_same(&rt, read_pmt(&longer), Err(SectionFault::BadSection));
    Ok(())
}

#[test]
fn no_more_than_183_bytes_of_a_stream_are_kept(rt: HostRuntime) -> Result<(), Fail> {
    let mut section = section_of(&[2, 0xB0, 0xC9, 0, 1, 0xC1, 0, 0, 0xE1, 1, 0xF0, 0])?;
    section.try_extend_from_slice(&[2, 0xE1, 1, 0xF0, 183, 2, 181])?;
    section.try_extend_from_slice(&[0; 185])?;
    let count = read_pmt(&section)?.map_or(0, |map| map.streams.len());
    assert_same(&rt, count, 1);
    let mut longer = section_of(&[2, 0xB0, 0xCA, 0, 1, 0xC1, 0, 0, 0xE1, 1, 0xF0, 0])?;
    longer.try_extend_from_slice(&[2, 0xE1, 1, 0xF0, 184, 2, 182])?;
    longer.try_extend_from_slice(&[0; 186])?;
    assert_same(&rt, read_pmt(&longer), Err(SectionFault::BadSection));
    Ok(())
}

#[test]
fn a_section_of_183_bytes_is_written_and_a_longer_one_is_not(rt: HostRuntime) -> Result<(), Fail> {
    let mut section = Section::new();
    let map = with_video(stream_of(3, 0x102, 3, &[0; 155])?);
    assert_same(&rt, write_pmt(&map, &mut section), Ok(()));
    assert_same(&rt, section.len(), 183);
    let mut other = section_of(&PAT)?;
    let map = with_video(stream_of(3, 0x102, 3, &[0; 156])?);
    assert_same(&rt, write_pmt(&map, &mut other), Err(SectionFault::TooLong));
    assert_same(&rt, other.as_slice(), PAT.as_slice());
    Ok(())
}

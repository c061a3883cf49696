ghost use Rattle.std.specs.Prelude.{◌≡◌, ℕ, ◌+◌, ◌*◌, ◌^◌, ◌<◌, ◌≤◌, ◌↔◌, length, IfOk, IfErr, OnOk, OnErr, IfSome, Some};
ghost use Rattle.psi_tables.specs.declared.program_map.ProgramMap.{ProgramMap};
ghost use Rattle.psi_tables.specs.Crc.{HasRightCrc};
ghost use Rattle.psi_tables.specs.Section.{IsCurrent, IsWithCrc};
ghost use Rattle.psi_tables.specs.Pmt.{IsMapContent, IsPmt, HasRoom, IsWritableMap, written_pmt, pmt_length, without_dropped};

use crate::descriptors::count_descriptors;
use crate::program_map::ProgramMap;
use crate::section::{
    CRC_BYTES, HEADER_BYTES, LENGTH_HIGH, PID_HIGH, PMT_TABLE, Section, SectionFault,
    UNCOUNTED_BYTES, content_of, is_current, put_crc, put_header, put_length, put_pid,
};
use crate::streams::{put_streams, read_streams, streams_length};
use stream_constants::packets::PAYLOAD_BYTES;

/// The most bytes of a section that stands in one packet, behind a pointer.
pub const PACKET_SECTION_BYTES: usize = PAYLOAD_BYTES - 1;

/// Length of the PCR's PID and the length of the program's own descriptors, in bytes.
const MAP_BYTES: usize = 4;

/// What a current PMT section says of its program (ISO/IEC 13818-1, 2.4.4.8), and None of any other section. The only
/// error is BadSection, where the descriptors and streams of a current PMT section don't fill it, it has more than 64
/// streams, or the kept descriptors of one stream pass 183 bytes. The CRC isn't looked at.
#[tactic(auto, using(crate::proofs::Elements::elements))]
pub fn read_pmt(section: &Section) -> Result<Option<ProgramMap>, SectionFault>
    ensures none { (result ≡ Ok None) ↔ (IsCurrent 2 section.now.items → ⊥) }
    // What is read is what the section says, and a section that says something that has room is read.
    ensures map { IfOk result (λ found. IfSome found (λ program. IsPmt program section.now.items × HasRoom program)) }
    ensures only { (program : ProgramMap) → IsPmt program section.now.items → HasRoom program → result ≡ Ok (Some program) }
    ensures bad { IfErr result (λ fault. fault ≡ SectionFault.BadSection) }
{
    let bytes = section.as_slice();
    if !is_current(bytes, PMT_TABLE) {
        return Ok(None);
    }
    let Some(content) = content_of(bytes) else {
        return Err(SectionFault::BadSection);
    };
    let number = u16::from_be_bytes([bytes[3], bytes[4]]);
    let Some(map) = read_map(content, number) else {
        return Err(SectionFault::BadSection);
    };
    Ok(Some(map))
}

/// Writes a current PMT section of version 0, reserved bits set, without descriptors of the program itself, with its CRC
/// (ISO/IEC 13818-1, 2.4.4.8). `dropped` isn't written. It needs PIDs below 8,192, and of each stream whole descriptors of
/// the kept tags. The only error is TooLong, exactly where the section would pass 183 bytes; `into` is then as it was.
pub fn write_pmt(map: &ProgramMap, into: &mut Section) -> Result<(), SectionFault>
    requires { IsWritableMap map.now }
    ensures bytes { OnOk result (IsWithCrc (written_pmt map.now) into.new.items) }
    // What is written is a section of this program, nothing dropped, that has room, and its CRC is right.
    ensures map { OnOk result (IsPmt (without_dropped map.now) into.new.items) }
    ensures room { OnOk result (HasRoom (without_dropped map.now)) }
    ensures crc { OnOk result (HasRightCrc into.new.items) }
    ensures long { (result ≡ Err SectionFault.TooLong) ↔ (PACKET_SECTION_BYTES < pmt_length map.now) }
    ensures err { IfErr result (λ fault. (fault ≡ SectionFault.TooLong) × (into.new ≡ into.old)) }
{
    let size = pmt_length(map);
    if size > PACKET_SECTION_BYTES {
        return Err(SectionFault::TooLong);
    }
    put_header(into, PMT_TABLE, (size - UNCOUNTED_BYTES) as u16, map.number);
    put_pid(into, map.pcr_pid);
    put_length(into, 0);
    put_streams(into, map.streams.as_slice());
    put_crc(into);
    Ok(())
}

/// Length in bytes of the PMT section that stands for the map, whether or not it is short enough for `write_pmt`.
pub fn pmt_length(map: &ProgramMap) -> usize
    ensures { result ≡ pmt_length map.now }
{
    HEADER_BYTES + MAP_BYTES + streams_length(map.streams.as_slice()) + CRC_BYTES
}

/// What the content of a PMT section says. None where descriptors and streams don't fill it, or have no room.
#[tactic(auto, using(crate::proofs::Elements::elements))]
fn read_map(content: &[u8], number: u16) -> Option<ProgramMap>
    requires { length content.now ≤ 1024 }
    ensures some { IfSome result (λ program. IsMapContent program content.now × HasRoom program × (program.number ≡ number)) }
    ensures only { (program : ProgramMap) → IsMapContent program content.now → HasRoom program → program.number ≡ number → result ≡ Some program }
{
    let ([pcr_high, pcr_low, length_high, length_low], rest) = content.split_first_chunk::<
        MAP_BYTES,
    >()?;
    let info_length = u16::from_be_bytes([*length_high & LENGTH_HIGH, *length_low]) as usize;
    if rest.len() < info_length {
        return None;
    }
    let (info, rest) = rest.split_at(info_length);
    let info_dropped = count_descriptors(info)?;
    let (streams, streams_dropped) = read_streams(rest)?;
    Some(ProgramMap {
        number,
        pcr_pid: u16::from_be_bytes([*pcr_high & PID_HIGH, *pcr_low]),
        streams,
        dropped: info_dropped + streams_dropped,
    })
}

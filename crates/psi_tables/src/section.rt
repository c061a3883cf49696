ghost use Rattle.std.specs.Prelude.{◌≡◌, ℕ, ◌+◌, ◌*◌, ◌^◌, ◌<◌, ◌≤◌, ◌↔◌, IsTrue, MatchOption, length, ◌++◌};
ghost use Rattle.psi_tables.specs.Crc.{HasRightCrc};
ghost use Rattle.psi_tables.specs.Section.{IsCurrent, IsWholeSection, IsWithCrc, content, written_section_header, written_pid, written_length};

use crate::crc::crc32;
use arrayvec::ArrayVec;
use thiserror::Error;

/// The most bytes of a section (ISO/IEC 13818-1, 2.4.4.3 and 2.4.4.8).
pub const SECTION_BYTES: usize = 1024;

/// The bytes of one section, its CRC with them.
pub type Section = ArrayVec<u8, SECTION_BYTES>;

/// Length of the header of a PAT or PMT section in bytes.
pub(crate) const HEADER_BYTES: usize = 8;

/// Length of a section's CRC in bytes.
pub(crate) const CRC_BYTES: usize = 4;

/// The bytes that `section_length` doesn't count, itself the last of them.
pub(crate) const UNCOUNTED_BYTES: usize = 3;

/// The least `section_length` of a PAT or PMT section: the rest of its header, and its CRC.
pub const SECTION_LENGTH_LEAST: usize = HEADER_BYTES - UNCOUNTED_BYTES + CRC_BYTES;

/// The greatest `section_length` of a PAT or PMT section (ISO/IEC 13818-1, 2.4.4.3 and 2.4.4.8).
pub const SECTION_LENGTH_MOST: usize = SECTION_BYTES - UNCOUNTED_BYTES;

/// The table id of PAT sections.
pub(crate) const PAT_TABLE: u8 = 0;

/// The table id of PMT sections.
pub(crate) const PMT_TABLE: u8 = 2;

/// The high bits of a PID in its first byte.
pub(crate) const PID_HIGH: u8 = 0x1F;

/// The high bits of a length in its first byte.
pub(crate) const LENGTH_HIGH: u8 = 0x0F;

/// `current_next_indicator` in a section's sixth byte.
const CURRENT: u8 = 1;

/// `section_syntax_indicator` and the reserved bits before `section_length`, as they are written.
const SYNTAX_AND_RESERVED: u16 = 0b1011 << 12;

/// The reserved bits, version 0 and `current_next_indicator`, as they are written.
const VERSION_AND_CURRENT: u8 = 0b1100_0001;

/// The reserved bits before a PID, as they are written.
const RESERVED_BEFORE_PID: u16 = 0b111 << 13;

/// The reserved bits before a length, as they are written.
const RESERVED_BEFORE_LENGTH: u16 = 0b1111 << 12;

/// Why bytes aren't taken as a section, or a section isn't written.
#[derive(Clone, Copy, Debug, PartialEq, Eq, Error)]
pub enum SectionFault {
    /// Its parts don't fill it, or it has more than is kept.
    #[error("bad section")]
    BadSection,
    /// Its CRC is wrong.
    #[error("wrong CRC")]
    BadCrc,
    /// It has no room in one packet.
    #[error("section too long")]
    TooLong,
}

/// True where the bytes begin as a current section of this table.
#[tactic(auto, using(crate::proofs::Elements::elements))]
pub(crate) fn is_current(bytes: &[u8], table: u8) -> bool
    ensures { IsTrue result ↔ IsCurrent table bytes.now }
{
    match bytes {
        [id, _, _, _, _, flags, ..] => *id == table && flags & CURRENT == CURRENT,
        _ => false,
    }
}

/// The bytes between header and CRC. None where `section_length` doesn't count the section's bytes, or has no room for
/// both.
#[tactic(auto, using(crate::proofs::Elements::elements))]
pub(crate) fn content_of(bytes: &[u8]) -> Option<&[u8]>
    ensures { MatchOption result (IsWholeSection bytes.now → ⊥) (λ found. IsWholeSection bytes.now × (found.now ≡ content bytes.now)) }
{
    if bytes.len() < HEADER_BYTES + CRC_BYTES {
        return None;
    }
    let section_length = u16::from_be_bytes([bytes[1] & LENGTH_HIGH, bytes[2]]);
    if bytes.len() != UNCOUNTED_BYTES + section_length as usize {
        return None;
    }
    Some(&bytes[HEADER_BYTES..bytes.len() - CRC_BYTES])
}

/// Begins a section with its header.
pub(crate) fn put_header(into: &mut Section, table: u8, section_length: u16, extension: u16)
    requires { section_length < 2 ^ 12 }
    ensures bytes { into.new.items ≡ written_section_header table section_length extension }
    ensures extension { extension < 2 ^ 16 }
{
    let [length_high, length_low] = (SYNTAX_AND_RESERVED + section_length).to_be_bytes();
    let [high, low] = extension.to_be_bytes();
    into.clear();
    put(
        into,
        &[
            table,
            length_high,
            length_low,
            high,
            low,
            VERSION_AND_CURRENT,
            0,
            0,
        ],
    );
}

/// Appends a PID behind its reserved bits.
pub(crate) fn put_pid(into: &mut Section, pid: u16)
    requires pid { pid < 2 ^ 13 }
    requires room { length into.old.items ≤ 1000 }
    ensures { into.new.items ≡ into.old.items ++ written_pid pid }
{
    put(into, &(RESERVED_BEFORE_PID + pid).to_be_bytes());
}

/// Appends a length behind its reserved bits.
pub(crate) fn put_length(into: &mut Section, count: u16)
    requires count { count < 2 ^ 12 }
    requires room { length into.old.items ≤ 1000 }
    ensures { into.new.items ≡ into.old.items ++ written_length count }
{
    put(into, &(RESERVED_BEFORE_LENGTH + count).to_be_bytes());
}

/// Appends the CRC of what stands there.
pub(crate) fn put_crc(into: &mut Section)
    requires { length into.old.items ≤ 1000 }
    ensures bytes { IsWithCrc into.old.items into.new.items }
    ensures right { HasRightCrc into.new.items }
{
    let crc = crc32(into.as_slice());
    put(into, &crc.to_be_bytes());
}

/// Appends the bytes, for which there is room.
pub(crate) fn put(into: &mut Section, bytes: &[u8])
    requires { length into.old.items + length bytes.now ≤ SECTION_BYTES }
    ensures { into.new.items ≡ into.old.items ++ bytes.now }
{
    let Ok(()) = into.try_extend_from_slice(bytes) else {
        unreachable!();
    };
}

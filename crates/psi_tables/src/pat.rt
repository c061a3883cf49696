ghost use Rattle.std.specs.Prelude.{◌≡◌, ℕ, ◌+◌, ◌*◌, ◌%◌, ◌^◌, ◌<◌, ◌≤◌, ◌==◌, ◌↔◌, IsTrue, All, IfOk, IfErr, List, length, ◌++◌};
ghost use Rattle.std.specs.List.{find, flat_map};
ghost use Rattle.std.specs.Option.{option_map};
ghost use Rattle.psi_tables.specs.Crc.{HasRightCrc};
ghost use Rattle.psi_tables.specs.Section.{IsCurrent, IsItemRow, IsWithCrc};
ghost use Rattle.psi_tables.specs.Pat.{IsPatEntry, IsPat, pat_map_pid, written_pat, written_program};

use crate::section::{
    CRC_BYTES, HEADER_BYTES, PAT_TABLE, PID_HIGH, Section, SectionFault, UNCOUNTED_BYTES,
    content_of, is_current, put, put_crc, put_header, put_pid,
};

/// Length of a program in the section, in bytes.
const PROGRAM_BYTES: usize = 4;

/// True exactly where the section is a current PAT section (ISO/IEC 13818-1, 2.4.4.3). Nothing but the table id and
/// the current flag is looked at.
pub fn is_pat(section: &Section) -> bool
    ensures { IsTrue result ↔ IsCurrent 0 section.now.items }
{
    is_current(section.as_slice(), PAT_TABLE)
}

/// The PID of the program map of this number, which is that of the first program of the number in a current PAT section
/// (ISO/IEC 13818-1, 2.4.4.3). None where no program has it, for the number 0, and of any other section. The only error
/// is BadSection, where its programs don't fill a current PAT section. The CRC isn't looked at.
pub fn read_pat(section: &Section, number: u16) -> Result<Option<u16>, SectionFault>
    // Another section names no program.
    ensures other { (IsCurrent 0 section.now.items → ⊥) → result ≡ Ok None }
    // A current PAT section is one of some programs, and what is answered is theirs; or it is none of any, and refused.
    ensures pid { (programs : List (ℕ × ℕ)) → IsPat programs section.now.items → result ≡ Ok (pat_map_pid number programs) }
    ensures ok { IfOk result (λ found. IsCurrent 0 section.now.items → (programs : List (ℕ × ℕ)) × IsPat programs section.now.items) }
    ensures bad { IfErr result (λ fault. (fault ≡ SectionFault.BadSection) × IsCurrent 0 section.now.items) }
{
    if !is_pat(section) {
        return Ok(None);
    }
    let Some(content) = content_of(section.as_slice()) else {
        return Err(SectionFault::BadSection);
    };
    if content.len() % PROGRAM_BYTES != 0 {
        return Err(SectionFault::BadSection);
    }
    if number == 0 {
        return Ok(None);
    }
    Ok(find_pid(content, number))
}

/// Writes a current PAT section of version 0, reserved bits set, with its CRC (ISO/IEC 13818-1, 2.4.4.3). It needs at
/// most eight programs, each a number and the PID of its map below 8,192.
pub fn write_pat(stream_id: u16, programs: &[(u16, u16)], into: &mut Section)
    requires few { length programs.now ≤ 8 }
    requires pids { All (λ program. program.1 < 2 ^ 13) programs.now }
    ensures bytes { IsWithCrc (written_pat stream_id programs.now) into.new.items }
    // What is written is a section of these programs, and its CRC is right.
    ensures pat { IsPat programs.now into.new.items }
    ensures crc { HasRightCrc into.new.items }
{
    let section_length = HEADER_BYTES - UNCOUNTED_BYTES
        + PROGRAM_BYTES * programs.len()
        + CRC_BYTES;
    put_header(into, PAT_TABLE, section_length as u16, stream_id);
    put_programs(into, programs);
    put_crc(into);
}

/// Appends the programs.
fn put_programs(into: &mut Section, programs: &[(u16, u16)])
    requires few { length programs.now ≤ 8 }
    requires pids { All (λ program. program.1 < 2 ^ 13) programs.now }
    requires room { length into.old.items ≤ 8 }
    ensures bytes { into.new.items ≡ into.old.items ++ flat_map written_program programs.now }
    ensures numbers { All (λ program. program.0 < 2 ^ 16) programs.now }
{
    for (number, pid) in programs {
        put_program(into, *number, *pid);
    }
}

/// Appends one program.
fn put_program(into: &mut Section, number: u16, pid: u16)
    requires pid { pid < 2 ^ 13 }
    requires room { length into.old.items ≤ 900 }
    ensures bytes { into.new.items ≡ into.old.items ++ written_program (number, pid) }
    ensures number { number < 2 ^ 16 }
{
    put(into, &number.to_be_bytes());
    put_pid(into, pid);
}

/// The PID of the first program of this number.
fn find_pid(content: &[u8], number: u16) -> Option<u16>
    ensures { (programs : List (ℕ × ℕ)) → IsItemRow IsPatEntry programs content.now → result ≡ option_map (λ program. program.1) (find (λ program. program.0 == number) programs) }
{
    let mut rest = content;
    while let Some(([high, low, pid_high, pid_low], after)) = rest.split_first_chunk::<
        PROGRAM_BYTES,
    >()
    {
        if u16::from_be_bytes([*high, *low]) == number {
            return Some(u16::from_be_bytes([*pid_high & PID_HIGH, *pid_low]));
        }
        rest = after;
    }
    None
}

ghost use Rattle.std.specs.Prelude.{◌≡◌, ℕ, ◌+◌, ◌*◌, ◌^◌, ◌<◌, true, Ok, length};
ghost use Rattle.ts_packets.specs.Packet.{sync_byte};
ghost use Rattle.stream_constants.specs.declared.packets.TheConstants.{PACKET_BYTES};
ghost use Rattle.ts_packets.specs.TransportStream.{piece_at, piece_count, is_of_pid};
ghost use Rattle.psi_tables.specs.Sections.{sections_of};
ghost use Rattle.ts_demux.specs.declared.table_walk.Reading.TheVariants.{GoesOn};
ghost use Rattle.ts_demux.specs.TableWalk.{StandsBefore, IsBetween, Ends, KnowsOnMap, map_pid_of, missing_of};
ghost use Rattle.ts_demux.specs.Private.TableWalk.{IsInPat, IsInMap, IsInTable, IsOnMapPid, KnowsWhereRead, Reads, ReadsPat, ReadsMap, is_on_pat_pid, is_map_on, reader_on};

use crate::demux_fault::{DemuxFault, pid_refused, section_refused};
use crate::file_packets::place_of;
use crate::section_reader::SectionReader;
use psi_tables::{ProgramMap, Section, SectionFault, is_pat, read_pat, read_pmt};
use stream_constants::packets::PACKET_BYTES;
use ts_packets::pid_of;

/// The PID of the PAT (ISO/IEC 13818-1, Table 2-3).
const PAT_PID: u16 = 0;

/// What is known of the tables of a program.
#[derive(Clone, Copy)]
pub enum Known {
    /// No current PAT section was read.
    Nothing,
    /// Those that were read don't name the program.
    OtherPrograms,
    /// The PMT is on this PID, whose packets count from this number on.
    MapOn { pid: u16, from: usize },
}

impl Known {
    /// True where the PMT is on this PID.
    fn is_map_on(self, other: u16) -> bool
        ensures { result ≡ is_map_on self other }
    {
        match self {
            Known::Nothing => false,
            Known::OtherPrograms => false,
            Known::MapOn { pid, from: _ } => other == pid,
        }
    }

    /// True where the PMT is on PID 0 too.
    fn is_on_pat_pid(self) -> bool
        ensures { result ≡ is_on_pat_pid self }
    {
        match self {
            Known::Nothing => false,
            Known::OtherPrograms => false,
            Known::MapOn { pid, from: _ } => pid == PAT_PID,
        }
    }
}

/// The PIDs whose sections are read.
#[derive(Clone, Copy)]
enum TablePid {
    /// PID 0, that of the PAT.
    OfPat,
    /// The PMT's PID, where that is another.
    OfMap,
}

/// What comes of one section.
#[derive(Drop)]
pub enum Reading {
    /// No section waits.
    AllRead,
    /// It decides nothing.
    GoesOn,
    /// It is the program's PMT section.
    Map(ProgramMap),
}

/// Goes over the packets of a file and reads the tables of a program.
#[derive(Drop)]
pub struct TableWalk {
    program: u16,
    known: Known,
    /// The sections of PID 0.
    pat: SectionReader,
    /// Those of the PMT's PID, where that is another.
    map: SectionReader,
}

impl TableWalk {
    ghost use Rattle.std.specs.Prelude.{List, ℕ};

    /// A walk before the first packet.
    pub fn new(program: u16) -> Self
        ensures between { (file : List ℕ) → IsBetween file 0 result }
        ensures program { result.program ≡ program }
    {
        TableWalk {
            program,
            known: Known::Nothing,
            pat: SectionReader::new(),
            map: SectionReader::new(),
        }
    }

    /// Reads the n-th packet of every file in which the walk stands before it.
    pub fn take(
        &mut self,
        n: usize,
        bytes: &[u8; PACKET_BYTES],
    ) -> Result<Option<ProgramMap>, DemuxFault>
        requires place { PACKET_BYTES * n < 2 ^ 64 }
        requires stands { StandsBefore n bytes.now self.old }
        ensures ends { (file : List ℕ) → n < piece_count file → bytes.now ≡ piece_at file n → IsBetween file n self.old →
            Ends file self.old.program result (IsBetween file (n + 1) self.new × (self.new.program ≡ self.old.program)) }
        ensures known { (file : List ℕ) → n < piece_count file → bytes.now ≡ piece_at file n → IsBetween file n self.old → KnowsOnMap file self.old.program result self.new.known }
    {
        let Ok(pid) = pid_of(bytes) else {
            return Err(DemuxFault::Sync { at: place_of(n) });
        };
        if pid == PAT_PID {
            return self.take_pat_packet(n, bytes);
        }
        if self.known.is_map_on(pid) {
            return self.take_map_packet(n, bytes);
        }
        Ok(None)
    }

    /// Reads a packet of PID 0.
    fn take_pat_packet(
        &mut self,
        n: usize,
        bytes: &[u8; PACKET_BYTES],
    ) -> Result<Option<ProgramMap>, DemuxFault>
        requires place { PACKET_BYTES * n < 2 ^ 64 }
        requires stands { StandsBefore n bytes.now self.old }
        requires sync { sync_byte bytes.now ≡ 0x47 }
        requires of_pid { (file : List ℕ) → bytes.now ≡ piece_at file n → is_of_pid file 0 n ≡ true }
        ensures ends { (file : List ℕ) → n < piece_count file → bytes.now ≡ piece_at file n → IsBetween file n self.old →
            Ends file self.old.program result (IsBetween file (n + 1) self.new × (self.new.program ≡ self.old.program)) }
        ensures known { (file : List ℕ) → n < piece_count file → bytes.now ≡ piece_at file n → IsBetween file n self.old → KnowsOnMap file self.old.program result self.new.known }
    {
        match self.pat.take(bytes) {
            Ok(()) => self.read_sections(TablePid::OfPat, n),
            Err(fault) => Err(pid_refused(place_of(n), fault)),
        }
    }

    /// Reads a packet of the PMT's PID, which isn't PID 0.
    fn take_map_packet(
        &mut self,
        n: usize,
        bytes: &[u8; PACKET_BYTES],
    ) -> Result<Option<ProgramMap>, DemuxFault>
        requires place { PACKET_BYTES * n < 2 ^ 64 }
        requires stands { StandsBefore n bytes.now self.old }
        requires sync { sync_byte bytes.now ≡ 0x47 }
        requires of_pid { (file : List ℕ) → bytes.now ≡ piece_at file n → IsOnMapPid file n self.old.known }
        ensures ends { (file : List ℕ) → n < piece_count file → bytes.now ≡ piece_at file n → IsBetween file n self.old →
            Ends file self.old.program result (IsBetween file (n + 1) self.new × (self.new.program ≡ self.old.program)) }
        ensures known { (file : List ℕ) → n < piece_count file → bytes.now ≡ piece_at file n → IsBetween file n self.old → KnowsOnMap file self.old.program result self.new.known }
    {
        match self.map.take(bytes) {
            Ok(()) => self.read_sections(TablePid::OfMap, n),
            Err(fault) => Err(pid_refused(place_of(n), fault)),
        }
    }

    /// Reads the sections on one of both PIDs that wait behind the n-th packet.
    fn read_sections(&mut self, on: TablePid, n: usize) -> Result<Option<ProgramMap>, DemuxFault>
        requires place { PACKET_BYTES * n < 2 ^ 64 }
        ensures ends { (file : List ℕ) → IsInTable on file n self.old →
            Ends file self.old.program result (IsBetween file (n + 1) self.new × (self.new.program ≡ self.old.program)) }
        ensures known { (file : List ℕ) → IsInTable on file n self.old → KnowsOnMap file self.old.program result self.new.known }
    {
        loop {
            match self.read_section(on, n) {
                Ok(Reading::AllRead) => return Ok(None),
                Ok(Reading::GoesOn) => {}
                Ok(Reading::Map(map)) => return Ok(Some(map)),
                Err(fault) => return Err(fault),
            }
        }
    }

    /// Reads the next section on one of both PIDs that waits behind the n-th packet.
    fn read_section(&mut self, on: TablePid, n: usize) -> Result<Reading, DemuxFault>
        requires place { PACKET_BYTES * n < 2 ^ 64 }
        ensures read { (file : List ℕ) → IsInTable on file n self.old →
            Reads file self.old.program result (IsInTable on file n self.new × (self.new.program ≡ self.old.program)) (IsBetween file (n + 1) self.new × (self.new.program ≡ self.old.program)) }
        ensures known { (file : List ℕ) → IsInTable on file n self.old → KnowsWhereRead file self.old.program result self.new.known }
        ensures fewer { result ≡ Ok GoesOn → length (sections_of (reader_on on self.new).builder) < length (sections_of (reader_on on self.old).builder) }
    {
        match on {
            TablePid::OfPat => self.read_pat_section(n),
            TablePid::OfMap => self.read_map_section(n),
        }
    }

    /// Reads the next section of PID 0 that waits behind the n-th packet.
    fn read_pat_section(&mut self, n: usize) -> Result<Reading, DemuxFault>
        requires place { PACKET_BYTES * n < 2 ^ 64 }
        ensures read { (file : List ℕ) → IsInPat file n self.old →
            Reads file self.old.program result (IsInPat file n self.new × (self.new.program ≡ self.old.program)) (IsBetween file (n + 1) self.new × (self.new.program ≡ self.old.program)) }
        ensures known { (file : List ℕ) → IsInPat file n self.old → KnowsWhereRead file self.old.program result self.new.known }
        ensures fewer { result ≡ Ok GoesOn → length (sections_of self.new.pat.builder) < length (sections_of self.old.pat.builder) }
    {
        let Some(found) = self.pat.next() else {
            return Ok(Reading::AllRead);
        };
        let section = match found {
            Ok(section) => section,
            Err(fault) => return Err(section_refused(place_of(n), fault)),
        };
        let known = self.known;
        match known_behind(known, &section, self.program, n) {
            Ok(known) => self.known = known,
            Err(fault) => return Err(section_refused(place_of(n), fault)),
        }
        if !known.is_on_pat_pid() {
            return Ok(Reading::GoesOn);
        }
        read_program_map(&section, self.program, n)
    }

    /// Reads the next section of the PMT's PID that waits behind the n-th packet.
    fn read_map_section(&mut self, n: usize) -> Result<Reading, DemuxFault>
        requires place { PACKET_BYTES * n < 2 ^ 64 }
        ensures read { (file : List ℕ) → IsInMap file n self.old →
            Reads file self.old.program result (IsInMap file n self.new × (self.new.program ≡ self.old.program)) (IsBetween file (n + 1) self.new × (self.new.program ≡ self.old.program)) }
        ensures known { (file : List ℕ) → IsInMap file n self.old → KnowsWhereRead file self.old.program result self.new.known }
        ensures fewer { result ≡ Ok GoesOn → length (sections_of self.new.map.builder) < length (sections_of self.old.map.builder) }
    {
        let Some(found) = self.map.next() else {
            return Ok(Reading::AllRead);
        };
        let section = match found {
            Ok(section) => section,
            Err(fault) => return Err(section_refused(place_of(n), fault)),
        };
        read_program_map(&section, self.program, n)
    }

    /// The PID of the program's map, from the packet on whose section of PID 0 says it.
    pub fn map_pid(&self) -> Option<u16>
        ensures { result ≡ map_pid_of self.now.known }
    {
        match self.known {
            Known::Nothing => None,
            Known::OtherPrograms => None,
            Known::MapOn { pid, from: _ } => Some(pid),
        }
    }

    /// Why no PMT section was taken, at the file's end.
    pub fn missing(&self) -> DemuxFault
        ensures { result ≡ missing_of self.now.known }
    {
        match self.known {
            Known::Nothing => DemuxFault::NoPat { at: 0 },
            Known::OtherPrograms => DemuxFault::NoProgram { at: 0 },
            Known::MapOn { pid: _, from: _ } => DemuxFault::NoPmt { at: 0 },
        }
    }
}

/// What is known behind a section of PID 0 that the n-th packet completes. The only error is BadSection.
fn known_behind(
    known: Known,
    section: &Section,
    program: u16,
    n: usize,
) -> Result<Known, SectionFault>
    requires { PACKET_BYTES * n < 2 ^ 64 }
    ensures { ReadsPat program section.now.items n known result }
{
    let is_pat = is_pat(section);
    let named = match read_pat(section, program) {
        Ok(named) => named,
        Err(fault) => return Err(fault),
    };
    if let Known::MapOn { pid: _, from: _ } = known {
        return Ok(known);
    }
    let Some(pid) = named else {
        if is_pat {
            return Ok(Known::OtherPrograms);
        }
        return Ok(known);
    };
    Ok(Known::MapOn { pid, from: n + 1 })
}

/// What comes of a section of the PMT's PID that the n-th packet completes.
fn read_program_map(section: &Section, program: u16, n: usize) -> Result<Reading, DemuxFault>
    requires { PACKET_BYTES * n < 2 ^ 64 }
    ensures { ReadsMap program section.now.items (PACKET_BYTES * n) result }
{
    let said = match read_pmt(section) {
        Ok(said) => said,
        Err(fault) => return Err(section_refused(place_of(n), fault)),
    };
    let Some(map) = said else {
        return Ok(Reading::GoesOn);
    };
    if map.number != program {
        return Ok(Reading::GoesOn);
    }
    Ok(Reading::Map(map))
}

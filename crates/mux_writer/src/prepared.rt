ghost use Rattle.std.specs.Prelude.{◌≡◌, ◌+◌, ◌≤◌, ◌++◌, length};
ghost use Rattle.psi_tables.specs.Pmt.{IsWritableMap, pids_of, pmt_length};
ghost use Rattle.psi_tables.specs.declared.pmt.TheConstants.{PACKET_SECTION_BYTES as MOST};
ghost use Rattle.psi_tables.specs.Sections.{section_payload};
ghost use Rattle.mux_writer.specs.Layout.{IsLayout, stream_pids};
ghost use Rattle.mux_writer.specs.Tables.{pat_payload, pmt_payloads, pmt_section, programs_from};
ghost use Rattle.mux_writer.specs.Private.Writer.{IsPrepared};

use crate::layout::{LAYOUT_STREAMS_MOST, Layout, map_pid};
use arrayvec::ArrayVec;
use psi_tables::{ProgramMap, Section, write_pat, write_pmt};
use stream_constants::packets::PAYLOAD_BYTES;
use version_table::limits::PROGRAMS_MOST;

/// What fills a packet behind its section (ISO/IEC 13818-1, 2.4.4).
const STUFFING_BYTE: u8 = 0xFF;

/// What is made once for a stream.
#[derive(Drop)]
pub(crate) struct Prepared {
    /// The payload of the PAT's packets.
    pub(crate) pat: [u8; PAYLOAD_BYTES],
    /// The payloads of the PMTs' packets, program by program.
    pub(crate) pmts: ArrayVec<[u8; PAYLOAD_BYTES], PROGRAMS_MOST>,
    /// The PIDs of all streams.
    pub(crate) pids: ArrayVec<u16, LAYOUT_STREAMS_MOST>,
}

impl Prepared {
    /// What a stream with this layout needs.
    pub(crate) fn of(layout: &Layout) -> Prepared
        requires { IsLayout layout.now }
        ensures { IsPrepared layout.now result }
    {
        Prepared {
            pat: pat_of(layout),
            pmts: pmts_of(layout),
            pids: pids_of(layout),
        }
    }
}

/// The payload of the PAT's packets.
fn pat_of(layout: &Layout) -> [u8; PAYLOAD_BYTES]
    ensures { result ≡ pat_payload layout.now }
{
    let programs = programs_of(layout.maps.as_slice());
    let mut section = Section::new();
    write_pat(layout.stream_id, programs.as_slice(), &mut section);
    payload_of(&section)
}

/// The programs of the PAT: each `program_number` with the PID of its map.
fn programs_of(maps: &[ProgramMap]) -> ArrayVec<(u16, u16), PROGRAMS_MOST>
    requires { length maps.now ≤ PROGRAMS_MOST }
    ensures programs { result.items ≡ programs_from 0 maps.now }
{
    let mut programs = ArrayVec::new();
    for (program, map) in maps.iter().enumerate() {
        programs.push((map.number, map_pid(program as u8)));
    }
    programs
}

/// The payloads of the PMTs' packets.
fn pmts_of(layout: &Layout) -> ArrayVec<[u8; PAYLOAD_BYTES], PROGRAMS_MOST>
    requires { IsLayout layout.now }
    ensures { result.items ≡ pmt_payloads layout.now }
{
    let mut payloads = ArrayVec::new();
    for map in layout.maps.as_slice() {
        payloads.push(pmt_of(map));
    }
    payloads
}

/// The payload of the packets of a program's PMT.
fn pmt_of(map: &ProgramMap) -> [u8; PAYLOAD_BYTES]
    requires writable { IsWritableMap map.now }
    requires fits { pmt_length map.now ≤ MOST }
    ensures { result ≡ section_payload (pmt_section map.now) }
{
    let mut section = Section::new();
    let Ok(()) = write_pmt(map, &mut section) else {
        unreachable!();
    };
    payload_of(&section)
}

/// A section as the payload of one packet.
fn payload_of(section: &Section) -> [u8; PAYLOAD_BYTES]
    requires { length section.now.items ≤ MOST }
    ensures { result ≡ section_payload section.now.items }
{
    let mut payload = [STUFFING_BYTE; PAYLOAD_BYTES];
    payload[0] = 0;
    payload[1..1 + section.len()].copy_from_slice(section.as_slice());
    payload
}

/// The PIDs of all streams, program by program.
fn pids_of(layout: &Layout) -> ArrayVec<u16, LAYOUT_STREAMS_MOST>
    requires { IsLayout layout.now }
    ensures pids { result.items ≡ stream_pids layout.now }
    ensures few { length layout.now.maps.items ≤ PROGRAMS_MOST }
{
    let mut pids = ArrayVec::new();
    for map in layout.maps.as_slice() {
        put_pids(map, &mut pids);
    }
    pids
}

/// Appends the PIDs of a program's streams, for which there is room.
fn put_pids(map: &ProgramMap, pids: &mut ArrayVec<u16, LAYOUT_STREAMS_MOST>)
    requires { length pids.old.items + length map.now.streams.items ≤ LAYOUT_STREAMS_MOST }
    ensures { pids.new.items ≡ pids.old.items ++ pids_of map.now }
{
    for stream in map.streams.as_slice() {
        pids.push(stream.pid);
    }
}

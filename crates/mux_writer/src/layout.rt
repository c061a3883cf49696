ghost use Rattle.std.specs.Prelude.{◌≡◌, ◌<◌, ◌≤◌, [], ◌∷◌, ◌++◌, length};
ghost use Rattle.psi_tables.specs.Pmt.{IsWritableMap, pmt_length};
ghost use Rattle.mux_writer.specs.Layout.{map_pid, video_pid, with_output_pids, IsLayout};

use arrayvec::ArrayVec;
use pcr_writer::PCR_MODULUS;
use psi_tables::{PACKET_SECTION_BYTES, ProgramMap};
use version_table::limits::{AUDIOS_MOST, PROGRAMS_MOST};

/// The most streams of a program of the output: its video and eight audio streams.
pub const PROGRAM_STREAMS_MOST: usize = 1 + AUDIOS_MOST;

/// The most streams of the output.
pub const LAYOUT_STREAMS_MOST: usize = PROGRAMS_MOST * PROGRAM_STREAMS_MOST;

/// The PID of the first program's map in the output; each further program's is 16 more.
pub const FIRST_MAP_PID: u16 = 0x100;

/// PIDs of the output from a program's map to the next one's.
pub const PROGRAM_PIDS: u16 = 16;

/// What the programs of an output stream are.
#[derive(Drop)]
pub struct Layout {
    /// `transport_stream_id`.
    pub stream_id: u16,
    /// The program maps as they go out, in the order of the programs. The first stream of each is its video.
    pub maps: ArrayVec<ProgramMap, PROGRAMS_MOST>,
    /// The value of each program's clock at the first byte of the stream, in ticks of 1/27,000,000 s.
    pub bases: ArrayVec<u64, PROGRAMS_MOST>,
}

impl Layout {
    /// A stream of this `transport_stream_id` without programs.
    pub fn new(stream_id: u16) -> Layout
        ensures layout { IsLayout result }
        ensures id { result.stream_id ≡ stream_id }
        ensures none { result.maps.items ≡ [] }
    {
        Layout {
            stream_id,
            maps: ArrayVec::new(),
            bases: ArrayVec::new(),
        }
    }

    /// One more program behind the others: its map as it goes out under this `program_number`, with the PIDs of its place
    /// (`output_map`), and the value of its clock at the first byte. It needs room for it, a map that `write_pmt` writes,
    /// with at most nine streams, the video first, and a base below 300 times 2^33.
    pub fn push(&mut self, number: u16, map: ProgramMap, base: u64)
        requires layout { IsLayout self.old }
        requires room { length self.old.maps.items < PROGRAMS_MOST }
        requires map { IsWritableMap map }
        requires streams { length map.streams.items ≤ PROGRAM_STREAMS_MOST }
        requires fits { pmt_length map ≤ PACKET_SECTION_BYTES }
        requires base { base < PCR_MODULUS }
        ensures layout { IsLayout self.new }
        ensures maps { self.new.maps.items ≡ self.old.maps.items ++ with_output_pids (length self.old.maps.items) number map ∷ [] }
        ensures bases { self.new.bases.items ≡ self.old.bases.items ++ base ∷ [] }
        ensures id { self.new.stream_id ≡ self.old.stream_id }
    {
        let program = self.maps.len() as u8;
        self.maps.push(output_map(program, number, map));
        self.bases.push(base);
    }
}

/// A program's map as it goes out: with this `program_number`, and the PIDs that the program of number `program` from 0 has
/// in the output. Its map is on PID 0x100 + 16 times `program`, its streams and its PCR on those behind it; kinds and
/// descriptors stay. It needs at most nine streams, the video first, and `program` below 8.
pub fn output_map(program: u8, number: u16, map: ProgramMap) -> ProgramMap
    requires program { program < PROGRAMS_MOST }
    ensures { result ≡ with_output_pids program number map }
{
    let mut map = map;
    map.number = number;
    map.pcr_pid = video_pid(program);
    let mut pid = map.pcr_pid;
    for stream in map.streams.as_mut_slice() {
        stream.pid = pid;
        pid += 1;
    }
    map
}

/// The PID of a program's map in the output.
pub(crate) fn map_pid(program: u8) -> u16
    requires { program < PROGRAMS_MOST }
    ensures { result ≡ map_pid program }
{
    FIRST_MAP_PID + PROGRAM_PIDS * u16::from(program)
}

/// The PID of a program's video in the output.
pub(crate) fn video_pid(program: u8) -> u16
    requires { program < PROGRAMS_MOST }
    ensures { result ≡ video_pid program }
{
    map_pid(program) + 1
}

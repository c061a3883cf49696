ghost use Rattle.std.specs.Prelude.{MatchResult};
ghost use Rattle.ts_demux.specs.Tables.{IsPlacedMap, IsTablesFault};

use crate::demux_fault::DemuxFault;
use crate::file_packets::packet_at;
use crate::table_walk::TableWalk;
use psi_tables::ProgramMap;

/// The map of a program, and the PID whose sections say it.
#[derive(Drop)]
pub struct PlacedMap {
    pub pid: u16,
    pub map: ProgramMap,
}

/// The map of a program in a file: what the first current PMT section of the program's number says, on the PID that the first
/// current PAT section that names it says. An error is the first refusal up to it. Takes no memory.
pub fn find_map(file: &[u8], program: u16) -> Result<PlacedMap, DemuxFault>
    ensures { MatchResult result (IsPlacedMap file.now program) (IsTablesFault file.now program) }
{
    let mut walk = TableWalk::new(program);
    let mut n = 0;
    while let Some(bytes) = packet_at(file, n) {
        match walk.take(n, bytes) {
            Ok(None) => n += 1,
            Ok(Some(map)) => {
                return match walk.map_pid() {
                    Some(pid) => Ok(PlacedMap { pid, map }),
                    None => Err(walk.missing()),
                };
            }
            Err(fault) => return Err(fault),
        }
    }
    Err(walk.missing())
}

ghost use Rattle.std.specs.Prelude.{◌≡◌, [], IfOk, IfErr, IsErrOf};
ghost use Rattle.shelf_io.specs.Causes.{SourceCauses};
ghost use Rattle.ts_demux.specs.declared.pass_fault.PassFault.TheVariants.{Outside};
ghost use Rattle.ts_demux.specs.Private.TableWalk.{missing_behind};
ghost use Rattle.ts_demux.specs.Pass.{HoldsOfFile, OnRefused, HasMapOf, IsFrontRefused};

use crate::demux_fault::DemuxFault;
use crate::packet_buffer::PacketBuffer;
use crate::pass_fault::PassFault;
use crate::table_walk::TableWalk;
use psi_tables::ProgramMap;
use shelf_io::{Fault, Source};

/// The map of a program, out of the packets of a source from its front on: what the first current PMT section of the
/// program's number says, on the PID that the first current PAT section that names it says. An error is the source's
/// fault, or the first refusal up to the map: a file shorter than a packet, then those of packets and sections.
pub fn read_map<S: Source>(
    buffer: &mut PacketBuffer,
    source: &mut S,
    program: u16,
) -> Result<ProgramMap, PassFault>
    requires { buffer.old ≡ [] }
    ensures map { IfOk result (λ map. HoldsOfFile (S.left source.old) (S.left source.new) (S.most source.old) (S.most source.new) buffer.new (HasMapOf program map)) }
    ensures refused { IfErr result (λ fault. OnRefused fault (λ refusal. HoldsOfFile (S.left source.old) (S.left source.new) (S.most source.old) (S.most source.new) buffer.new (IsFrontRefused program refusal))) }
    ensures causes { SourceCauses S.faults S.absences (IsErrOf result (Outside Fault.Failed)) (IsErrOf result (Outside Fault.Missing)) source.old source.new }
    ensures keeps { S.keeps source.old source.new }
{
    let mut walk = TableWalk::new(program);
    let mut n = 0;
    loop {
        match buffer.fill(source) {
            Ok(()) => {}
            Err(fault) => return Err(PassFault::Outside(fault)),
        }
        let Some(packet) = buffer.first() else {
            return Err(PassFault::Refused(missing(&walk, n)));
        };
        let taken = walk.take(n, packet);
        buffer.pass();
        match taken {
            Ok(None) => n += 1,
            Ok(Some(map)) => return Ok(map),
            Err(fault) => return Err(PassFault::Refused(fault)),
        }
    }
}

/// Why there is no map behind all of so many packets.
fn missing(walk: &TableWalk, packets: usize) -> DemuxFault
    ensures { result ≡ missing_behind packets walk.now.known }
{
    if packets == 0 {
        return DemuxFault::ShortFile { at: 0 };
    }
    walk.missing()
}

//! A stream of a transport stream that is read while the file passes out of a source.
ghost use Rattle.std.specs.Prelude.{◌≡◌, ℕ, ◌<◌, List, [], length, map, IfErr, IfOk, IsErrOf};
ghost use Rattle.shelf_io.specs.Causes.{SourceCauses};
ghost use Rattle.ts_demux.specs.declared.pass_fault.PassFault.TheVariants.{Outside};
ghost use Rattle.ts_demux.specs.CarriedPackets.{AreDistinct};
ghost use Rattle.ts_demux.specs.Pass.{IsWhole};
ghost use Rattle.stream_pass.specs.declared.read_fault.ReadFault.TheVariants as faults;
ghost use Rattle.stream_pass.specs.PassedStream.{IsOfStream, IsReadRefused};

use crate::limited_walk::{begin, end_stream, take_packet};
use crate::read_fault::ReadFault;
use crate::stream_walk::StreamWalk;
use pes_passing::PassingPackets;
use psi_tables::Stream;
use shelf_io::{Fault, Source};
use std::alloc::Global;
use stream_constants::packets::PACKET_BYTES;
use ts_demux::{PacketBuffer, PassFault};

/// Reads a stream of a file by a walk that has taken nothing yet, out of a source that gives the file from its front on: the stream of this number among those
/// of a map that are carried, whose PIDs differ. Of its bytes none but those of the open PES packet are held, and what the walk keeps. An error is the source's
/// fault, want of memory, or the first refusal: that of the transport packets of all these streams, that a limit is passed, and then the stream's.
pub fn pass_stream<W: StreamWalk, S: Source>(
    alloc: Global,
    buffer: &mut PacketBuffer,
    source: &mut S,
    streams: &[Stream],
    index: usize,
    walk: W,
) -> Result<W::Read, ReadFault<PassFault, W::Fault>>
    requires empty { buffer.old ≡ [] }
    requires index { index < length streams.now }
    requires distinct { AreDistinct (map (λ stream. stream.pid) streams.now) }
    requires begins { W.has_read walk [] walk }
    ensures read { IfOk result (λ read. IsWhole (S.left source.old) (S.left source.new) (S.most source.old) (S.most source.new) buffer.new
        (λ file. IsOfStream file (map (λ stream. stream.pid) streams.now) index (W.reads walk) read)) }
    ensures refused { IfErr result (IsReadRefused (S.left source.old) (S.left source.new) (S.most source.old) (S.most source.new) buffer.new
        (map (λ stream. stream.pid) streams.now) index (W.refuses walk)) }
    ensures causes { SourceCauses S.faults S.absences (IsErrOf result (faults.Passing (Outside Fault.Failed))) (IsErrOf result (faults.Passing (Outside Fault.Missing))) source.old source.new }
    ensures keeps { S.keeps source.old source.new }
{
    let mut packets = match PassingPackets::new(alloc, streams, index) {
        Ok(packets) => packets,
        Err(fault) => return Err(ReadFault::Passing(PassFault::Refused(fault))),
    };
    let mut passed = begin(walk);
    loop {
        let more = match packets.next(buffer, source) {
            Ok(more) => more,
            Err(fault) => return Err(ReadFault::Passing(fault)),
        };
        if !more {
            let bytes = packets.packets_read() * PACKET_BYTES + buffer.rest().len();
            return end_stream(passed, packets.packet(), bytes as u64);
        }
        passed = match take_packet(passed, packets.packet()) {
            Ok(passed) => passed,
            Err(_) => return Err(ReadFault::OutOfMemory),
        };
    }
}

ghost use Rattle.std.specs.Prelude.{◌≡◌, ℕ, ◌+◌, ◌%◌, ◌<◌, ◌≤◌, true, [], All, length, slice_index, slice_index_or, IfSome, OnOk, OnErr, IsErrOf};
ghost use Rattle.version_table.specs.declared.limits.TheConstants.{PROGRAMS_MOST, SLOT_LEAST, SLOT_MOST};
ghost use Rattle.shelf_io.specs.Causes.{SinkCauses};
ghost use Rattle.shelf_io.specs.Sink.{with_bytes, AddsPrefix};
ghost use Rattle.ts_packets.specs.Packet.{written};
ghost use Rattle.pcr_writer.specs.PcrPacket.{pcr_at, pcr_record};
ghost use Rattle.mux_writer.specs.Layout.{IsLayout, map_pid, video_pid};
ghost use Rattle.mux_writer.specs.Output.{IsOfLayout, full_record, output_stream, output_packet, pid_of, piece_record};
ghost use Rattle.mux_writer.specs.Private.Writer.{IsPrepared, counted, one_more};
ghost use Rattle.mux_writer.specs.Causes.{StreamCauses};

use crate::counters::{Counters, PIDS};
use crate::gathered::Gathered;
use crate::layout::{Layout, map_pid, video_pid};
use crate::packets::{PAT_PID, full_packet, null_packet, piece_packet};
use crate::piece_source::PieceSource;
use crate::prepared::Prepared;
use crate::stream_writer::StreamWriter;
use pcr_writer::pcr_packet;
use shelf_io::{Fault, Sink};
use slot_rule::{Sent, SlotList};
use stream_constants::packets::{PACKET_BYTES, PAYLOAD_BYTES};
use version_table::limits::{PROGRAMS_MOST, SLOT_LEAST, SLOT_MOST};

/// Writes the transport stream of a schedule: for each of its slots, in order, the packet of what stands there. Packets are
/// gathered, and go into the sink 64 at a time, those that are left at the end. PAT and PMT packets have the sections of the
/// layout, packets with a PCR the time of their slot (slots have `slot` ticks of 1/27,000,000 s), and packets of streams the
/// pieces of `pieces`. It takes no memory.
///
/// A fault is the sink's or the piece source's own, and then a front of the stream was written: packets that were gathered
/// before a fault of the piece source aren't. Missing never comes.
///
/// It needs a layout whose maps have the output's PIDs and fit their packets, a slot within the limits, as many rows as
/// `slots` says, and rows that name programs and streams of the layout and pieces that the source has.
pub fn write_stream<K: Sink, P: PieceSource>(
    to: &mut K,
    layout: &Layout,
    slot: u32,
    schedule: &SlotList,
    pieces: &mut P,
) -> Result<(), Fault>
    requires layout { IsLayout layout.now }
    requires slot_least { SLOT_LEAST ≤ slot }
    requires slot_most { slot ≤ SLOT_MOST }
    requires slots { length schedule.now.rows ≡ schedule.now.slots }
    requires rows { All (IsOfLayout layout.now (P.has pieces.old)) schedule.now.rows }
    // The sink gets the packets of all slots and nothing else; after a fault a front of them.
    ensures ok { OnOk result (IfSome (P.told pieces.old) (λ told. K.written to.new ≡ with_bytes (K.written to.old) (output_stream layout.now slot told schedule.now.rows))) }
    ensures err { OnErr result (IfSome (P.told pieces.old) (λ told. AddsPrefix (K.written to.old) (K.written to.new) (output_stream layout.now slot told schedule.now.rows))) }

    ensures causes { StreamCauses K.faults K.since_fault P.faults (IsErrOf result Fault.Failed) (IsErrOf result Fault.Missing) to.old to.new pieces.old pieces.new }
    ensures keeps_sink { K.keeps to.old to.new }
    ensures keeps_pieces { P.keeps pieces.old pieces.new }
    ensures same_pieces { P.told pieces.new ≡ P.told pieces.old }
{
    let mut writer = StreamWriter::new(layout, slot, schedule);
    let mut gathered = Gathered::new();
    let mut packet = [0; PACKET_BYTES];
    loop {
        match writer.next(pieces, &mut packet) {
            Ok(true) => {}
            Ok(false) => return gathered.put(to),
            Err(fault) => return Err(fault),
        }
        gathered.make_room(to)?;
        gathered.push(&packet);
    }
}

/// Writes the packet of slot `n`, in which `sent` stands, and counts it. A fault is the piece source's own.
pub(crate) fn slot_packet<P: PieceSource>(
    layout: &Layout,
    slot: u32,
    prepared: &Prepared,
    counters: &mut Counters,
    n: u32,
    sent: Sent,
    pieces: &mut P,
    into: &mut [u8; PACKET_BYTES],
) -> Result<(), Fault>
    requires layout { IsLayout layout.now }
    requires prepared { IsPrepared layout.now prepared.now }
    requires counters { length counters.old ≡ PIDS }
    requires slot { slot ≤ SLOT_MOST }
    requires sent { IsOfLayout layout.now (P.has pieces.old) sent }
    ensures packet { OnOk result (IfSome (P.told pieces.old) (λ told. (count : ℕ) →
        slice_index counters.old (pid_of layout.now sent) ≡ count % 256 → into.new ≡ written (output_packet layout.now slot told count n sent))) }
    ensures counters { OnOk result (counters.new ≡ counted layout.now sent counters.old) }
    ensures kept { OnErr result (counters.new ≡ counters.old) }

    ensures causes { SinkCauses P.faults (IsErrOf result Fault.Failed) (IsErrOf result Fault.Missing) pieces.old pieces.new }
    ensures keeps { P.keeps pieces.old pieces.new }
    ensures same { P.told pieces.new ≡ P.told pieces.old }
    ensures still { (stream item piece : ℕ) → P.has pieces.old stream item piece → P.has pieces.new stream item piece }
{
    match sent {
        Sent::Null => {
            null_packet(into);
            Ok(())
        }
        Sent::Pat => {
            full_packet(PAT_PID, true, counters.take(PAT_PID), &prepared.pat, into);
            Ok(())
        }
        Sent::Pmt(program) => {
            map_packet(prepared, counters, program, into);
            Ok(())
        }
        Sent::Pcr(program) => {
            clock_packet(layout, slot, counters, n, program, into);
            Ok(())
        }
        Sent::Video {
            stream,
            unit,
            piece,
        } => { stream_packet(prepared, counters, stream, unit, piece, pieces, into) }
        Sent::Audio { stream, packet } => {
            stream_packet(prepared, counters, stream, packet, 0, pieces, into)
        }
    }
}

/// Writes the packet of a program's PMT.
fn map_packet(
    prepared: &Prepared,
    counters: &mut Counters,
    program: u8,
    into: &mut [u8; PACKET_BYTES],
)
    requires counters { length counters.old ≡ PIDS }
    requires few { program < PROGRAMS_MOST }
    requires program { program < length prepared.now.pmts.items }
    ensures packet { into.new ≡ written (full_record (map_pid program) true (slice_index counters.old (map_pid program) % 16) (slice_index_or prepared.now.pmts.items program [])) }
    ensures counters { counters.new ≡ one_more (map_pid program) counters.old }
{
    let pid = map_pid(program);
    full_packet(
        pid,
        true,
        counters.take(pid),
        &prepared.pmts[usize::from(program)],
        into,
    );
}

/// Writes the packet of a program's PCR in slot `n`.
fn clock_packet(
    layout: &Layout,
    slot: u32,
    counters: &Counters,
    n: u32,
    program: u8,
    into: &mut [u8; PACKET_BYTES],
)
    requires layout { IsLayout layout.now }
    requires counters { length counters.now ≡ PIDS }
    requires slot { slot ≤ SLOT_MOST }
    requires few { program < PROGRAMS_MOST }
    requires program { program < length layout.now.maps.items }
    ensures packet { into.new ≡ written (pcr_record (video_pid program) ((slice_index counters.now (video_pid program) + 15) % 16)
        (pcr_at (slice_index layout.now.bases.items program) n slot)) }
{
    let pid = video_pid(program);
    let base = layout.bases[usize::from(program)];
    *into = pcr_packet(pid, counters.last(pid), base, n, slot);
}

/// Writes the packet of a piece. A fault is the piece source's own.
fn stream_packet<P: PieceSource>(
    prepared: &Prepared,
    counters: &mut Counters,
    stream: u32,
    item: u32,
    piece: u32,
    pieces: &mut P,
    into: &mut [u8; PACKET_BYTES],
) -> Result<(), Fault>
    requires counters { length counters.old ≡ PIDS }
    requires stream { stream < length prepared.now.pids.items }
    requires pids { All (λ pid. pid < PIDS) prepared.now.pids.items }
    requires piece { P.has pieces.old stream item piece }
    ensures packet { OnOk result (IfSome (P.told pieces.old) (λ told.
        into.new ≡ written (piece_record (slice_index prepared.now.pids.items stream) (slice_index counters.old (slice_index prepared.now.pids.items stream) % 16) (told stream item piece)))) }
    ensures counters { OnOk result (counters.new ≡ one_more (slice_index prepared.now.pids.items stream) counters.old) }
    ensures kept { OnErr result (counters.new ≡ counters.old) }

    ensures causes { SinkCauses P.faults (IsErrOf result Fault.Failed) (IsErrOf result Fault.Missing) pieces.old pieces.new }
    ensures keeps { P.keeps pieces.old pieces.new }
    ensures same { P.told pieces.new ≡ P.told pieces.old }
    ensures still { (stream item piece : ℕ) → P.has pieces.old stream item piece → P.has pieces.new stream item piece }
{
    let mut buffer = [0; PAYLOAD_BYTES];
    let filled = pieces.piece(stream, item, piece, &mut buffer)?;
    let pid = prepared.pids[stream as usize];
    piece_packet(pid, counters.take(pid), filled, &buffer, into);
    Ok(())
}

//! The PIDs of an output stream.

ghost use Rattle.std.specs.Prelude.{◌≡◌, ◌≢◌, ℕ, ◌*◌, ◌≤◌, ◌<◌, true, List, None, Some, Ok, length, map, filter, replicate, slice_get};
ghost use Rattle.stream_constants.specs.declared.packets.TheConstants.{PACKET_BYTES};
ghost use Rattle.slot_rule.specs.declared.sent.Sent.{Sent};
ghost use Rattle.slot_rule.specs.SlotList.{is_sent_of};
ghost use Rattle.ts_packets.specs.TransportStream.{is_of_pid, piece_at, pid_pieces};
ghost use Rattle.ts_packets.specs.Carried.{carried, pid_fault};
ghost use Rattle.psi_tables.specs.declared.program_map.ProgramMap.{ProgramMap};
ghost use Rattle.psi_tables.specs.Sections.{sections_of};
ghost use Rattle.mux_writer.specs.declared.layout.Layout.{Layout};
ghost use Rattle.mux_writer.specs.declared.packets.TheConstants.{NULL_PID, PAT_PID};
ghost use Rattle.mux_writer.specs.Layout.{map_pid, stream_pid, stream_pids};
ghost use Rattle.mux_writer.specs.Output.{output_packets, output_stream, payload_count};
ghost use Rattle.mux_writer.specs.Pieces.{Pieces};
ghost use Rattle.mux_writer.specs.Tables.{pat_section, pmt_section};
ghost use Rattle.layer_laws.specs.Counted.{AreCounted};
ghost use Rattle.output_laws.specs.SentOn.{AreRowsOf, payloads_sent_on, payload_sent, slots_between};

use crate::tables::{pat_read_as_written, pmt_read_as_written};
use layer_laws::packets::{counted_payloads_are_carried, section_sent_again_and_again};
use mux_writer::laws::read_as_written;

/// The packets of an output stream are counted on each PID but that of the null packets.
pub fn packets_are_counted()
    ensures { (layout : Layout) (slot : ℕ) (pieces : Pieces) (rows : List Sent) (pid : ℕ) → AreRowsOf layout pieces rows → pid ≢ NULL_PID →
        AreCounted pid (output_packets layout slot pieces rows) }
{}

/// Each PID of an output stream but that of the null packets is read as what was sent on it: from any packet to any later one,
/// nothing on it is refused, and it carries the payloads that the slots between sent there, in order.
pub fn pids_read_as_sent()
    ensures sound { (layout : Layout) (slot : ℕ) (pieces : Pieces) (rows : List Sent) (pid from n : ℕ) → AreRowsOf layout pieces rows → pid ≢ NULL_PID →
        from ≤ n → n < length rows → is_of_pid (output_stream layout slot pieces rows) pid n ≡ true →
        pid_fault (pid_pieces (output_stream layout slot pieces rows) pid from n)
        (record { at = PACKET_BYTES * n; bytes = piece_at (output_stream layout slot pieces rows) n }) ≡ None }
    ensures carried { (layout : Layout) (slot : ℕ) (pieces : Pieces) (rows : List Sent) (pid from to : ℕ) → AreRowsOf layout pieces rows → pid ≢ NULL_PID →
        from ≤ to → to ≤ length rows →
        map (λ carried. carried.payload) (carried (pid_pieces (output_stream layout slot pieces rows) pid from to)) ≡ payloads_sent_on layout pieces pid (slots_between rows from to) }
{
    packets_are_counted();
    read_as_written();
    counted_payloads_are_carried();
}

/// From any packet to any later one, the sections on PID 0 are the PAT's, as often as the slots between send it; and those on the
/// PID of a program's map are that program's PMT's. So nothing else is found there, and no error.
pub fn tables_read_again_and_again()
    ensures pat { (layout : Layout) (slot : ℕ) (pieces : Pieces) (rows : List Sent) (from to : ℕ) → AreRowsOf layout pieces rows → from ≤ to → to ≤ length rows →
        sections_of (map (λ carried. carried.payload) (carried (pid_pieces (output_stream layout slot pieces rows) PAT_PID from to)))
        ≡ replicate (payload_count layout PAT_PID (slots_between rows from to)) (Ok (pat_section layout)) }
    ensures pmt { (layout : Layout) (slot : ℕ) (pieces : Pieces) (rows : List Sent) (program from to : ℕ) (program_map : ProgramMap) → AreRowsOf layout pieces rows →
        slice_get layout.maps.items program ≡ Some program_map → from ≤ to → to ≤ length rows →
        sections_of (map (λ carried. carried.payload) (carried (pid_pieces (output_stream layout slot pieces rows) (map_pid program) from to)))
        ≡ replicate (payload_count layout (map_pid program) (slots_between rows from to)) (Ok (pmt_section program_map)) }
{
    pids_read_as_sent();
    section_sent_again_and_again();
    pat_read_as_written();
    pmt_read_as_written();
}

/// No stream shares its PID: what slots send on it are the payloads of this stream's packets alone, in order.
pub fn stream_pids_are_their_own()
    ensures { (layout : Layout) (pieces : Pieces) (rows : List Sent) (stream : ℕ) → AreRowsOf layout pieces rows → stream < length (stream_pids layout) →
        payloads_sent_on layout pieces (stream_pid layout stream) rows ≡ map (payload_sent layout pieces) (filter (is_sent_of stream) rows) }
{}

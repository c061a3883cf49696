//! The streams of an output stream.

ghost use Rattle.std.specs.Prelude.{◌≡◌, ℕ, ◌<◌, List, Some, length, map, slice_get};
ghost use Rattle.std.specs.List.{flat_map, zip};
ghost use Rattle.bit_lists.specs.Payload.{Payload};
ghost use Rattle.version_table.specs.declared.table.AudioPacket.{AudioPacket};
ghost use Rattle.version_table.specs.declared.table.ProgramRow.{ProgramRow};
ghost use Rattle.version_table.specs.declared.table.Table.{Table};
ghost use Rattle.version_table.specs.Choice.{version_at};
ghost use Rattle.slot_rule.specs.declared.slot_list.SlotList.{SlotList};
ghost use Rattle.slot_rule.specs.Queues.{Queue, audio_of, payloads, queues_of, video_queue};
ghost use Rattle.slot_rule.specs.SlotList.{IsSlotList};
ghost use Rattle.ts_packets.specs.TransportStream.{pid_pieces};
ghost use Rattle.ts_packets.specs.Carried.{carried};
ghost use Rattle.pes_units.specs.PesPackets.{gathered};
ghost use Rattle.mux_writer.specs.declared.layout.Layout.{Layout};
ghost use Rattle.mux_writer.specs.Layout.{stream_pid, stream_pids};
ghost use Rattle.mux_writer.specs.Output.{output_stream};
ghost use Rattle.mux_writer.specs.Pieces.{Pieces};
ghost use Rattle.layer_laws.specs.PesPieces.{CarryAll};
ghost use Rattle.output_laws.specs.SentItems.{GivesPieces, Sends};
ghost use Rattle.output_laws.specs.SentOn.{AreRowsOf};

use crate::pids::{pids_read_as_sent, stream_pids_are_their_own};
use layer_laws::pes::packets_gathered_again;
use slot_rule::laws::packets_stand_in_order;

/// A queue of a table sends items where it has as many packets for each as the item has pieces: of video as many as carry the bytes of
/// the unit's chosen version, of audio one.
pub fn queues_send_items()
    ensures video { (program : ℕ) (row : ProgramRow) (choice : List ℕ) (items : List (List Payload)) →
        map (λ pieces. length pieces) items ≡ map (λ chosen. length (payloads (version_at chosen.0 chosen.1).bytes)) (zip row.units choice) →
        Sends (video_queue program row choice) items }
    ensures audio { (packets : List AudioPacket) (items : List (List Payload)) →
        map (λ pieces. length pieces) items ≡ map (λ packet. 1) packets → Sends (audio_of packets) items }
{}

/// In the stream of a schedule a stream's PID carries the pieces of the items that its queue sends, item by item: and where these are
/// PES packets cut into payloads, they are gathered into these PES packets again, none more and none less.
pub fn streams_read_as_sent()
    ensures carried { (table : Table) (choice : List ℕ) (list : SlotList) (layout : Layout) (slot : ℕ) (pieces : Pieces) (stream : ℕ) (queue : Queue) (items : List (List Payload)) →
        IsSlotList table choice list → slice_get (queues_of table choice) stream ≡ Some queue → AreRowsOf layout pieces list.rows → stream < length (stream_pids layout) →
        Sends queue items → GivesPieces items (pieces stream) →
        map (λ carried. carried.payload) (carried (pid_pieces (output_stream layout slot pieces list.rows) (stream_pid layout stream) 0 (length list.rows)))
        ≡ flat_map (λ pieces. pieces) items }
    ensures gathered { (table : Table) (choice : List ℕ) (list : SlotList) (layout : Layout) (slot : ℕ) (pieces : Pieces) (stream : ℕ) (queue : Queue) (items : List (List Payload))
        (packets : List (List ℕ)) (cuts : List (List Payload)) →
        IsSlotList table choice list → slice_get (queues_of table choice) stream ≡ Some queue → AreRowsOf layout pieces list.rows → stream < length (stream_pids layout) →
        Sends queue items → GivesPieces items (pieces stream) → CarryAll packets cuts → flat_map (λ pieces. pieces) cuts ≡ flat_map (λ pieces. pieces) items →
        map (λ packet. packet.bytes) (gathered (carried (pid_pieces (output_stream layout slot pieces list.rows) (stream_pid layout stream) 0 (length list.rows)))) ≡ packets }
{
    pids_read_as_sent();
    stream_pids_are_their_own();
    packets_stand_in_order();
    packets_gathered_again();
}

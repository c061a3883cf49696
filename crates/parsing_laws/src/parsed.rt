//! What is read of each program.

ghost use Rattle.std.specs.Prelude.{◌≡◌, ℕ, List, All, length, map, Some};
ghost use Rattle.version_table.specs.declared.table.Table.{Table};
ghost use Rattle.version_table.specs.Table.{IsValidTable};
ghost use Rattle.slot_rule.specs.declared.slot_list.SlotList.{SlotList};
ghost use Rattle.slot_rule.specs.declared.sent.Sent.{Sent};
ghost use Rattle.slot_rule.specs.SlotList.{IsSlotList};
ghost use Rattle.psi_tables.specs.declared.program_map.ProgramMap.{ProgramMap};
ghost use Rattle.psi_tables.specs.declared.stream.Stream.{Stream};
ghost use Rattle.es_units.specs.Units.{cut_units};
ghost use Rattle.mux_writer.specs.declared.layout.Layout.{Layout};
ghost use Rattle.mux_writer.specs.Output.{output_stream};
ghost use Rattle.mux_writer.specs.Pieces.{Pieces};
ghost use Rattle.layer_laws.specs.WholeUnits.{IsLedBySequence, IsWholeUnit, placed_units};
ghost use Rattle.output_laws.specs.SentOn.{AreRowsOf};
ghost use Rattle.parsing_laws.specs.Parsed.{AreReadAs, CanBeSaid, CarriesPackets, CarryPackets, ParsesProgram, SentUnit, joined_payloads, sent_packet};
ghost use Rattle.parsing_laws.specs.TakenOut.{BeginWithTables, HasStreams, IsNumberedIn, taken_out};

use crate::programs::programs_are_taken_out;
use layer_laws::pes::{packets_gathered_again, video_packet_read_as_written};
use layer_laws::units::units_cut_again;

/// The slots of a schedule begin with the PAT and the PMTs of all programs.
pub fn slots_begin_with_tables()
    ensures { (table : Table) (choice : List ℕ) (list : SlotList) → IsValidTable table → IsSlotList table choice list → BeginWithTables (length table.programs) list.rows }
{}

/// Each program of an output stream, on whose PIDs the PES packets of units and of audio streams are sent, is read as this program: with its map, its units and
/// their times, and its audio PES packets byte for byte.
pub fn programs_parse()
    ensures { (layout : Layout) (slot : ℕ) (pieces : Pieces) (rows : List Sent) (program : ℕ) (program_map : ProgramMap) (video : Stream) (audios : List Stream)
        (units : List SentUnit) (packets : List (List (List ℕ)))
        → AreRowsOf layout pieces rows → BeginWithTables (length layout.maps.items) rows → IsNumberedIn layout.maps.items program program_map → HasStreams program_map video audios
        → CarriesPackets (output_stream layout slot pieces rows) video.pid (map sent_packet units) → All CanBeSaid units
        → CarryPackets (output_stream layout slot pieces rows) audios packets
        → ParsesProgram (output_stream layout slot pieces rows) program_map units packets (taken_out (output_stream layout slot pieces rows) program_map video audios) }
{
    programs_are_taken_out();
    packets_gathered_again();
    video_packet_read_as_written();
}

/// The payloads of a video that is read as units, joined, are cut into these units again, where each is whole by its own bytes and the first one begins with a
/// sequence header: none is dropped.
pub fn units_of_the_video()
    ensures { (units : List SentUnit) (packets : List (List ℕ)) → AreReadAs units packets → IsLedBySequence (map (λ unit. unit.bytes) units) → All IsWholeUnit (map (λ unit. unit.bytes) units)
        → cut_units (joined_payloads packets) ≡ Some (record { dropped = 0; cuts = placed_units 0 (map (λ unit. unit.bytes) units) }) }
{
    units_cut_again();
}

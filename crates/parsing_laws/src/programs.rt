//! The programs of an output stream.

ghost use Rattle.std.specs.Prelude.{◌≡◌, ℕ, List, [], length};
ghost use Rattle.slot_rule.specs.declared.sent.Sent.{Sent};
ghost use Rattle.psi_tables.specs.declared.program_map.ProgramMap.{ProgramMap};
ghost use Rattle.psi_tables.specs.declared.stream.Stream.{Stream};
ghost use Rattle.psi_tables.specs.Pmt.{without_dropped};
ghost use Rattle.ts_demux.specs.Demux.{IsDemuxed};
ghost use Rattle.ts_demux.specs.Tables.{HasMap};
ghost use Rattle.mux_writer.specs.declared.layout.Layout.{Layout};
ghost use Rattle.mux_writer.specs.Layout.{map_pid};
ghost use Rattle.mux_writer.specs.Output.{output_stream};
ghost use Rattle.mux_writer.specs.Pieces.{Pieces};
ghost use Rattle.output_laws.specs.SentOn.{AreRowsOf};
ghost use Rattle.parsing_laws.specs.TakenOut.{BeginWithTables, HasStreams, IsNumberedIn, LeadsToMap, taken_out};

use layer_laws::packets::packets_stand_in_order;
use mux_writer::laws::read_as_written;
use output_laws::pids::{pids_read_as_sent, tables_read_again_and_again};
use output_laws::tables::{pat_read_as_written, pmt_read_as_written};

/// The tables of each program of an output stream are read: the first PAT leads to its map, which is the one that was written, and no PAT leads to another one.
pub fn maps_are_read()
    ensures read { (layout : Layout) (slot : ℕ) (pieces : Pieces) (rows : List Sent) (program : ℕ) (program_map : ProgramMap) → AreRowsOf layout pieces rows
        → BeginWithTables (length layout.maps.items) rows → IsNumberedIn layout.maps.items program program_map
        → HasMap (output_stream layout slot pieces rows) program_map.number (without_dropped program_map) }
    ensures leads { (layout : Layout) (slot : ℕ) (pieces : Pieces) (rows : List Sent) (program : ℕ) (program_map : ProgramMap) → AreRowsOf layout pieces rows
        → BeginWithTables (length layout.maps.items) rows → IsNumberedIn layout.maps.items program program_map
        → LeadsToMap (output_stream layout slot pieces rows) program_map.number (map_pid program) }
{
    packets_stand_in_order();
    read_as_written();
    pids_read_as_sent();
    tables_read_again_and_again();
    pat_read_as_written();
    pmt_read_as_written();
}

/// Each program of an output stream, whose map has one video stream and audio streams behind it, is taken out of the stream: its map is the one that was
/// written, no packet of its streams is refused, and no stream is left out.
pub fn programs_are_taken_out()
    ensures { (layout : Layout) (slot : ℕ) (pieces : Pieces) (rows : List Sent) (program : ℕ) (program_map : ProgramMap) (video : Stream) (audios : List Stream)
        → AreRowsOf layout pieces rows → BeginWithTables (length layout.maps.items) rows → IsNumberedIn layout.maps.items program program_map → HasStreams program_map video audios
        → IsDemuxed (output_stream layout slot pieces rows) program_map.number [] (taken_out (output_stream layout slot pieces rows) program_map video audios) }
{
    maps_are_read();
    packets_stand_in_order();
    read_as_written();
    pids_read_as_sent();
}

//! Laws of the definitions, each the contract of a function that does nothing.

ghost use Rattle.std.specs.Prelude.{◌≡◌, ℕ, ◌≤◌, All, List, Some, length, map};
ghost use Rattle.slot_rule.specs.declared.sent.Sent.{Sent};
ghost use Rattle.version_table.specs.declared.limits.TheConstants.{PROGRAMS_MOST};
ghost use Rattle.ts_packets.specs.TransportStream.{packets};
ghost use Rattle.mux_writer.specs.declared.layout.Layout.{Layout};
ghost use Rattle.mux_writer.specs.Layout.{IsLayout};
ghost use Rattle.mux_writer.specs.Output.{IsOfLayout, output_packets, output_stream};
ghost use Rattle.mux_writer.specs.Pieces.{IsPayload, Pieces};

/// An output stream is read as the packets of its slots, one for each: none is refused, and nothing else is in it.
pub fn read_as_written()
    ensures { (layout : Layout) (slot : ℕ) (pieces : Pieces) (rows : List Sent) →
        IsLayout layout → length layout.maps.items ≤ PROGRAMS_MOST → All (IsOfLayout layout (IsPayload pieces)) rows →
        packets (output_stream layout slot pieces rows) ≡ map Some (output_packets layout slot pieces rows) }
{}

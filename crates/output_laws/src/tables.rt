//! The sections of an output stream.

ghost use Rattle.std.specs.Prelude.{◌≡◌, ◌≢◌, ℕ, ◌≤◌, ◌<◌, List, [], ◌∷◌, Some, Ok, length, slice_get};
ghost use Rattle.psi_tables.specs.declared.pmt.TheConstants.{PACKET_SECTION_BYTES};
ghost use Rattle.psi_tables.specs.declared.program_map.ProgramMap.{ProgramMap};
ghost use Rattle.psi_tables.specs.Pat.{IsPat, pat_map_pid as said_pid};
ghost use Rattle.psi_tables.specs.Pmt.{IsWritableMap, pmt_length, without_dropped};
ghost use Rattle.psi_tables.specs.PmtOf.{pmt_of};
ghost use Rattle.psi_tables.specs.Sections.{found_at};
ghost use Rattle.version_table.specs.declared.limits.TheConstants.{PROGRAMS_MOST};
ghost use Rattle.mux_writer.specs.declared.layout.Layout.{Layout};
ghost use Rattle.mux_writer.specs.Layout.{map_pid};
ghost use Rattle.mux_writer.specs.Tables.{pat_section, pmt_section, programs_from};
ghost use Rattle.output_laws.specs.Fields.{HaveNumbersInRange, IsMapInRange};

/// The PAT section of a layout is found as it is, and says its programs: the number of each and the PID of its map.
pub fn pat_read_as_written()
    ensures found { (layout : Layout) → length layout.maps.items ≤ PROGRAMS_MOST → HaveNumbersInRange layout → found_at (pat_section layout) ≡ Ok (pat_section layout) ∷ [] }
    ensures says { (layout : Layout) → length layout.maps.items ≤ PROGRAMS_MOST → HaveNumbersInRange layout → IsPat (programs_from 0 layout.maps.items) (pat_section layout) }
    // In it a program number that isn't 0 leads to the map of the first program that has it.
    ensures leads { (maps : List ProgramMap) (program : ℕ) (program_map : ProgramMap) → slice_get maps program ≡ Some program_map → program_map.number ≢ 0 →
        ((other : ℕ) (earlier : ProgramMap) → other < program → slice_get maps other ≡ Some earlier → earlier.number ≢ program_map.number) →
        said_pid program_map.number (programs_from 0 maps) ≡ Some (map_pid program) }
{}

/// The PMT section of a program that fits a packet is found as it is, and says the program's map, of which nothing is dropped.
pub fn pmt_read_as_written()
    ensures found { (program_map : ProgramMap) → IsWritableMap program_map → IsMapInRange program_map → pmt_length program_map ≤ PACKET_SECTION_BYTES →
        found_at (pmt_section program_map) ≡ Ok (pmt_section program_map) ∷ [] }
    ensures says { (program_map : ProgramMap) → IsWritableMap program_map → IsMapInRange program_map → pmt_length program_map ≤ PACKET_SECTION_BYTES →
        pmt_of (pmt_section program_map) ≡ Some (without_dropped program_map) }
{}

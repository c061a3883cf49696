//! What holds of the versions of programs and of the pieces of PES packets.
ghost use Rattle.std.specs.Prelude.{◌≡◌, ◌≤◌, ◌+◌, ℕ, List, All, length, map, slice_index_or};
ghost use Rattle.bit_lists.specs.Fields.{AreBytes};
ghost use Rattle.pes_units.specs.VideoHeader.{written_pes_header};
ghost use Rattle.pes_units.specs.PesPieces.{pes_pieces};
ghost use Rattle.slot_rule.specs.Queues.{payloads};
ghost use Rattle.ts_demux.specs.declared.demuxed.Demuxed.{Demuxed};
ghost use Rattle.job_report.specs.declared.job.Form.{Form};
ghost use Rattle.program_reader.specs.declared.program.Program.{Program};
ghost use Rattle.program_reader.specs.declared.program.UnitSource.{UnitSource};
ghost use Rattle.program_reader.specs.Programs.{IsProgram, IsProgramOfFile};
ghost use Rattle.program_reader.specs.ReadProgram.{IsReadProgram};
ghost use Rattle.version_maker.specs.declared.version.UnitVersion.{UnitVersion};
ghost use Rattle.version_maker.specs.Versions.{size_of};
ghost use Rattle.version_source.specs.Pieces.{pes_packet};
ghost use Rattle.version_source.specs.Sendable.{IsSendable};
ghost use Rattle.version_source.specs.Versions.{AreAllVersions, chosen_bytes};

/// Programs that can be sent, each with ratios of its own, have versions.
pub fn programs_have_versions()
    ensures { (programs : List Program) (ratios : List (List ℕ)) → length ratios ≡ length programs → All IsSendable programs → All (λ program. AreBytes program.video) programs
        → (versions : List (List (List UnitVersion))) × AreAllVersions programs ratios versions }
{}

/// They are the only ones.
pub fn one_list_of_versions()
    ensures { (programs : List Program) (ratios : List (List ℕ)) (a b : List (List (List UnitVersion))) → AreAllVersions programs ratios a → AreAllVersions programs ratios b → a ≡ b }
{}

/// The pieces of a PES packet are as long as the payloads that the slot rule queues for so many bytes.
pub fn pieces_are_as_queued()
    ensures { (packet : List ℕ) → 1 ≤ length packet → map (λ piece. length piece.bytes) (pes_pieces packet) ≡ payloads (length packet) }
{}

/// A PES packet is as long as its header and the size of its version together.
pub fn packet_has_size_of_version()
    ensures { (unit : UnitSource) (versions : List UnitVersion) (index : ℕ) → length (pes_packet unit (chosen_bytes versions index))
        ≡ length (written_pes_header unit.times) + (slice_index_or (map size_of versions) index (record { bytes = 0; distortion = 0 })).bytes }
{}

/// A program that was read can be sent.
pub fn programs_can_be_sent()
    ensures taken_out { (start : ℕ) (demuxed : Demuxed) (program : Program) → IsProgram start demuxed program → IsSendable program }
    ensures of_file { (form : Form) (file : List ℕ) (number : ℕ) (drop : List ℕ) (start : ℕ) (program : Program) → IsProgramOfFile form file number drop start program → IsSendable program }
    ensures read { (start : ℕ) (program : Program) → IsReadProgram start program → IsSendable program }
{}

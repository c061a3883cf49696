//! What the files of programs hold of what is sent, each a law that is the contract of a function that nobody needs to call.
ghost use Rattle.std.specs.Prelude.{◌≡◌, ℕ, ◌+◌, List, None, Some, map, slice_get};
ghost use Rattle.job_report.specs.declared.job.Form.TheVariants.{Ts};
ghost use Rattle.es_window.specs.declared.held_part.HeldPart.TheVariants.{Packet, Payload};
ghost use Rattle.program_reader.specs.declared.program.AudioSource.{AudioSource};
ghost use Rattle.program_reader.specs.declared.program.Program.{Program};
ghost use Rattle.program_reader.specs.Programs.{IsProgramOfFile};
ghost use Rattle.version_maker.specs.declared.version.UnitVersion.{UnitVersion};
ghost use Rattle.version_source.specs.Pieces.{audio_payload};
ghost use Rattle.version_source.specs.Versions.{AreVideoVersions};
ghost use Rattle.file_pieces.specs.declared.lane.AudioLane.{AudioLane};
ghost use Rattle.file_pieces.specs.declared.lane.VideoLane.{VideoLane};
ghost use Rattle.file_pieces.specs.FileStream.{bytes_of};
ghost use Rattle.file_pieces.specs.Lane.{HoldsAudio, HoldsVideo};
ghost use Rattle.file_pieces.specs.LaneState.{AreVersionsIn};
ghost use Rattle.file_pieces.specs.OfFile.{IsPlannedVideo, IsStreamOf};

use version_source::laws::programs_can_be_sent;

/// The file of a program holds what is sent of its streams: its video, where the sizes of PES packets that are planned are those of its versions, and the pieces of
/// its audio streams.
pub fn files_hold_programs()
    ensures video { (file : List ℕ) (number : ℕ) (drop : List ℕ) (start : ℕ) (program : Program) (lane : VideoLane) → IsProgramOfFile Ts file number drop start program →
        IsStreamOf program 0 Payload lane.stream → IsPlannedVideo program lane → HoldsVideo lane file }
    ensures audio { (file : List ℕ) (number : ℕ) (drop : List ℕ) (start : ℕ) (program : Program) (k : ℕ) (source : AudioSource) (lane : AudioLane) →
        IsProgramOfFile Ts file number drop start program → slice_get program.audios k ≡ Some source → IsStreamOf program (k + 1) Packet lane.stream →
        lane.pieces.now ≡ source.pieces → HoldsAudio lane file }
{
    programs_can_be_sent();
}

/// What is sent of them out of the file is what is sent of the program: the versions of its units are those of the units in the file, and the pieces of an audio
/// stream carry the same bytes.
pub fn files_send_programs()
    ensures video { (file : List ℕ) (number : ℕ) (drop : List ℕ) (start : ℕ) (program : Program) (lane : VideoLane) (versions : List (List UnitVersion)) →
        IsProgramOfFile Ts file number drop start program → IsStreamOf program 0 Payload lane.stream → lane.units.now ≡ program.units →
        AreVideoVersions program.video lane.coarser.now None program.units versions → AreVersionsIn lane file versions }
    ensures audio { (file : List ℕ) (number : ℕ) (drop : List ℕ) (start : ℕ) (program : Program) (k : ℕ) (source : AudioSource) (lane : AudioLane) →
        IsProgramOfFile Ts file number drop start program → slice_get program.audios k ≡ Some source → IsStreamOf program (k + 1) Packet lane.stream →
        lane.pieces.now ≡ source.pieces → map (audio_payload (bytes_of lane.stream file)) lane.pieces.now ≡ map (audio_payload source.bytes) source.pieces }
{
    programs_can_be_sent();
}

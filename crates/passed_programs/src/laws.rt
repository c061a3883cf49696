//! What a program that was read as its file passed is to those who read files whole, each a law that is the contract of a function that nobody needs to call.
ghost use Rattle.std.specs.Prelude.{◌≡◌, ℕ, ◌≤◌, List, None, length, map};
ghost use Rattle.std.specs.List.{AllZip};
ghost use Rattle.psi_tables.specs.Pmt.{pids_of};
ghost use Rattle.ts_demux.specs.declared.demuxed.Demuxed.{Demuxed};
ghost use Rattle.ts_demux.specs.Demux.{IsDemuxed};
ghost use Rattle.job_report.specs.declared.job.Form.TheVariants.{Ts};
ghost use Rattle.elementary_streams.specs.declared.audio_stream.ReadStream.{ReadStream};
ghost use Rattle.elementary_streams.specs.Audio.{IsStreamRead};
ghost use Rattle.program_reader.specs.declared.limits.TheConstants.{FILE_BYTES_MOST, UNITS_MOST};
ghost use Rattle.program_reader.specs.declared.unit_sizes.SizesWanted.{SizesWanted};
ghost use Rattle.program_reader.specs.declared.unit_sizes.UnitSizes.{UnitSizes};
ghost use Rattle.program_reader.specs.declared.video_walk.WalkedVideo.{WalkedVideo};
ghost use Rattle.program_reader.specs.KeptUnits.{kept_at};
ghost use Rattle.program_reader.specs.Programs.{HasFewPackets, IsProgramOfFile, video_bytes};
ghost use Rattle.program_reader.specs.Sizes.{AreProgramSizes, AreUnitSizes, stands_at};
ghost use Rattle.passed_programs.specs.PassedVideo.{IsVideoRead};
ghost use Rattle.passed_programs.specs.declared.due_program.FoundMap.{FoundMap};
ghost use Rattle.passed_programs.specs.declared.passed_program.PassedProgram.{PassedProgram};
ghost use Rattle.passed_programs.specs.PassedProgram.{AreRead, IsPassed};

/// Where `demux` takes a program out of a file, with few PES packets in each stream, and the file's passes read its video and each of its audio streams, and no more
/// units than a program may have, all of it is read.
pub fn as_read()
    ensures { (file : List ℕ) (number : ℕ) (drop : List ℕ) (demuxed : Demuxed) (found : FoundMap) (wanted : SizesWanted) (video : WalkedVideo) (streams : List ReadStream) →
        IsDemuxed file number drop demuxed → HasFewPackets demuxed → IsVideoRead file (pids_of demuxed.map) wanted video →
        AllZip (IsStreamRead video.first.stated) demuxed.audios streams → length video.units.items ≤ UNITS_MOST → demuxed.map ≡ found.map → demuxed.rest ≡ found.rest →
        demuxed.not_carried ≡ found.not_carried → AreRead demuxed found video streams }
{
    elementary_streams::laws::within_file();
    crate::video_laws::as_demuxed();
}

/// The program without its bytes is that of the file, and has the sizes that its video's units have, where they stand in the same places.
pub fn of_file()
    ensures program { (file : List ℕ) (number : ℕ) (drop : List ℕ) (start : ℕ) (demuxed : Demuxed) (passed : PassedProgram) → length file ≤ FILE_BYTES_MOST →
        IsDemuxed file number drop demuxed → HasFewPackets demuxed → (is : IsPassed start demuxed passed) → IsProgramOfFile Ts file number drop start is.program }
    ensures sizes { (start : ℕ) (demuxed : Demuxed) (passed : PassedProgram) (video : WalkedVideo) (coarser : List ℕ) (sizes : List UnitSizes) →
        map stands_at passed.units ≡ map kept_at video.units.items → AreUnitSizes (video_bytes demuxed) coarser None (map kept_at video.units.items) sizes →
        (is : IsPassed start demuxed passed) → AreProgramSizes is.program coarser sizes }
{}

//! What a video that was read as its file passed is to those who read files whole, each a law that is the contract of a function that nobody needs to call.
ghost use Rattle.std.specs.Prelude.{◌≡◌, ◌⊎◌, ℕ, ◌+◌, ◌≤◌, true, List, length, map, slice_get, All, Option, None, Some};
ghost use Rattle.stream_constants.specs.declared.limits.TheConstants.{AUDIOS_MOST};
ghost use Rattle.psi_tables.specs.declared.pmt.TheConstants.{PACKET_SECTION_BYTES};
ghost use Rattle.psi_tables.specs.declared.program_map.ProgramMap.{ProgramMap};
ghost use Rattle.psi_tables.specs.Pmt.{pids_of, pmt_length};
ghost use Rattle.ts_demux.specs.declared.demux_fault.DemuxFault.{DemuxFault};
ghost use Rattle.ts_demux.specs.declared.demuxed.Demuxed.{Demuxed};
ghost use Rattle.ts_demux.specs.declared.demuxed.PesUnit.{PesUnit};
ghost use Rattle.ts_demux.specs.declared.pass_fault.PassFault.TheVariants as passes;
ghost use Rattle.ts_demux.specs.Demux.{AreStreamsSound, HasCarriedMap, IsDemuxed, IsFirstStreamFault};
ghost use Rattle.ts_demux.specs.Faults.{IsMemory};
ghost use Rattle.ts_demux.specs.Pass.{IsWhole};
ghost use Rattle.program_stream.specs.declared.split_fault.SplitFault.{SplitFault};
ghost use Rattle.program_stream.specs.Split.{IsSplit};
ghost use Rattle.job_report.specs.declared.job.Form.TheVariants.{Ps, Ts};
ghost use Rattle.elementary_streams.specs.NearTimes.{IsNear, IsTime};
ghost use Rattle.program_reader.specs.declared.limits.TheConstants.{FILE_BYTES_MOST, PES_PACKETS_MOST};
ghost use Rattle.program_reader.specs.declared.program_fault.ProgramFault.{ProgramFault};
ghost use Rattle.program_reader.specs.declared.program_fault.ProgramFault.TheVariants.{OutOfMemory, Refused};
ghost use Rattle.program_reader.specs.declared.program_fault.SourceKind.TheVariants as kinds;
ghost use Rattle.program_reader.specs.declared.unit_sizes.SizesWanted.{SizesWanted};
ghost use Rattle.program_reader.specs.declared.video_walk.WalkedVideo.{WalkedVideo};
ghost use Rattle.program_reader.specs.AudioTypes.{typed};
ghost use Rattle.program_reader.specs.Faults.{of_demux, of_split};
ghost use Rattle.program_reader.specs.KeptUnits.{kept_at};
ghost use Rattle.program_reader.specs.Programs.{IsProgramRefused, video_bytes};
ghost use Rattle.program_reader.specs.Sizes.{AreUnitSizes};
ghost use Rattle.program_reader.specs.VideoWalk.{AreFew, IsVideoWalked};
ghost use Rattle.stream_pass.specs.PassedElements.{AreElementsRefused, IsOfId, IsOverIdLimit};
ghost use Rattle.passed_programs.specs.declared.read_fault.ReadFault.TheVariants as faults;
ghost use Rattle.passed_programs.specs.PassedVideo.{HasVideo, IsReadRefused, IsVideoRead, IsVideoRefused};
ghost use Rattle.passed_programs.specs.VideoPackets.{ReadsVideo, RefusesVideo};

/// Where the source told its file, what `read_video` says of all that was read, or of every file that begins with it, is said of that file.
pub fn of_told_file()
    ensures video { (file : List ℕ) (after : Option (List ℕ)) (most most_after : ℕ) (held pids : List ℕ) (wanted : SizesWanted) (video : WalkedVideo) →
        IsWhole (Some file) after most most_after held (λ whole. IsVideoRead whole pids wanted video) → IsVideoRead file pids wanted video }
    ensures packets { (file : List ℕ) (after : Option (List ℕ)) (most most_after : ℕ) (held pids : List ℕ) (fault : DemuxFault) →
        IsReadRefused (Some file) after most most_after held pids (faults.Passing (passes.Refused fault)) → IsMemory fault ⊎ IsFirstStreamFault file pids fault }
    ensures refused { (file : List ℕ) (after : Option (List ℕ)) (most most_after : ℕ) (held pids : List ℕ) (fault : ProgramFault) →
        IsReadRefused (Some file) after most most_after held pids (faults.Refused fault) → (fault ≡ OutOfMemory) ⊎ IsVideoRefused file pids fault }
{}

/// Where the map of a program's carried streams is read and no packet on their PIDs is refused, `demux` takes the program out of the file; and the video that was
/// read on these PIDs is that of the program, with the sizes of its units' versions where they are wanted.
pub fn as_demuxed()
    ensures some { (file : List ℕ) (number : ℕ) (drop : List ℕ) (carried_map : ProgramMap) (others : List ℕ) → HasCarriedMap file number drop carried_map others →
        length carried_map.streams.items ≤ 1 + AUDIOS_MOST → pmt_length carried_map ≤ PACKET_SECTION_BYTES → AreStreamsSound file (pids_of carried_map) →
        (demuxed : Demuxed) × IsDemuxed file number drop demuxed × (demuxed.map ≡ carried_map) × (demuxed.not_carried ≡ others) }
    ensures packets { (file : List ℕ) (number : ℕ) (drop : List ℕ) (demuxed : Demuxed) (packets : List PesUnit) → IsDemuxed file number drop demuxed →
        HasVideo file (pids_of demuxed.map) packets → demuxed.video ≡ packets }
    ensures video { (file : List ℕ) (number : ℕ) (drop : List ℕ) (demuxed : Demuxed) (wanted : SizesWanted) (video : WalkedVideo) → IsDemuxed file number drop demuxed →
        IsVideoRead file (pids_of demuxed.map) wanted video → IsVideoWalked demuxed video }
    ensures sizes { (file : List ℕ) (number : ℕ) (drop : List ℕ) (demuxed : Demuxed) (wanted : SizesWanted) (video : WalkedVideo) → IsDemuxed file number drop demuxed →
        IsVideoRead file (pids_of demuxed.map) wanted video → wanted.are_wanted ≡ true →
        AreUnitSizes (video_bytes demuxed) wanted.coarser.now None (map kept_at video.units.items) video.sizes.items }
    ensures few { (file : List ℕ) (number : ℕ) (drop : List ℕ) (demuxed : Demuxed) (wanted : SizesWanted) (video : WalkedVideo) → IsDemuxed file number drop demuxed →
        IsVideoRead file (pids_of demuxed.map) wanted video → (length file ≤ FILE_BYTES_MOST) × (length demuxed.video ≤ PES_PACKETS_MOST) }
{}

/// What refuses a video is what refuses the program of its file, once the map of the program's carried streams is read: the first transport packet that is refused; or
/// else, where no audio stream of the program has more PES packets than it may have, what the video is refused for.
pub fn as_refused()
    ensures packets { (file : List ℕ) (number : ℕ) (drop : List ℕ) (carried_map : ProgramMap) (others : List ℕ) (fault : DemuxFault) → length file ≤ FILE_BYTES_MOST →
        HasCarriedMap file number drop carried_map others → length carried_map.streams.items ≤ 1 + AUDIOS_MOST → pmt_length carried_map ≤ PACKET_SECTION_BYTES →
        IsFirstStreamFault file (pids_of carried_map) fault → IsProgramRefused Ts file number drop (of_demux fault) }
    ensures video { (file : List ℕ) (number : ℕ) (drop : List ℕ) (carried_map : ProgramMap) (others : List ℕ) (fault : ProgramFault) →
        HasCarriedMap file number drop carried_map others → length carried_map.streams.items ≤ 1 + AUDIOS_MOST → pmt_length carried_map ≤ PACKET_SECTION_BYTES →
        ((demuxed : Demuxed) → IsDemuxed file number drop demuxed → All (λ stream. length stream.units ≤ PES_PACKETS_MOST) demuxed.audios) →
        IsVideoRefused file (pids_of carried_map) fault → IsProgramRefused Ts file number drop fault }
{}

/// Where `split` takes a program out of a program stream, the video that was read of the first id of its map is that of the program, with the sizes of its units'
/// versions where they are wanted; the map with the types of its audio streams changes nothing of it.
pub fn as_split()
    ensures video { (file drop : List ℕ) (found : Demuxed) (cut id : ℕ) (wanted : SizesWanted) (video : WalkedVideo) → IsSplit file drop found cut →
        slice_get (pids_of found.map) 0 ≡ Some id → IsOfId file id (ReadsVideo wanted) video → IsVideoWalked found video × IsVideoWalked (typed Ps found) video }
    ensures sizes { (file drop : List ℕ) (found : Demuxed) (cut id : ℕ) (wanted : SizesWanted) (video : WalkedVideo) → IsSplit file drop found cut →
        slice_get (pids_of found.map) 0 ≡ Some id → IsOfId file id (ReadsVideo wanted) video → wanted.are_wanted ≡ true →
        AreUnitSizes (video_bytes found) wanted.coarser.now None (map kept_at video.units.items) video.sizes.items }
    ensures few { (file drop : List ℕ) (found : Demuxed) (cut id : ℕ) (wanted : SizesWanted) (video : WalkedVideo) → IsSplit file drop found cut →
        slice_get (pids_of found.map) 0 ≡ Some id → IsOfId file id (ReadsVideo wanted) video → (length file ≤ FILE_BYTES_MOST) × (length found.video ≤ PES_PACKETS_MOST) }
{}

/// What refuses a pass over a program stream is what refuses the program of its file: the first refusal up to its elements; or else, where `split` takes a program out
/// of the file, that a limit is passed; or else, where no audio stream of the program has more PES packets than it may have, what the video is refused for.
pub fn as_split_refused()
    ensures elements { (file drop : List ℕ) (fault : SplitFault) → length file ≤ FILE_BYTES_MOST → AreElementsRefused file fault → IsProgramRefused Ps file 1 drop (of_split fault) }
    ensures limit { (file drop : List ℕ) (found : Demuxed) (cut id : ℕ) → IsSplit file drop found cut → slice_get (pids_of found.map) 0 ≡ Some id → IsOverIdLimit file id →
        IsProgramRefused Ps file 1 drop (Refused kinds.ProgramLimit 0) }
    ensures video { (file drop : List ℕ) (found : Demuxed) (cut id : ℕ) (fault : ProgramFault) → IsSplit file drop found cut → slice_get (pids_of found.map) 0 ≡ Some id →
        All (λ stream. length stream.units ≤ PES_PACKETS_MOST) found.audios → IsOfId file id RefusesVideo fault → IsProgramRefused Ps file 1 drop fault }
{}

/// The times of a video: the first picture's stated time is no farther from 0 than a round of the clock, and the ticks of all units are far from the ends of 64 bits.
/// This is what audio streams and due times ask of them.
pub fn near_times()
    ensures walked { (demuxed : Demuxed) (video : WalkedVideo) → AreFew demuxed.video → IsVideoWalked demuxed video →
        IsNear 0 video.first.stated × All (λ unit. IsTime unit.ticks) video.units.items }
    ensures read { (file pids : List ℕ) (wanted : SizesWanted) (video : WalkedVideo) → IsVideoRead file pids wanted video →
        IsNear 0 video.first.stated × All (λ unit. IsTime unit.ticks) video.units.items }
{}

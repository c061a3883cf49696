//! Laws of the definitions, each the contract of a function that nobody needs to call.
ghost use Rattle.std.specs.Prelude.{◌≡◌, ◌≢◌, ◌≤◌, ◌⊎◌, ◌++◌, ℕ, List, length, All};
ghost use Rattle.std.specs.List.{sum_by};
ghost use Rattle.stream_constants.specs.declared.limits.TheConstants.{AUDIOS_MOST};
ghost use Rattle.ts_demux.specs.declared.demux_fault.DemuxFault.{DemuxFault};
ghost use Rattle.ts_demux.specs.declared.demux_fault.DemuxFault.TheVariants as demux_faults;
ghost use Rattle.ts_demux.specs.declared.demuxed.Demuxed.{Demuxed};
ghost use Rattle.ts_demux.specs.Demux.{IsDemuxed, IsDemuxRefused};
ghost use Rattle.program_stream.specs.declared.split_fault.SplitFault.{SplitFault};
ghost use Rattle.program_stream.specs.declared.split_fault.SplitFault.TheVariants.{OutOfMemory};
ghost use Rattle.program_stream.specs.Elements.{IsFirstRefusal};
ghost use Rattle.program_stream.specs.Split.{IsSplit, IsSplitRefused};
ghost use Rattle.program_stream.specs.Forms.{IsInProgramStream, IsInTransportStream, CarriesBytes};

use crate::found_elements::find_elements;
use pes_units::laws::gathered_again;

/// A file and the ids that are to be dropped have one answer: what is taken out is one thing, the refusal is one fault, and never both
/// stand; but for want of memory, which may be said of every file.
pub fn one_answer()
    ensures split { (file drop : List ℕ) (one other : Demuxed) (cut other_cut : ℕ) → IsSplit file drop one cut → IsSplit file drop other other_cut →
        (one ≡ other) × (cut ≡ other_cut) }
    ensures refused { (file drop : List ℕ) (one other : SplitFault) → one ≢ OutOfMemory → other ≢ OutOfMemory →
        IsSplitRefused file drop one → IsSplitRefused file drop other → one ≡ other }
    ensures never_both { (file drop : List ℕ) (demuxed : Demuxed) (cut : ℕ) (fault : SplitFault) →
        IsSplit file drop demuxed cut → IsSplitRefused file drop fault → fault ≡ OutOfMemory }
{}

/// Every file in memory has an answer: something is taken out of it, or a refusal stands that isn't want of memory. Its elements are
/// found by reading them; the rest is counted out over the definitions.
pub fn some_answer(file: &[u8], drop: &[u16])
    ensures { ((demuxed : Demuxed) × (cut : ℕ) × IsSplit file.now drop.now demuxed cut)
        ⊎ ((fault : SplitFault) × (fault ≢ OutOfMemory) × IsSplitRefused file.now drop.now fault) }
{
    let _elements = find_elements(file);
}

/// What refuses the elements of a file's first bytes refuses the file, whatever follows: so a reader of a source may stop there.
pub fn refused_early()
    ensures { (front more : List ℕ) (fault : SplitFault) → IsFirstRefusal front fault → IsFirstRefusal (front ++ more) fault }
{}

/// Of what is taken out of a file no stream has more bytes than the file, there are no more audio streams than a program may have, and at
/// most one element is cut.
pub fn within_file()
    ensures video { (file drop : List ℕ) (demuxed : Demuxed) (cut : ℕ) → IsSplit file drop demuxed cut →
        sum_by (λ packet. length packet.bytes) demuxed.video ≤ length file }
    ensures audios { (file drop : List ℕ) (demuxed : Demuxed) (cut : ℕ) → IsSplit file drop demuxed cut →
        All (λ stream. sum_by (λ packet. length packet.bytes) stream.units ≤ length file) demuxed.audios }
    ensures few_audios { (file drop : List ℕ) (demuxed : Demuxed) (cut : ℕ) → IsSplit file drop demuxed cut → length demuxed.audios ≤ AUDIOS_MOST }
    ensures cut { (file drop : List ℕ) (demuxed : Demuxed) (cut : ℕ) → IsSplit file drop demuxed cut → cut ≤ 1 }
{}

/// The same PES packets of a video and an audio stream, put into a program stream and into a transport stream, are taken out of both
/// byte for byte, and neither file is refused.
pub fn same_packets()
    ensures program_stream { (file drop : List ℕ) (video audio : List (List ℕ)) → IsInProgramStream file drop video audio →
        ((demuxed : Demuxed) × (cut : ℕ) × IsSplit file drop demuxed cut × CarriesBytes demuxed video audio)
        × ((fault : SplitFault) → IsSplitRefused file drop fault → fault ≡ OutOfMemory) }
    ensures transport_stream { (file : List ℕ) (program : ℕ) (drop : List ℕ) (video audio : List (List ℕ)) → IsInTransportStream file program drop video audio →
        ((demuxed : Demuxed) × IsDemuxed file program drop demuxed × CarriesBytes demuxed video audio)
        × ((fault : DemuxFault) → IsDemuxRefused file program drop fault → fault ≡ demux_faults.OutOfMemory) }
{
    gathered_again();
    ts_demux::laws::one_answer();
}

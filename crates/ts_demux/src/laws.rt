//! Laws of the definitions, each the contract of a function that nobody needs to call.
ghost use Rattle.std.specs.Prelude.{◌≡◌, ◌≢◌, ◌⊎◌, ℕ, List, [], ◌++◌, Option, Some};
ghost use Rattle.psi_tables.specs.declared.program_map.ProgramMap.{ProgramMap};
ghost use Rattle.psi_tables.specs.Pmt.{pids_of};
ghost use Rattle.ts_demux.specs.declared.demux_fault.DemuxFault.{DemuxFault};
ghost use Rattle.ts_demux.specs.declared.demux_fault.DemuxFault.TheVariants.{OutOfMemory};
ghost use Rattle.ts_demux.specs.declared.demuxed.Demuxed.{Demuxed};
ghost use Rattle.ts_demux.specs.CarriedPackets.{AreDistinct};
ghost use Rattle.ts_demux.specs.Demux.{IsCarriedMap, IsDemuxed, IsDemuxRefused};
ghost use Rattle.ts_demux.specs.PacketBuffer.{Passes, IsAtEnd};

use crate::placed_map::find_map;

/// A file, a program and the PIDs that are to be dropped have one answer: what is taken out is one thing, the refusal is one
/// fault, and never both stand; but for want of memory, which may be said of every file.
pub fn one_answer()
    ensures demuxed { (file : List ℕ) (program : ℕ) (drop : List ℕ) (one other : Demuxed) →
        IsDemuxed file program drop one → IsDemuxed file program drop other → one ≡ other }
    ensures refused { (file : List ℕ) (program : ℕ) (drop : List ℕ) (one other : DemuxFault) → one ≢ OutOfMemory → other ≢ OutOfMemory →
        IsDemuxRefused file program drop one → IsDemuxRefused file program drop other → one ≡ other }
    ensures never_both { (file : List ℕ) (program : ℕ) (drop : List ℕ) (demuxed : Demuxed) (fault : DemuxFault) →
        IsDemuxed file program drop demuxed → IsDemuxRefused file program drop fault → fault ≡ OutOfMemory }
{}

/// The PIDs of a map's carried streams differ, so that `CarriedPackets` can read them.
pub fn carried_pids_differ()
    ensures { (drop : List ℕ) (whole carried_map : ProgramMap) (others : List ℕ) → IsCarriedMap drop whole carried_map others → AreDistinct (pids_of carried_map) }
{}

/// Where a source told its bytes, the packets that were passed are their front, and all that was read is all of them at
/// its end: so what a pass says of the file that was read it says of these bytes.
pub fn read_as_told()
    ensures front { (file : List ℕ) (after : Option (List ℕ)) (most most_after : ℕ) (seen held : List ℕ) → Passes (Some file) after most most_after [] seen held →
        (more : List ℕ) × (seen ++ more ≡ file) }
    ensures whole { (file : List ℕ) (after : Option (List ℕ)) (most most_after : ℕ) (seen held : List ℕ) → Passes (Some file) after most most_after [] seen held →
        IsAtEnd after → seen ++ held ≡ file }
{}

/// Every file in memory has an answer: something is taken out of it, or a refusal stands that isn't want of memory. Where its
/// tables end is found by reading them; the rest is counted out over the definitions.
pub fn some_answer(file: &[u8], program: u16, drop: &[u16])
    ensures { ((demuxed : Demuxed) × IsDemuxed file.now program drop.now demuxed)
        ⊎ ((fault : DemuxFault) × (fault ≢ OutOfMemory) × IsDemuxRefused file.now program drop.now fault) }
{
    let _tables = find_map(file, program);
}

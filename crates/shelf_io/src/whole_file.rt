ghost use Rattle.std.specs.Prelude.{◌≡◌, ◌+◌, ◌<◌, ◌≤◌, length, take, vec_len, IfOk, OnOk, OnErr, IsErrOf};
ghost use Rattle.shelf_io.specs.Asked.{AsksUpTo, AsksNothing};
ghost use Rattle.shelf_io.specs.Causes.{ReadCauses, WriteCauses};
ghost use Rattle.shelf_io.specs.Files.{IfTold, Lacks, with_content};
ghost use Rattle.shelf_io.specs.Source.{source_bytes_most};
ghost use Rattle.shelf_io.specs.Private.WholeFile.{AddsNext};
ghost use Rattle.shelf_io.specs.WholeFile.{HoldsPrefix};

use crate::fault::Fault;
use crate::shelf::Shelf;
use crate::sink::put_all;
use crate::writing::Writing;
use list_types::ListOf;
use std::alloc::Global;

/// How many bytes are asked for at once.
pub const PIECE_BYTES: usize = 65_536;

/// Reads a file from its start up to one byte past a limit: all of a file that is no longer, and else its first
/// `limit + 1` bytes. It asks for no byte behind these, and each turn but the last takes at least one.
pub fn read_file<K: Shelf>(
    alloc: Global,
    shelf: &mut K,
    name: &str,
    limit: u64,
) -> Result<ListOf<u8>, Fault>
    requires { limit < source_bytes_most }

    ensures length { IfOk result (λ bytes. length bytes ≤ limit + 1) }
    ensures told { IfOk result (λ bytes. IfTold (K.files shelf.old) name.now (λ content. bytes ≡ take (limit + 1) content)) }
    ensures files { K.files shelf.new ≡ K.files shelf.old }

    ensures lacking { IsErrOf result Fault.Missing → Lacks (K.files shelf.old) name.now }
    ensures asked { AsksUpTo name.now (limit + 1) (K.asked shelf.old) (K.asked shelf.new) }

    ensures causes { ReadCauses (IsErrOf result Fault.Failed) (IsErrOf result Fault.Missing) (K.counts shelf.old) (K.counts shelf.new) }
    ensures failed_last { IsErrOf result Fault.Failed → K.since_fault shelf.new ≡ 0 }
    ensures missing_last { IsErrOf result Fault.Missing → K.since_fault shelf.new ≡ 0 }
{
    let most = limit as usize + 1;
    let mut room = [0u8; PIECE_BYTES];
    let mut bytes = Vec::new(alloc);
    let mut count = read_more(shelf, name, most, &mut room, &mut bytes)?;
    while count > 0 && bytes.len() < most {
        count = read_more(shelf, name, most, &mut room, &mut bytes)?;
    }
    Ok(ListOf::from_vec(bytes))
}

/// Adds the bytes of a file that come next behind those in `bytes`, up to `most` in all, and answers how many.
fn read_more<K: Shelf>(
    shelf: &mut K,
    name: &str,
    most: usize,
    room: &mut [u8],
    bytes: &mut Vec<u8>,
) -> Result<usize, Fault>
    requires room { 0 < length room.old }
    requires more { vec_len bytes.old < most }

    ensures length { IfOk result (λ n. vec_len bytes.new ≡ vec_len bytes.old + n) }
    ensures within { OnOk result (vec_len bytes.new ≤ most) }
    ensures told { IfOk result (λ n. IfTold (K.files shelf.old) name.now (AddsNext bytes.old.items bytes.new.items n)) }
    ensures files { K.files shelf.new ≡ K.files shelf.old }

    ensures lacking { IsErrOf result Fault.Missing → Lacks (K.files shelf.old) name.now }
    ensures asked { AsksUpTo name.now (most) (K.asked shelf.old) (K.asked shelf.new) }

    ensures causes { ReadCauses (IsErrOf result Fault.Failed) (IsErrOf result Fault.Missing) (K.counts shelf.old) (K.counts shelf.new) }
    ensures failed_last { IsErrOf result Fault.Failed → K.since_fault shelf.new ≡ 0 }
    ensures missing_last { IsErrOf result Fault.Missing → K.since_fault shelf.new ≡ 0 }
{
    let asked = room.len().min(most - bytes.len());
    let piece = &mut room[..asked];
    let count = shelf.read(name, bytes.len() as u64, piece)?;
    bytes.extend_from_slice(&piece[..count])?;
    Ok(count)
}

/// Makes these bytes the content of a file. After a fault the file holds what it held before, or a prefix of them.
pub fn write_file<K: Shelf>(shelf: &mut K, name: &str, bytes: &[u8]) -> Result<(), Fault>
    ensures ok { OnOk result (K.files shelf.new ≡ with_content (K.files shelf.old) name.now bytes.now) }
    ensures err { OnErr result (HoldsPrefix (K.files shelf.old) (K.files shelf.new) name.now bytes.now) }

    ensures asked { AsksNothing (K.asked shelf.old) (K.asked shelf.new) }

    ensures causes { WriteCauses (IsErrOf result Fault.Failed) (IsErrOf result Fault.Missing) (K.counts shelf.old) (K.counts shelf.new) }
    ensures fault_last { OnErr result (K.since_fault shelf.new ≡ 0) }
{
    shelf.start(name)?;
    put_all(&mut Writing::new(shelf, name), bytes)
}

ghost use Rattle.std.specs.Prelude.{◌≡◌, ℕ, Option, List, length, take, ◌*◌, ◌^◌, ◌<◌, ◌≤◌, slice_get, is_some, if◌then◌else◌, IfOk, OnErr, IfSome, IsErrOf};
ghost use Rattle.std.specs.Int.{bytes_high_first};
ghost use Rattle.shelf_io.specs.Buffer.{CopiesFront};
ghost use Rattle.shelf_io.specs.Causes.{SourceCauses};
ghost use Rattle.shelf_io.specs.Source.{Takes, FillsUp, source_bytes_most};

use crate::fault::Fault;

/// A source gives at most these bytes, so that each loop over one ends: a file is read up to them.
pub const SOURCE_BYTES_MOST: u64 = 1 << 60;

/// Gives bytes in order, and ends. A call that answers a fault takes nothing.
pub trait Source {
    /// The bytes that are left, where it tells them.
    ghost left: { Self → Option (List ℕ) };

    /// No more bytes than these are left, so that every loop over a source ends.
    ghost most: { Self → ℕ };

    /// How many calls have failed.
    ghost faults: { Self → ℕ };

    /// How many calls met something that isn't held.
    ghost absences: { Self → ℕ };

    /// A later state keeps what no call of `take` changes: what it borrows, and what that holds.
    ghost keeps: { Self → Self → Type 0 };

    /// Takes bytes from the front of what is left into the front of `buf`, and answers how many. It answers 0 for
    /// a buffer that isn't empty only at the end.
    fn take(&mut self, buf: &mut [u8]) -> Result<usize, Fault>
        ensures count { IfOk result (λ n. n ≤ length buf.old) }
        ensures told { IfOk result (λ n. IfSome (left self.old) (λ bytes. CopiesFront bytes buf.old buf.new n)) }
        ensures kept { OnErr result (buf.new ≡ buf.old) }
        ensures ok { IfOk result (Takes (left self.old) (left self.new) (most self.old) (most self.new)) }
        ensures err { OnErr result ((left self.new ≡ left self.old) × (most self.new ≡ most self.old)) }

        ensures within { IfSome (left self.old) (λ bytes. length bytes ≤ most self.old) }

        ensures causes { SourceCauses faults absences (IsErrOf result Fault.Failed) (IsErrOf result Fault.Missing) self.old self.new }
        ensures keeps { keeps self.old self.new };

    /// Takes one byte, or answers None at the end.
    fn take_byte(&mut self) -> Result<Option<u8>, Fault>
        ensures told { IfOk result (λ byte. IfSome (left self.old) (λ bytes. byte ≡ slice_get bytes 0)) }
        ensures ok { IfOk result (λ byte. Takes (left self.old) (left self.new) (most self.old) (most self.new)
            (if is_some byte then 1 else 0)) }
        ensures err { OnErr result ((left self.new ≡ left self.old) × (most self.new ≡ most self.old)) }

        ensures causes { SourceCauses faults absences (IsErrOf result Fault.Failed) (IsErrOf result Fault.Missing) self.old self.new }
        ensures keeps { keeps self.old self.new }
    {
        let mut byte = [0u8];
        let count = self.take(&mut byte)?;
        Ok(if count == 0 { None } else { Some(byte[0]) })
    }

    /// Takes `count` bytes at once, 1 to 4, as a number, the first byte the most significant, where the source gives so
    /// many at once. Else it answers None and takes nothing; bytes may be left then.
    fn take_number(&mut self, count: u32) -> Result<Option<u32>, Fault>
        requires some { 1 ≤ count }
        requires few { count ≤ 4 }
        ensures told { IfOk result (λ taken. IfSome taken (λ number. IfSome (left self.old) (λ bytes. bytes_high_first count number ≡ take count bytes))) }
        ensures below { IfOk result (λ taken. IfSome taken (λ number. number < 2 ^ (8 * count))) }
        ensures ok { IfOk result (λ taken. Takes (left self.old) (left self.new) (most self.old) (most self.new)
            (if is_some taken then count else 0)) }
        ensures err { OnErr result ((left self.new ≡ left self.old) × (most self.new ≡ most self.old)) }

        ensures causes { SourceCauses faults absences (IsErrOf result Fault.Failed) (IsErrOf result Fault.Missing) self.old self.new }
        ensures keeps { keeps self.old self.new }
    {
        let _ = count;
        Ok(None)
    }

    ghost most_fits: { (source : Self) → most source ≤ source_bytes_most };

    ghost keeps_itself: { (source : Self) → keeps source source };

    ghost keeps_on: { (first second third : Self) → keeps first second → keeps second third → keeps first third };
}

/// Fills a buffer up to its end or the source's, and answers how many bytes it got. After a fault what was taken
/// is lost.
pub fn take_full<S: Source>(source: &mut S, buf: &mut [u8]) -> Result<usize, Fault>
    ensures count { IfOk result (λ n. n ≤ length buf.old) }
    ensures told { IfOk result (λ n. IfSome (S.left source.old) (λ bytes. FillsUp bytes buf.old buf.new n)) }
    ensures ok { IfOk result (Takes (S.left source.old) (S.left source.new) (S.most source.old) (S.most source.new)) }
    ensures err { OnErr result ((n : ℕ) × Takes (S.left source.old) (S.left source.new) (S.most source.old) (S.most source.new) n) }

    ensures causes { SourceCauses S.faults S.absences (IsErrOf result Fault.Failed) (IsErrOf result Fault.Missing) source.old source.new }
    ensures keeps { S.keeps source.old source.new }
{
    let mut done = 0;
    while done < buf.len() {
        let count = source.take(&mut buf[done..])?;
        if count == 0 {
            break;
        }
        done += count;
    }
    Ok(done)
}

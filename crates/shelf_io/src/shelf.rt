ghost use Rattle.std.specs.Prelude.{◌≡◌, ℕ, Option, [], List, length, drop, take, ◌+◌, ◌<◌, ◌≤◌, IfOk, OnOk, OnErr, IsErrOf};
ghost use Rattle.shelf_io.specs.Asked.{AsksUpTo, AsksNothing};
ghost use Rattle.shelf_io.specs.Causes.{ReadCauses, WriteCauses};
ghost use Rattle.shelf_io.specs.Counts.{ShelfCounts, with_fault};
ghost use Rattle.shelf_io.specs.Files.{Files, IfTold, Lacks, with_content, with_more, where_untold};
ghost use Rattle.shelf_io.specs.Buffer.{CopiesFront};

use crate::fault::Fault;

/// Files under names, as a folder has them. A call that answers a fault leaves every file as it was.
pub trait Shelf {
    /// The files that it holds, where it tells them: those in memory do, a folder of real files doesn't.
    ghost files: { Self → Option Files };

    /// How many reads have failed, by their own answer or by `distrust`, how many calls of `start` and `append`, and how many
    /// of `read` met a name that isn't held.
    ghost counts: { Self → ShelfCounts };

    /// The farthest place of each file that a call of `read` asked for, where it keeps count of them.
    ghost asked: { Self → List ℕ → ℕ } = { λ _ _. 0 };

    /// How many calls came after the last one that answered or counted a fault, where it keeps count of them.
    ghost since_fault: { Self → ℕ } = { λ _. 0 };

    /// Reads bytes of a file from place `at` on into the front of `buf`, and answers how many. It answers 0 for
    /// a buffer that isn't empty only at or past the file's end.
    fn read(&mut self, name: &str, at: u64, buf: &mut [u8]) -> Result<usize, Fault>
        ensures count { IfOk result (λ n. n ≤ length buf.old) }
        ensures held { IfOk result (λ n. IfTold (files self.old) name.now (λ content. CopiesFront (drop at content) buf.old buf.new n)) }
        ensures kept { OnErr result (buf.new ≡ buf.old) }
        ensures files { files self.new ≡ files self.old }

        ensures lacking { IsErrOf result Fault.Missing → Lacks (files self.old) name.now }
        ensures asked { AsksUpTo name.now (at + length buf.old) (asked self.old) (asked self.new) }

        ensures causes { ReadCauses (IsErrOf result Fault.Failed) (IsErrOf result Fault.Missing) (counts self.old) (counts self.new) }
        ensures fault_last { OnErr result (since_fault self.new ≡ 0) };

    /// Makes a file empty, also one that isn't held yet.
    fn start(&mut self, name: &str) -> Result<(), Fault>
        ensures ok { OnOk result (files self.new ≡ with_content (files self.old) name.now []) }
        ensures err { OnErr result (files self.new ≡ files self.old) }

        ensures asked { AsksNothing (asked self.old) (asked self.new) }

        ensures causes { WriteCauses (IsErrOf result Fault.Failed) (IsErrOf result Fault.Missing) (counts self.old) (counts self.new) }
        ensures fault_last { OnErr result (since_fault self.new ≡ 0) };

    /// Adds bytes from the front of a piece to the end of a file, and answers how many. A file that isn't held
    /// counts as empty. It answers 0 only for an empty piece.
    fn append(&mut self, name: &str, piece: &[u8]) -> Result<usize, Fault>
        ensures count { IfOk result (λ n. n ≤ length piece.now) }
        ensures progress { IfOk result (λ n. 0 < length piece.now → 0 < n) }
        ensures ok { IfOk result (λ n. files self.new ≡ with_more (files self.old) name.now (take n piece.now)) }
        ensures err { OnErr result (files self.new ≡ files self.old) }

        ensures asked { AsksNothing (asked self.old) (asked self.new) }

        ensures causes { WriteCauses (IsErrOf result Fault.Failed) (IsErrOf result Fault.Missing) (counts self.old) (counts self.new) }
        ensures fault_last { OnErr result (since_fault self.new ≡ 0) };

    /// Counts a failed read of a file: what is read of it now can't be what was read of it before. All else stays. A shelf that tells its
    /// files does nothing, since such a file is what it was.
    fn distrust(&mut self, name: &str)
        ensures counted { counts self.new ≡ where_untold (files self.old) (with_fault (counts self.old)) (counts self.old) }
        ensures files { files self.new ≡ files self.old }

        ensures asked { asked self.new ≡ asked self.old }

        ensures since { since_fault self.new ≡ where_untold (files self.old) 0 (since_fault self.old) };
}

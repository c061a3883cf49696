ghost use Rattle.std.specs.Prelude.{◌≡◌, ℕ, [], ◌++◌, ◌<◌, ◌≤◌, ◌↔◌, Some, None, length, drop, take, min, IfOk, OnOk, OnErr, IsErrOf, IsSomeAnd, IsOkUnless};
ghost use Rattle.std.specs.Option.{option_copied};
ghost use Rattle.std.specs.FinMap.{get, insert};
ghost use Rattle.shelf_io.specs.Buffer.{CopiesFront};
ghost use Rattle.shelf_io.specs.Files.{content_of};
ghost use Rattle.shelf_kinds.specs.ShortShelf.{with_files};

use crate::calm_shelf::CalmShelf;
use shelf_io::{Fault, Shelf};
use std::marker::Model;

/// A shelf in memory that never fails, and moves at most so many bytes a call: what is asked of it comes in short pieces.
#[derive(Drop)]
pub struct ShortShelf {
    inner: CalmShelf,
    limit: u32,
}

impl Model for ShortShelf {
    ghost use Rattle.std.specs.Prelude.{◌≤◌};
    ghost use Rattle.shelf_kinds.specs.ShortShelf.{ShortState, short_code};

    ghost Value = { ShortState };

    ghost coded = { short_code };

    ghost view = { λ a. record { calm = a.inner; limit = a.limit } };

    ghost invariant = { λ a. 1 ≤ a.limit };
}

impl ShortShelf {
    /// The shelf `inner`, of which a call reads and appends at most `limit` bytes.
    pub fn new(inner: CalmShelf, limit: u32) -> Self
        requires { 1 ≤ limit }
        ensures { result ≡ record { calm = inner; limit = limit } }
    {
        ShortShelf { inner, limit }
    }

    /// The bytes of a file, or None where it isn't held.
    pub fn file(&self, name: &str) -> Option<&[u8]>
        ensures { option_copied result ≡ get self.now.calm.files name.now }
    {
        self.inner.file(name)
    }

    /// How many bytes of so many a call moves.
    fn moved(&self, bytes: usize) -> usize
        ensures { result ≡ min bytes self.now.limit }
    {
        bytes.min(self.limit as usize)
    }
}

impl Shelf for ShortShelf {
    ghost use Rattle.std.specs.Prelude.{Some};
    ghost use Rattle.shelf_kinds.specs.ShortShelf.{after_read, short_counts};

    ghost files = { λ shelf. Some shelf.calm.files };

    ghost counts = { short_counts };

    fn read(&mut self, name: &str, at: u64, buf: &mut [u8]) -> Result<usize, Fault>
        ensures missing { IsErrOf result Fault.Missing ↔ (get self.old.calm.files name.now ≡ None) }
        ensures only { IsOkUnless result Fault.Missing }
        ensures count { IfOk result (λ n. n ≤ min (length buf.old) self.old.limit) }
        ensures held { IfOk result (λ n. IsSomeAnd (get self.old.calm.files name.now) (λ content. CopiesFront (drop at content) buf.old buf.new n)) }
        ensures kept { OnErr result (buf.new ≡ buf.old) }
        ensures after { self.new ≡ after_read self.old result }
    {
        let most = self.moved(buf.len());
        let count = self.inner.read(name, at, &mut buf[..most])?;
        Ok(count)
    }

    fn start(&mut self, name: &str) -> Result<(), Fault>
        ensures ok { OnOk result (self.new ≡ with_files self.old (insert self.old.calm.files name.now [])) }
        ensures err { OnErr result (self.new ≡ self.old) }
        ensures memory { IsOkUnless result Fault.OutOfMemory }
    {
        self.inner.start(name)
    }

    fn append(&mut self, name: &str, piece: &[u8]) -> Result<usize, Fault>
        ensures few { IfOk result (λ n. n ≡ min (length piece.now) self.old.limit) }
        ensures progress { IfOk result (λ n. 0 < length piece.now → 0 < n) }
        ensures ok { IfOk result (λ n. self.new ≡ with_files self.old (insert self.old.calm.files name.now (content_of self.old.calm.files name.now ++ take n piece.now))) }
        ensures err { OnErr result (self.new ≡ self.old) }
        ensures memory { IsOkUnless result Fault.OutOfMemory }
    {
        let most = self.moved(piece.len());
        self.inner.append(name, &piece[..most])
    }

    // Its files are told: each is what it was.
    fn distrust(&mut self, name: &str) {
        let _ = name;
    }
}

ghost use Rattle.std.specs.Prelude.{◌≡◌, ◌≢◌, ℕ, [], ◌++◌, ◌≤◌, ◌↔◌, None, length, drop, IfOk, OnOk, OnErr, IsErrOf, IsSomeAnd, IsOkUnless};
ghost use Rattle.std.specs.Option.{option_copied};
ghost use Rattle.std.specs.FinMap.{empty, get, insert};
ghost use Rattle.shelf_io.specs.Files.{content_of};
ghost use Rattle.shelf_io.specs.Buffer.{CopiesFront};

use crate::file_table::FileTable;
use shelf_io::{Fault, Shelf};
use std::alloc::Global;
use std::marker::Model;

/// A shelf in memory that never fails: only names that aren't held and want of memory stop a call.
#[derive(Drop)]
pub struct CalmShelf {
    table: FileTable,
    absences: u64,
}

impl Model for CalmShelf {
    ghost use Rattle.shelf_kinds.specs.CalmShelf.{CalmState, calm_code};

    ghost Value = { CalmState };

    ghost coded = { calm_code };

    ghost view = { λ a. record { files = a.table; absences = a.absences } };
}

impl CalmShelf {
    /// A shelf that holds no file.
    pub fn new(alloc: Global) -> Self
        ensures { result ≡ record { files = empty; absences = 0 } }
    {
        CalmShelf {
            table: FileTable::new(alloc),
            absences: 0,
        }
    }

    /// Makes these bytes the content of a file. It answers Ok or OutOfMemory.
    pub fn put_file(&mut self, name: &str, bytes: &[u8]) -> Result<(), Fault>
        ensures ok { OnOk result (self.new ≡ record self.old { files = insert self.old.files name.now bytes.now }) }
        ensures err { OnErr result (self.new ≡ self.old) }
        ensures memory { IsOkUnless result Fault.OutOfMemory }
    {
        self.table.put(name, bytes)?;
        Ok(())
    }

    /// The bytes of a file, or None where it isn't held.
    pub fn file(&self, name: &str) -> Option<&[u8]>
        ensures { option_copied result ≡ get self.now.files name.now }
    {
        self.table.content(name)
    }
}

impl Shelf for CalmShelf {
    ghost use Rattle.std.specs.Prelude.{Some};
    ghost use Rattle.shelf_kinds.specs.CalmShelf.{after_read, calm_counts};

    ghost files = { λ shelf. Some shelf.files };

    ghost counts = { calm_counts };

    fn read(&mut self, name: &str, at: u64, buf: &mut [u8]) -> Result<usize, Fault>
        ensures missing { IsErrOf result Fault.Missing ↔ (get self.old.files name.now ≡ None) }
        ensures only { IsOkUnless result Fault.Missing }
        ensures count { IfOk result (λ n. n ≤ length buf.old) }
        ensures held { IfOk result (λ n. IsSomeAnd (get self.old.files name.now) (λ content. CopiesFront (drop at content) buf.old buf.new n)) }
        ensures kept { OnErr result (buf.new ≡ buf.old) }
        ensures after { self.new ≡ after_read self.old result }
    {
        match self.table.read(name, at, buf) {
            Some(count) => Ok(count),
            None => {
                self.absences = self.absences.saturating_add(1);
                Err(Fault::Missing)
            }
        }
    }

    fn start(&mut self, name: &str) -> Result<(), Fault>
        ensures ok { OnOk result (self.new ≡ record self.old { files = insert self.old.files name.now [] }) }
        ensures err { OnErr result (self.new ≡ self.old) }
        ensures memory { IsOkUnless result Fault.OutOfMemory }
    {
        self.table.put(name, &[])?;
        Ok(())
    }

    fn append(&mut self, name: &str, piece: &[u8]) -> Result<usize, Fault>
        ensures whole { IfOk result (λ n. n ≡ length piece.now) }
        ensures ok { OnOk result (self.new ≡ record self.old { files = insert self.old.files name.now (content_of self.old.files name.now ++ piece.now) }) }
        ensures err { OnErr result (self.new ≡ self.old) }
        ensures memory { IsOkUnless result Fault.OutOfMemory }
    {
        self.table.append(name, piece)?;
        Ok(piece.len())
    }

    // Its files are told: each is what it was.
    fn distrust(&mut self, name: &str) {
        let _ = name;
    }
}

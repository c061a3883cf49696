ghost use Rattle.std.specs.Prelude.{◌≡◌, ◌≢◌, ℕ, [], ◌++◌, ◌≤◌, ◌↔◌, None, length, drop, IsTrue, IfOk, OnOk, OnErr, IsErrOf, IsSomeAnd, IsOkUnless, Contains};
ghost use Rattle.std.specs.Option.{option_copied};
ghost use Rattle.std.specs.FinMap.{empty, get, insert};
ghost use Rattle.shelf_io.specs.Counts.{no_counts};
ghost use Rattle.shelf_io.specs.Files.{content_of};
ghost use Rattle.shelf_io.specs.Buffer.{CopiesFront};

use crate::file_table::FileTable;
use crate::numbered_calls::NumberedCalls;
use shelf_io::{Fault, Shelf};
use std::alloc::Global;
use std::marker::Model;

/// A shelf in memory that fails in chosen calls. The calls of `Shelf` are numbered from 1, over all three.
#[derive(Drop)]
pub struct MemShelf {
    table: FileTable,
    faults: u64,
    write_faults: u64,
    absences: u64,
    calls: NumberedCalls,
    since_fault: u64,
}

impl Model for MemShelf {
    ghost use Rattle.shelf_kinds.specs.MemShelf.{ShelfState, shelf_code};

    ghost Value = { ShelfState };

    ghost coded = { shelf_code };

    ghost view = { λ a. record {
      files = a.table;
      counts = record { faults = a.faults; write_faults = a.write_faults; absences = a.absences };
      calls = a.calls.count;
      since_fault = a.since_fault;
      failing = a.calls.failing.items;
    } };
}

impl MemShelf {
    /// A shelf that holds no file, and fails in the calls with these numbers.
    pub fn new(alloc: Global, fails: Vec<u64>) -> Self
        ensures { result ≡ record { files = empty; counts = no_counts; calls = 0; since_fault = 0; failing = fails.items } }
    {
        MemShelf {
            table: FileTable::new(alloc),
            faults: 0,
            write_faults: 0,
            absences: 0,
            calls: NumberedCalls {
                count: 0,
                failing: fails,
            },
            since_fault: 0,
        }
    }

    /// Makes these bytes the content of a file. It is no call of `Shelf`, and answers Ok or OutOfMemory.
    pub fn put_file(&mut self, name: &str, bytes: &[u8]) -> Result<(), Fault>
        ensures ok { OnOk result (self.new ≡ record self.old { files = insert self.old.files name.now bytes.now }) }
        ensures err { OnErr result (self.new ≡ self.old) }
        ensures memory { IsOkUnless result Fault.OutOfMemory }
    {
        self.table.put(name, bytes)?;
        Ok(())
    }

    /// The bytes of a file, or None where it isn't held.
    pub fn file(&self, name: &str) -> Option<&[u8]>
        ensures { option_copied result ≡ get self.now.files name.now }
    {
        self.table.content(name)
    }
}

impl Shelf for MemShelf {
    ghost use Rattle.std.specs.Prelude.{Some};
    ghost use Rattle.shelf_kinds.specs.MemShelf.{FailsNext, after_read, after_write};

    ghost files = { λ shelf. Some shelf.files };

    ghost counts = { λ shelf. shelf.counts };

    ghost since_fault = { λ shelf. shelf.since_fault };

    fn read(&mut self, name: &str, at: u64, buf: &mut [u8]) -> Result<usize, Fault>
        ensures failed { IsErrOf result Fault.Failed ↔ FailsNext self.old }
        ensures missing { IsErrOf result Fault.Missing ↔ ((¬ FailsNext self.old) × (get self.old.files name.now ≡ None)) }
        ensures memory { result ≢ Err Fault.OutOfMemory }
        ensures count { IfOk result (λ n. n ≤ length buf.old) }
        ensures held { IfOk result (λ n. IsSomeAnd (get self.old.files name.now) (λ content. CopiesFront (drop at content) buf.old buf.new n)) }
        ensures kept { OnErr result (buf.new ≡ buf.old) }
        ensures after { self.new ≡ after_read self.old result }
    {
        if self.calls.next_fails() {
            self.since_fault = 0;
            self.faults = self.faults.saturating_add(1);
            return Err(Fault::Failed);
        }
        match self.table.read(name, at, buf) {
            Some(count) => {
                self.since_fault = self.since_fault.saturating_add(1);
                Ok(count)
            }
            None => {
                self.since_fault = 0;
                self.absences = self.absences.saturating_add(1);
                Err(Fault::Missing)
            }
        }
    }

    fn start(&mut self, name: &str) -> Result<(), Fault>
        ensures failed { IsErrOf result Fault.Failed ↔ FailsNext self.old }
        ensures never_missing { result ≢ Err Fault.Missing }
        ensures after { self.new ≡ after_write self.old result (insert self.old.files name.now []) }
    {
        let since_fault = self.since_fault.saturating_add(1);
        self.since_fault = 0;
        if self.calls.next_fails() {
            self.write_faults = self.write_faults.saturating_add(1);
            return Err(Fault::Failed);
        }
        self.table.put(name, &[])?;
        self.since_fault = since_fault;
        Ok(())
    }

    fn append(&mut self, name: &str, piece: &[u8]) -> Result<usize, Fault>
        ensures failed { IsErrOf result Fault.Failed ↔ FailsNext self.old }
        ensures never_missing { result ≢ Err Fault.Missing }
        ensures whole { IfOk result (λ n. n ≡ length piece.now) }
        ensures after { self.new ≡ after_write self.old result (insert self.old.files name.now (content_of self.old.files name.now ++ piece.now)) }
    {
        let since_fault = self.since_fault.saturating_add(1);
        self.since_fault = 0;
        if self.calls.next_fails() {
            self.write_faults = self.write_faults.saturating_add(1);
            return Err(Fault::Failed);
        }
        self.table.append(name, piece)?;
        self.since_fault = since_fault;
        Ok(piece.len())
    }

    // Its files are told: each is what it was.
    fn distrust(&mut self, name: &str) {
        let _ = name;
    }
}

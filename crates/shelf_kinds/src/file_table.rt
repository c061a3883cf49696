ghost use Rattle.std.specs.Prelude.{◌≡◌, [], ◌↔◌, ◌++◌, None, IsNone, drop, IfSome, IfNone, OnOk, OnErr, IsSomeAnd};
ghost use Rattle.std.specs.Option.{option_copied};
ghost use Rattle.std.specs.FinMap.{empty, get, insert};
ghost use Rattle.shelf_io.specs.Buffer.{CopiesFront};
ghost use Rattle.shelf_io.specs.Files.{content_of};

use shelf_io::{bytes_from, copy_front};
use std::alloc::{AllocError, Global};
use std::collections::BTreeMap;
use std::marker::Model;

/// The files of a shelf in memory.
#[derive(Drop)]
pub struct FileTable {
    alloc: Global,
    held: BTreeMap<String, Vec<u8>>,
}

impl Model for FileTable {
    ghost use Rattle.shelf_io.specs.Files.{Files, files_code};
    ghost use Rattle.shelf_kinds.specs.Private.FileTable.{files_of};

    ghost Value = { Files };

    ghost coded = { files_code };

    ghost view = { λ a. files_of a.held };
}

impl FileTable {
    pub fn new(alloc: Global) -> Self
        ensures { result ≡ empty }
    {
        FileTable {
            alloc,
            held: BTreeMap::new(alloc),
        }
    }

    /// The bytes of a file, where it is held.
    pub fn content(&self, name: &str) -> Option<&[u8]>
        ensures { option_copied result ≡ get self.now name.now }
    {
        match self.held.get(name) {
            Some(content) => Some(content.as_slice()),
            None => None,
        }
    }

    /// Reads from place `at` of a file, and answers how many bytes, or None where the file isn't held.
    pub fn read(&self, name: &str, at: u64, buf: &mut [u8]) -> Option<usize>
        ensures absent { IsNone result ↔ (get self.now name.now ≡ None) }
        ensures held { IfSome result (λ n. IsSomeAnd (get self.now name.now) (λ content. CopiesFront (drop at content) buf.old buf.new n)) }
        ensures kept { IfNone result (buf.new ≡ buf.old) }
    {
        match self.content(name) {
            Some(content) => Some(copy_front(bytes_from(content, at), buf)),
            None => None,
        }
    }

    /// Makes this the content of a file.
    fn set(&mut self, name: &str, content: Vec<u8>) -> Result<(), AllocError>
        ensures ok { OnOk result (self.new ≡ insert self.old name.now content.items) }
        ensures err { OnErr result (self.new ≡ self.old) }
    {
        let key = String::from_str(self.alloc, name)?;
        self.held.insert(key, content)?;
        Ok(())
    }

    /// Makes these bytes the content of a file.
    pub fn put(&mut self, name: &str, bytes: &[u8]) -> Result<(), AllocError>
        ensures ok { OnOk result (self.new ≡ insert self.old name.now bytes.now) }
        ensures err { OnErr result (self.new ≡ self.old) }
    {
        self.set(name, Vec::from_slice(self.alloc, bytes)?)
    }

    /// Adds a piece to the end of a file.
    pub fn append(&mut self, name: &str, piece: &[u8]) -> Result<(), AllocError>
        ensures ok { OnOk result (self.new ≡ insert self.old name.now (content_of self.old name.now ++ piece.now)) }
        ensures err { OnErr result (self.new ≡ self.old) }
    {
        match self.held.get_mut(name) {
            Some(content) => content.extend_from_slice(piece),
            None => self.set(name, Vec::from_slice(self.alloc, piece)?),
        }
    }
}

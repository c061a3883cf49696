ghost use Rattle.std.specs.Prelude.{◌≡◌, ◌≢◌, ◌≤◌, ◌<◌, length, IfOk, OnErr};
ghost use Rattle.shelf_kinds.specs.Counted.{counts_after_read, counts_after_write};
ghost use Rattle.shelf_io.specs.Counts.{no_counts, with_fault};

use shelf_io::{Fault, PIECE_BYTES, Shelf, copy_front};
use std::fs::{File, OpenOptions};
use std::io;
use std::io::{ErrorKind, Read, Seek, SeekFrom, Write};
use std::marker::Model;
use std::rt::Files;

/// The real files of the working folder, under their relative paths. It tells no contents: what a file holds
/// can't be known. Each call opens its file anew, so give it large pieces.
#[derive(Drop)]
pub struct FileShelf<'a, R> {
    rt: &'a R,
    faults: u64,
    write_faults: u64,
    absences: u64,
}

impl<'a, R> Model for FileShelf<'a, R> {
    ghost use Rattle.shelf_io.specs.Counts.{ShelfCounts, counts_code};

    ghost Value = { ShelfCounts };

    ghost coded = { counts_code };

    ghost view = { λ a. record { faults = a.faults; write_faults = a.write_faults; absences = a.absences } };
}

impl<'a, R: Files> FileShelf<'a, R> {
    /// The working folder of the process, with all counts at 0.
    pub fn new(rt: &'a R) -> Self
        ensures { result ≡ no_counts }
    {
        FileShelf {
            rt,
            faults: 0,
            write_faults: 0,
            absences: 0,
        }
    }
}

impl<'a, R: Files> Shelf for FileShelf<'a, R> {
    ghost use Rattle.std.specs.Prelude.{None};

    ghost files = { λ _. None };

    ghost counts = { λ shelf. shelf };

    fn read(&mut self, name: &str, at: u64, buf: &mut [u8]) -> Result<usize, Fault>
        ensures count { IfOk result (λ n. n ≤ length buf.old) }
        ensures kept { OnErr result (buf.new ≡ buf.old) }
        ensures memory { result ≢ Err Fault.OutOfMemory }
        ensures after { self.new ≡ counts_after_read self.old result }
    {
        match read_at(self.rt, name, at, buf) {
            Ok(count) => Ok(count),
            Err(error) if error.kind() == ErrorKind::NotFound => {
                self.absences = self.absences.saturating_add(1);
                Err(Fault::Missing)
            }
            Err(_) => {
                self.faults = self.faults.saturating_add(1);
                Err(Fault::Failed)
            }
        }
    }

    fn start(&mut self, name: &str) -> Result<(), Fault>
        ensures never_missing { result ≢ Err Fault.Missing }
        ensures memory { result ≢ Err Fault.OutOfMemory }
        ensures after { self.new ≡ counts_after_write self.old result }
    {
        match File::create(self.rt, name) {
            Ok(_) => Ok(()),
            Err(_) => {
                self.write_faults = self.write_faults.saturating_add(1);
                Err(Fault::Failed)
            }
        }
    }

    fn append(&mut self, name: &str, piece: &[u8]) -> Result<usize, Fault>
        ensures count { IfOk result (λ n. n ≤ length piece.now) }
        ensures progress { IfOk result (λ n. 0 < length piece.now → 0 < n) }
        ensures never_missing { result ≢ Err Fault.Missing }
        ensures memory { result ≢ Err Fault.OutOfMemory }
        ensures after { self.new ≡ counts_after_write self.old result }
    {
        match append_to(self.rt, name, piece) {
            Ok(count) => Ok(count),
            Err(_) => {
                self.write_faults = self.write_faults.saturating_add(1);
                Err(Fault::Failed)
            }
        }
    }

    fn distrust(&mut self, name: &str)
        ensures after { self.new ≡ with_fault self.old }
    {
        let _ = name;
        self.faults = self.faults.saturating_add(1);
    }
}

/// Opens a file and reads from a place of it on.
fn read_at<R: Files>(rt: &R, name: &str, at: u64, buf: &mut [u8]) -> io::Result<usize>
    ensures count { IfOk result (λ n. n ≤ length buf.old) }
    ensures kept { OnErr result (buf.new ≡ buf.old) }
{
    let mut file = File::open(rt, name)?;
    file.seek(SeekFrom::Start(at))?;
    read_through(&mut [0u8; PIECE_BYTES], &mut file, buf)
}

/// Reads through a room, since nothing is known of a buffer in which a read failed.
fn read_through<F: Read>(room: &mut [u8], from: &mut F, buf: &mut [u8]) -> io::Result<usize>
    ensures count { IfOk result (λ n. n ≤ length buf.old) }
    ensures kept { OnErr result (buf.new ≡ buf.old) }
{
    let size = buf.len().min(room.len());
    let count = read_some(from, &mut room[..size])?;
    Ok(copy_front(&room[..count], buf))
}

fn read_some<F: Read>(from: &mut F, buf: &mut [u8]) -> io::Result<usize>
    ensures { IfOk result (λ n. n ≤ length buf.old) }
{
    for _ in 0..u64::MAX {
        match from.read(buf) {
            Err(error) if error.kind() == ErrorKind::Interrupted => {}
            answer => return answer,
        }
    }
    Err(io::Error::from(ErrorKind::Interrupted))
}

fn append_to<R: Files>(rt: &R, name: &str, piece: &[u8]) -> io::Result<usize>
    ensures count { IfOk result (λ n. n ≤ length piece.now) }
    ensures progress { IfOk result (λ n. 0 < length piece.now → 0 < n) }
{
    let mut file = OpenOptions::new().append(true).create(true).open(rt, name)?;
    if piece.is_empty() {
        return Ok(0);
    }
    write_some(&mut file, piece)
}

/// Writes bytes from the front of a piece that isn't empty. To take none is an error.
pub fn write_some<W: Write>(to: &mut W, piece: &[u8]) -> io::Result<usize>
    ensures { IfOk result (λ n. (0 < n) × (n ≤ length piece.now)) }
{
    for _ in 0..u64::MAX {
        match to.write(piece) {
            Ok(0) => return Err(io::Error::from(ErrorKind::WriteZero)),
            Err(error) if error.kind() == ErrorKind::Interrupted => {}
            answer => return answer,
        }
    }
    Err(io::Error::from(ErrorKind::Interrupted))
}

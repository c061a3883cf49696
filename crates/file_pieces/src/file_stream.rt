ghost use Rattle.std.specs.Prelude.{◌≡◌, ℕ, ◌-◌, ◌≤◌, List, length, None, Option, IfOk, IfSome, OnOk, IsErrOf};
ghost use Rattle.shelf_io.specs.Files.{Files};
ghost use Rattle.es_window.specs.EsWindow.{window_end, window_from};
ghost use Rattle.es_window.specs.PassingBytes.{IsPart};
ghost use Rattle.file_pieces.specs.FileStream.{bytes_of, file_of, Follows, HasBytesTo, Holds, IsOpen, IsStreamPlace};
ghost use Rattle.file_pieces.specs.Reads.{ReadsFile};

use crate::again_fault::{AgainFault, answer_of};
use crate::limits::READ_MOST;
use crate::stream_place::StreamPlace;
use es_window::PassingBytes;
use file_pass::FilePass;
use list_types::OutOfMemory;
use shelf_io::Shelf;
use std::alloc::Global;
use stream_constants::packets::PACKET_BYTES;
use ts_demux::PacketBuffer;

/// How many bytes of a file are read at once: some 64 KiB, in whole packets.
const ROOM_BYTES: usize = 348 * PACKET_BYTES;

/// A stream of a file that is read forward again: of its bytes a window is held. Behind a fault nothing of it is, and the file is read from its front on.
#[derive(Drop)]
pub struct FileStream {
    alloc: Global,
    held: Option<OpenStream>,
}

/// A stream that stands at a place of its file.
#[derive(Drop)]
struct OpenStream {
    bytes: PassingBytes,
    buffer: PacketBuffer,
    /// The place in the file up to which its bytes were taken.
    place: u64,
}

impl FileStream {
    /// A stream of which nothing is read yet.
    pub fn new(alloc: Global) -> Self
        ensures { (told : Option Files) (place : StreamPlace) → Follows told place result }
    {
        FileStream { alloc, held: None }
    }

    /// The allocator that its room is taken of.
    pub fn alloc(&self) -> Global {
        self.alloc
    }

    /// Reads on until the bytes between two places of the stream are held, and lets go of those before the first; where these aren't held any more, the file is read
    /// from its front on. Changed comes where the file has no such stream that is as long.
    pub fn reach<K: Shelf>(
        &mut self,
        shelf: &mut K,
        place: &StreamPlace<'_>,
        from: u64,
        to: u64,
    ) -> Result<(), AgainFault>
        requires place { IsStreamPlace place.now }
        requires order { from ≤ to }
        requires follows { Follows (K.files shelf.old) place.now self.old }
        requires has { IfSome (file_of (K.files shelf.old) place.now) (HasBytesTo place.now to) }
        ensures follows { Follows (K.files shelf.old) place.now self.new }
        ensures held { OnOk result (Holds from to self.new) }
        ensures changed { IsErrOf result AgainFault.Changed → K.files shelf.old ≡ None }
        ensures reads { ReadsFile place.now.name.now (IsErrOf result AgainFault.Failed) (IsErrOf result AgainFault.Missing) (K.files shelf.old) (K.files shelf.new)
            (K.counts shelf.old) (K.counts shelf.new) (K.since_fault shelf.new) (K.asked shelf.old) (K.asked shelf.new) }
    {
        let Ok(mut stream) = self.take_open(place, from) else {
            return Err(AgainFault::OutOfMemory);
        };
        stream.bytes.pass(from);
        match stream.read_on(shelf, place, to) {
            Ok(()) => {
                self.held = Some(stream);
                Ok(())
            }
            Err(fault) => Err(fault),
        }
    }

    /// The bytes between two places of the stream, which are held.
    pub fn part(&self, from: u64, to: u64) -> &[u8]
        requires { Holds from to self.now }
        ensures size { length result.now ≡ to - from }
        ensures told { (told : Option Files) (place : StreamPlace) → IsStreamPlace place → Follows told place self.now →
            IfSome (file_of told place) (λ file. IsPart (bytes_of place file) from to result.now) }
    {
        match &self.held {
            Some(stream) => match stream.bytes.part(from, to) {
                Some(part) => part,
                None => unreachable!(),
            },
            None => unreachable!(),
        }
    }

    /// Takes the stream out as far as it has come, or anew where the bytes from a place on aren't held any more.
    fn take_open(&mut self, place: &StreamPlace<'_>, from: u64) -> Result<OpenStream, OutOfMemory>
        requires { IsStreamPlace place.now }
        ensures stands { (told : Option Files) → Follows told place.now self.old → IfOk result (IsOpen told place.now) }
        ensures before { IfOk result (λ stream. window_from stream.bytes.window ≤ from) }
        ensures closed { self.new.held ≡ None }
    {
        match self.held.take() {
            Some(stream) => stream.or_anew(self.alloc, place, from),
            None => OpenStream::new(self.alloc, place),
        }
    }
}

impl OpenStream {
    /// Before the first byte of the file.
    fn new(alloc: Global, place: &StreamPlace<'_>) -> Result<OpenStream, OutOfMemory>
        requires { IsStreamPlace place.now }
        ensures stands { (told : Option Files) → IfOk result (IsOpen told place.now) }
        ensures before { IfOk result (λ stream. window_from stream.bytes.window ≡ 0) }
    {
        let room = vec![in alloc; 0u8; ROOM_BYTES]?;
        let Ok(bytes) = PassingBytes::new(alloc, place.streams, place.index, place.part) else {
            return Err(OutOfMemory);
        };
        Ok(OpenStream {
            bytes,
            buffer: PacketBuffer::new(room),
            place: 0,
        })
    }

    /// The same stream, or a new one where the bytes from a place on aren't held any more.
    fn or_anew(
        self,
        alloc: Global,
        place: &StreamPlace<'_>,
        from: u64,
    ) -> Result<OpenStream, OutOfMemory>
        requires { IsStreamPlace place.now }
        ensures stands { (told : Option Files) → IsOpen told place.now self → IfOk result (IsOpen told place.now) }
        ensures before { IfOk result (λ stream. window_from stream.bytes.window ≤ from) }
    {
        if self.bytes.from() <= from {
            return Ok(self);
        }
        OpenStream::new(alloc, place)
    }

    /// Reads on until the bytes of the stream up to a place have come.
    fn read_on<K: Shelf>(
        &mut self,
        shelf: &mut K,
        place: &StreamPlace<'_>,
        to: u64,
    ) -> Result<(), AgainFault>
        requires place { IsStreamPlace place.now }
        requires stands { IsOpen (K.files shelf.old) place.now self.old }
        requires has { IfSome (file_of (K.files shelf.old) place.now) (HasBytesTo place.now to) }
        ensures stands { OnOk result (IsOpen (K.files shelf.old) place.now self.new) }
        ensures come { OnOk result (to ≤ window_end self.new.bytes.window) }
        ensures from { OnOk result (window_from self.new.bytes.window ≡ window_from self.old.bytes.window) }
        ensures changed { IsErrOf result AgainFault.Changed → K.files shelf.old ≡ None }
        ensures reads { ReadsFile place.now.name.now (IsErrOf result AgainFault.Failed) (IsErrOf result AgainFault.Missing) (K.files shelf.old) (K.files shelf.new)
            (K.counts shelf.old) (K.counts shelf.new) (K.since_fault shelf.new) (K.asked shelf.old) (K.asked shelf.new) }
    {
        let mut source = FilePass::from_place(shelf, place.name, READ_MOST, self.place);
        let read = self.bytes.read_to(&mut self.buffer, &mut source, to);
        self.place = source.place();
        answer_of(source.stop(), read)
    }
}

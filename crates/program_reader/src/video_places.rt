//! Where the PES packets and the pictures of a video stand, while its bytes pass.
ghost use Rattle.std.specs.Prelude.{◌≡◌, ℕ, ◌+◌, ◌<◌, ◌≤◌, ◌^◌, List, [], ◌∷◌, ◌++◌, length, take, IfOk, OnOk};
ghost use Rattle.es_units.specs.PictureFinder.{HasFound, bytes_passed};
ghost use Rattle.pes_units.specs.PesHeader.{pes_fields_of};
ghost use Rattle.ts_demux.specs.declared.demuxed.PesUnit.{PesUnit};
ghost use Rattle.elementary_streams.specs.Packets.{pes_payload_of};
ghost use Rattle.program_reader.specs.VideoWalk.{Stand};

use elementary_streams::PlacedPacket;
use es_units::PictureFinder;
use list_types::OutOfMemory;
use pes_units::PesHeader;
use std::alloc::Global;

/// Where the PES packets and the pictures of a video stand, as far as its bytes have passed.
#[derive(Drop)]
pub struct VideoPlaces {
    pub packets: Vec<PlacedPacket>,
    /// Where the pictures begin.
    pub pictures: Vec<u64>,
    /// How many bytes have passed.
    bytes: u64,
    finder: PictureFinder,
}

impl VideoPlaces {
    /// No bytes have passed.
    pub fn new(alloc: Global) -> VideoPlaces
        ensures { Stand [] result }
    {
        VideoPlaces {
            packets: Vec::new(alloc),
            pictures: Vec::new(alloc),
            bytes: 0,
            finder: PictureFinder::new(),
        }
    }

    /// Passes the next PES packet, by its header and its payload.
    pub fn add(&mut self, payload: &[u8], header: PesHeader) -> Result<(), OutOfMemory>
        requires fits { self.old.bytes + length payload.now < 2 ^ 64 }
        requires counted { bytes_passed self.old.finder ≡ self.old.bytes }
        ensures stand { (packets : List PesUnit) (packet : PesUnit) → Stand packets self.old → header ≡ pes_fields_of packet.bytes → payload.now ≡ pes_payload_of packet →
            OnOk result (Stand (packets ++ packet ∷ []) self.new) }
    {
        let from = self.bytes;
        self.find(payload)?;
        self.bytes += payload.len() as u64;
        self.packets.push(PlacedPacket {
            from,
            end: self.bytes,
            header,
        })?;
        Ok(())
    }

    /// Finds the pictures whose start codes end with bytes that are next.
    fn find(&mut self, bytes: &[u8]) -> Result<(), OutOfMemory>
        requires fits { bytes_passed self.old.finder + length bytes.now < 2 ^ 64 }
        ensures found { (es : List ℕ) → HasFound es self.old.pictures.items self.old.finder → OnOk result (HasFound (es ++ bytes.now) self.new.pictures.items self.new.finder) }
        ensures packets { self.new.packets.items ≡ self.old.packets.items }
        ensures bytes { self.new.bytes ≡ self.old.bytes }
    {
        let mut count = 0;
        while count < bytes.len() {
            count += self.find_next(&bytes[count..])?;
        }
        Ok(())
    }

    /// Takes bytes up to the end of the next picture's start code, or all, and answers how many.
    fn find_next(&mut self, bytes: &[u8]) -> Result<usize, OutOfMemory>
        requires fits { bytes_passed self.old.finder + length bytes.now < 2 ^ 64 }
        requires some { 0 < length bytes.now }
        ensures found { (es : List ℕ) → HasFound es self.old.pictures.items self.old.finder →
            IfOk result (λ count. HasFound (es ++ take count bytes.now) self.new.pictures.items self.new.finder) }
        ensures within { IfOk result (λ count. (0 < count) × (count ≤ length bytes.now)) }
        ensures passed { IfOk result (λ count. bytes_passed self.new.finder ≡ bytes_passed self.old.finder + count) }
        ensures packets { self.new.packets.items ≡ self.old.packets.items }
        ensures bytes { self.new.bytes ≡ self.old.bytes }
    {
        let count = self.finder.push(bytes);
        match self.finder.found() {
            Some(place) => {
                self.pictures.push(place)?;
                Ok(count)
            }
            None => Ok(count),
        }
    }
}

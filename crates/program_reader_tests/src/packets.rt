//! Packets and files of them, for tests.

use std::alloc::{AllocError, Global};
use stream_constants::packets::{PACKET_BYTES, SYNC_BYTE};

/// The PIDs of the files: those of the map, the video and the audio of program 1.
const MAP_PID: u16 = 256;

const VIDEO_PID: u16 = 257;

const AUDIO_PID: u16 = 258;

/// A PAT: the map of program 1 is on PID 256. Its CRC is by a bitwise program in another language, as the next one's.
const PAT: [u8; 16] = [
    0x00, 0xB0, 0x0D, 0x00, 0x01, 0xC1, 0x00, 0x00, 0x00, 0x01, 0xE1, 0x00, 0xE8, 0xF9, 0x5E, 0x7D,
];

/// A PMT of program 1: video on PID 257, audio of type 4 on PID 258.
const PMT: [u8; 26] = [
    0x02, 0xB0, 0x17, 0x00, 0x01, 0xC1, 0x00, 0x00, 0xE1, 0x01, 0xF0, 0x00, 0x02, 0xE1, 0x01, 0xF0,
    0x00, 0x04, 0xE1, 0x02, 0xF0, 0x00, 0xBC, 0xC5, 0x57, 0x07,
];

/// Bytes of the payload of a packet, at most.
const PAYLOAD_BYTES: usize = 184;

/// A PTS of a PES header and its flags, or none.
pub type Time = Option<u64>;

/// The last byte of a number.
fn low_byte(number: u64) -> u8 {
    let [.., low] = number.to_be_bytes();
    low
}

/// The four bits before a PTS that stands alone, before one that a DTS follows, and before that DTS, with a marker bit.
const PTS_ALONE: u8 = 0x21;

const PTS_FIRST: u8 = 0x31;

const DTS: u8 = 0x11;

/// The field of a time behind these four bits.
fn time_field(bits: u8, time: u64) -> [u8; 5] {
    [
        bits | low_byte(time >> 29) & 0x0E,
        low_byte(time >> 22),
        0x01 | low_byte(time >> 14) & 0xFE,
        low_byte(time >> 7),
        0x01 | low_byte(time << 1) & 0xFE,
    ]
}

/// A file that is put together.
#[derive(Drop)]
pub struct File {
    alloc: Global,
    pub bytes: Vec<u8>,
    videos: u8,
    audios: u8,
}

impl File {
    /// A file with the tables of program 1.
    pub fn new(alloc: Global) -> Result<File, AllocError> {
        let mut file = File {
            alloc,
            bytes: Vec::new(alloc),
            videos: 0,
            audios: 0,
        };
        file.put(&[SYNC_BYTE, 0x40, 0, 0x10, 0], &PAT, 0xFF)?;
        let [high, low] = MAP_PID.to_be_bytes();
        file.put(&[SYNC_BYTE, 0x40 | high, low, 0x10, 0], &PMT, 0xFF)?;
        Ok(file)
    }

    /// Puts a packet with these bytes, which ends with so many of the last one.
    fn put(&mut self, front: &[u8], behind: &[u8], fill: u8) -> Result<(), AllocError> {
        let begin = self.bytes.len();
        self.bytes.extend_from_slice(front)?;
        self.bytes.extend_from_slice(behind)?;
        let put = self.bytes.len().saturating_sub(begin);
        for _ in 0..PACKET_BYTES.saturating_sub(put) {
            self.bytes.push(fill)?;
        }
        Ok(())
    }

    /// Puts a PES packet of the video in one packet, zero bytes behind it.
    pub fn video(&mut self, time: Time, unit: &[u8]) -> Result<(), AllocError> {
        let pes = video_pes(self.alloc, time, unit)?;
        self.put_video(pes.as_slice())
    }

    /// The same with a PTS and a DTS.
    pub fn video_shown_later(&mut self, pts: u64, dts: u64, unit: &[u8]) -> Result<(), AllocError> {
        let mut pes = Vec::new(self.alloc);
        pes.extend_from_slice(&[0, 0, 1, 0xE0, 0, 0, 0x80, 0xC0, 10])?;
        pes.extend_from_slice(&time_field(PTS_FIRST, pts))?;
        pes.extend_from_slice(&time_field(DTS, dts))?;
        pes.extend_from_slice(unit)?;
        self.put_video(pes.as_slice())
    }

    /// Puts a packet that begins with this PES packet of the video.
    fn put_video(&mut self, pes: &[u8]) -> Result<(), AllocError> {
        let [high, low] = VIDEO_PID.to_be_bytes();
        let count = self.videos;
        self.videos = count.wrapping_add(1) % 16;
        self.put(&[SYNC_BYTE, 0x40 | high, low, 0x10 | count], pes, 0)
    }

    /// Puts a packet that begins a PES packet of which these bytes stand in the file.
    fn put_short(&mut self, pid: u16, count: u8, pes: &[u8]) -> Result<(), AllocError> {
        let [high, low] = pid.to_be_bytes();
        let field = PAYLOAD_BYTES.saturating_sub(pes.len().saturating_add(1));
        let mut front = Vec::new(self.alloc);
        front.extend_from_slice(&[SYNC_BYTE, 0x40 | high, low, 0x30 | count])?;
        front.push(u8::try_from(field).unwrap_or(0))?;
        front.push(0)?;
        for _ in 0..field.saturating_sub(1) {
            front.push(0xFF)?;
        }
        self.put(front.as_slice(), pes, 0)
    }

    /// Puts the first bytes of a PES packet of the video alone.
    pub fn cut_video(&mut self) -> Result<(), AllocError> {
        let count = self.videos;
        self.videos = count.wrapping_add(1) % 16;
        self.put_short(VIDEO_PID, count, &[0, 0, 1, 0xE0, 0])
    }

    /// Puts a PES packet of the audio in one packet, its stated length greater than it is by so much.
    pub fn audio(&mut self, time: Time, payload: &[u8], more: u16) -> Result<(), AllocError> {
        let count = self.audios;
        self.audios = count.wrapping_add(1) % 16;
        let pes = audio_pes(self.alloc, time, payload, more)?;
        self.put_short(AUDIO_PID, count, pes.as_slice())
    }
}

/// A PES packet of a video that states no length.
pub fn video_pes(alloc: Global, time: Time, unit: &[u8]) -> Result<Vec<u8>, AllocError> {
    let mut pes = Vec::new(alloc);
    pes.extend_from_slice(&[0, 0, 1, 0xE0, 0, 0, 0x80])?;
    put_time(&mut pes, time)?;
    pes.extend_from_slice(unit)?;
    Ok(pes)
}

/// A PES packet of audio, its stated length greater than it is by so much.
pub fn audio_pes(
    alloc: Global,
    time: Time,
    payload: &[u8],
    more: u16,
) -> Result<Vec<u8>, AllocError> {
    let mut behind = Vec::new(alloc);
    behind.push(0x80)?;
    put_time(&mut behind, time)?;
    behind.extend_from_slice(payload)?;
    let size = u16::try_from(behind.len()).unwrap_or(0);
    let [high, low] = size.wrapping_add(more).to_be_bytes();
    let mut pes = Vec::new(alloc);
    pes.extend_from_slice(&[0, 0, 1, 0xC0, high, low])?;
    pes.extend_from_slice(behind.as_slice())?;
    Ok(pes)
}

/// Puts the flags, the length of what follows, and a PTS of a PES header.
fn put_time(pes: &mut Vec<u8>, time: Time) -> Result<(), AllocError> {
    match time {
        Some(pts) => {
            pes.extend_from_slice(&[0x80, 5])?;
            pes.extend_from_slice(&time_field(PTS_ALONE, pts))
        }
        None => pes.extend_from_slice(&[0, 0]),
    }
}

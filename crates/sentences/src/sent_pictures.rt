//! The types of the pictures that a run sends, and where they pause, by the bytes that it writes: its line has the version of each picture, and
//! neither its type nor its time.

use pes_units::PesHeader;
use std::alloc::{AllocError, Global};
use stream_constants::clock::TICKS_PER_TIME_UNIT;
use stream_constants::limits::PROGRAMS_MOST;
use stream_constants::packets::PACKET_BYTES;
use stream_constants::start_codes::PICTURE;
use ts_packets::Packet;

/// The PID of the first program's video in OUT (docs/OUTPUT.md).
const FIRST_VIDEO_PID: u16 = 0x101;

/// PIDs of OUT from a program's video to the next one's.
const PROGRAM_PIDS: u16 = 16;

/// Times of PES headers before they begin anew: they have 33 bits (13818-1, 2.4.3.7).
const ROUND: u64 = 1 << 33;

/// What stands for the type of a picture while it isn't known: none has it.
const NO_TYPE: u8 = 0;

/// The pictures of a stream, program by program, as far as its bytes were heard.
#[derive(Drop)]
pub struct SentPictures {
    alloc: Global,
    videos: Vec<SentVideo>,
    /// Whether all bytes came as whole packets, and memory was found for what they say.
    is_whole: bool,
}

impl SentPictures {
    /// Before anything is written.
    pub fn new(alloc: Global) -> SentPictures {
        SentPictures {
            alloc,
            videos: Vec::new(alloc),
            is_whole: true,
        }
    }

    /// Takes the next bytes of the stream.
    pub fn hear(&mut self, piece: &[u8]) {
        if piece.len() % PACKET_BYTES != 0 {
            self.is_whole = false;
        }
        for bytes in piece.chunks_exact(PACKET_BYTES) {
            if let Some(packet) = packet_of(bytes) {
                if let Err(AllocError) = self.hear_packet(&packet) {
                    self.is_whole = false;
                }
            }
        }
    }

    /// The picture_coding_type of each picture of a program, counted from 0; none where not all is known.
    pub(crate) fn types_of(&self, program: usize) -> &[u8] {
        match self.videos.get(program) {
            Some(video) if self.is_whole => video.types.as_slice(),
            _ => &[],
        }
    }

    /// The longest pause between two pictures of a program, counted from 0; none where not all is known, or there are no two pictures with times.
    pub(crate) fn pause_of(&self, program: usize) -> Option<Pause> {
        match self.videos.get(program) {
            Some(video) if self.is_whole => video.pause,
            _ => None,
        }
    }

    /// Takes a packet: one of a video begins a picture, or goes on with it.
    fn hear_packet(&mut self, packet: &Packet<'_>) -> Result<(), AllocError> {
        let Some(program) = program_of(packet.pid) else {
            return Ok(());
        };
        for _ in self.videos.len()..=program {
            self.videos.push(SentVideo::new(self.alloc))?;
        }
        let Some(video) = self.videos.get_mut(program) else {
            return Ok(());
        };
        if packet.start {
            video.begin_picture(packet.payload)?;
        }
        video.go_on(packet.payload);
        Ok(())
    }
}

/// The packet that bytes begin with.
fn packet_of(bytes: &[u8]) -> Option<Packet<'_>> {
    Packet::read(bytes.first_chunk()?).ok()
}

/// The program, from 0, whose video has a PID in OUT.
fn program_of(pid: u16) -> Option<usize> {
    let behind = pid.checked_sub(FIRST_VIDEO_PID)?;
    let program = usize::from(behind / PROGRAM_PIDS);
    if behind % PROGRAM_PIDS == 0 && program < PROGRAMS_MOST {
        Some(program)
    } else {
        None
    }
}

/// From one picture to the next one.
#[derive(Clone, Copy)]
pub(crate) struct Pause {
    /// How long it lasts, in ticks.
    pub(crate) ticks: u64,
    /// The picture behind it, from 0.
    pub(crate) picture: u64,
}

/// The pictures of a program.
#[derive(Drop)]
struct SentVideo {
    types: Vec<u8>,
    /// The decoding time of the last picture that has one, in 1/90,000 s.
    time: Option<u64>,
    /// The longest pause.
    pause: Option<Pause>,
    /// Looks for the type of the last picture, while that isn't known.
    finder: Option<TypeFinder>,
}

impl SentVideo {
    /// Before its first picture.
    fn new(alloc: Global) -> SentVideo {
        SentVideo {
            types: Vec::new(alloc),
            time: None,
            pause: None,
            finder: None,
        }
    }

    /// A picture begins, and with it a PES packet.
    fn begin_picture(&mut self, payload: &[u8]) -> Result<(), AllocError> {
        if let Ok(header) = PesHeader::read(payload, true) {
            if let Some(time) = header.times.dts.or(header.times.pts) {
                self.see_time(time);
            }
        }
        self.types.push(NO_TYPE)?;
        self.finder = Some(TypeFinder::new());
        Ok(())
    }

    /// The next picture has a decoding time.
    fn see_time(&mut self, time: u64) {
        if let Some(last) = self.time {
            let units = time.wrapping_sub(last) % ROUND;
            let pause = Pause {
                ticks: units.saturating_mul(TICKS_PER_TIME_UNIT),
                picture: self.types.len() as u64,
            };
            self.pause = match self.pause {
                Some(longest) if longest.ticks >= pause.ticks => Some(longest),
                _ => Some(pause),
            };
        }
        self.time = Some(time);
    }

    /// The last picture goes on.
    fn go_on(&mut self, payload: &[u8]) {
        let Some(finder) = self.finder else {
            return;
        };
        let mut finder = finder;
        for byte in payload {
            if let Some(kind) = finder.take(*byte) {
                self.finder = None;
                if let Some(last) = self.types.last_mut() {
                    *last = kind;
                }
                return;
            }
        }
        self.finder = Some(finder);
    }
}

/// Finds the picture_coding_type behind the start code of a picture (13818-2, 6.2.3).
#[derive(Clone, Copy)]
pub(crate) struct TypeFinder {
    /// The last five bytes.
    last: [u8; 5],
}

impl TypeFinder {
    /// Before the first byte.
    pub(crate) fn new() -> TypeFinder {
        TypeFinder { last: [0xff; 5] }
    }

    /// Takes a byte; the type where it is the second one behind a start code.
    pub(crate) fn take(&mut self, byte: u8) -> Option<u8> {
        let [first, second, third, code, behind] = self.last;
        self.last = [second, third, code, behind, byte];
        if [first, second, third, code] == [0, 0, 1, PICTURE] {
            Some(byte >> 3 & 7)
        } else {
            None
        }
    }
}

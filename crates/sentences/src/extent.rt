//! How many packets and pictures a program of a file has, and how long it lasts.

use crate::carrier::{StreamPid, packet_buffer};
use crate::sent_pictures::TypeFinder;
use pes_units::PesHeader;
use pes_walk::PesWalk;
use shelf_io::Reading;
use shelf_kinds::FileShelf;
use std::alloc::{AllocError, Global};
use std::rt::Files;
use stream_constants::clock::TICKS_PER_TIME_UNIT;
use stream_constants::packets::PACKET_BYTES;
use ts_demux::{Demuxed, PesUnit};
use ts_packets::{PidReader, pid_of};

/// Times of PES headers before they begin anew: they have 33 bits (13818-1, 2.4.3.7).
const ROUND: u64 = 1 << 33;

/// Where times are counted from, so that they can go back.
const FIRST_TIME: u64 = 1 << 40;

/// What is counted of a program.
#[derive(Clone, Copy)]
pub(crate) struct Extent {
    /// PES packets of the stream that has most.
    pub(crate) pes: u64,
    pub(crate) pictures: u64,
    /// How much later than its first time the last time of a stream is, in ticks, of the stream where that is most.
    pub(crate) ticks: u64,
}

/// Counts the packets and pictures of a program's streams; none where its file can't be read, or memory is wanting.
pub(crate) fn extent_of<R: Files + AllocGlobal>(
    rt: &R,
    file: &str,
    streams: &[StreamPid],
) -> Option<Extent> {
    let mut shelf = FileShelf::new(rt);
    let mut source = Reading::new(&mut shelf, file);
    let mut packets = packet_buffer(rt.alloc())?;
    let mut counts = Vec::new(rt.alloc());
    for stream in streams {
        counts.push(StreamCount::new(rt.alloc(), *stream)).ok()?;
    }
    for _ in 0..u64::MAX {
        packets.fill(&mut source).ok()?;
        let Some(bytes) = packets.first() else {
            return Some(most_of(counts.as_slice()));
        };
        take_packet(counts.as_mut_slice(), bytes).ok()?;
        packets.pass();
    }
    None
}

/// Counts the packets and pictures of the streams of a program stream.
pub(crate) fn extent_of_elements(demuxed: &Demuxed) -> Extent {
    let mut extent = extent_of_units(demuxed.video.as_slice(), true);
    for audio in demuxed.audios.as_slice() {
        let other = extent_of_units(audio.units.as_slice(), false);
        extent.pes = extent.pes.max(other.pes);
        extent.ticks = extent.ticks.max(other.ticks);
    }
    extent
}

/// The same of the packets of one stream.
fn extent_of_units(units: &[PesUnit], is_video: bool) -> Extent {
    let mut times = Times::new();
    let mut finder = TypeFinder::new();
    let mut pictures = 0u64;
    for unit in units {
        let bytes = unit.bytes.as_slice();
        if let Ok(header) = PesHeader::read(bytes, is_video) {
            if let Some(time) = header.times.dts.or(header.times.pts) {
                times.add(time);
            }
            let data = &bytes[usize::from(header.len).min(bytes.len())..];
            pictures = pictures.saturating_add(pictures_in(&mut finder, data));
        }
    }
    Extent {
        pes: units.len() as u64,
        pictures: if is_video { pictures } else { 0 },
        ticks: times.lasting(),
    }
}

/// How many pictures begin in the next bytes of a video.
fn pictures_in(finder: &mut TypeFinder, data: &[u8]) -> u64 {
    let mut pictures = 0u64;
    for byte in data {
        if finder.take(*byte).is_some() {
            pictures = pictures.saturating_add(1);
        }
    }
    pictures
}

/// Takes the next packet of a file for the streams of which it is one.
fn take_packet(counts: &mut [StreamCount], bytes: &[u8; PACKET_BYTES]) -> Result<(), AllocError> {
    for count in counts {
        count.take(bytes)?;
    }
    Ok(())
}

/// What is counted of all streams together.
fn most_of(counts: &[StreamCount]) -> Extent {
    let mut extent = Extent {
        pes: 0,
        pictures: 0,
        ticks: 0,
    };
    for count in counts {
        extent.pes = extent.pes.max(count.begun);
        extent.pictures = extent.pictures.max(count.pictures);
        extent.ticks = extent.ticks.max(count.times.lasting());
    }
    extent
}

/// What is counted of a stream.
#[derive(Drop)]
struct StreamCount {
    stream: StreamPid,
    packets: PidReader,
    pes: PesWalk,
    /// PES packets that have begun.
    begun: u64,
    /// Whether the times of the last one are counted.
    is_timed: bool,
    times: Times,
    finder: TypeFinder,
    pictures: u64,
}

impl StreamCount {
    /// Before the first packet of a file.
    fn new(alloc: Global, stream: StreamPid) -> StreamCount {
        StreamCount {
            stream,
            packets: PidReader::new(),
            pes: PesWalk::new(alloc, stream.is_video),
            begun: 0,
            is_timed: false,
            times: Times::new(),
            finder: TypeFinder::new(),
            pictures: 0,
        }
    }

    /// Takes the next packet of the file.
    fn take(&mut self, bytes: &[u8; PACKET_BYTES]) -> Result<(), AllocError> {
        if pid_of(bytes) != Ok(self.stream.pid) {
            return Ok(());
        }
        let Ok(Some(packet)) = self.packets.take(bytes) else {
            return Ok(());
        };
        if packet.start {
            self.begun = self.begun.saturating_add(1);
            self.is_timed = false;
        }
        let Ok(data) = self.pes.add(0, packet.start, packet.payload) else {
            return Err(AllocError);
        };
        if self.stream.is_video {
            let pictures = pictures_in(&mut self.finder, data);
            self.pictures = self.pictures.saturating_add(pictures);
        }
        self.count_time();
        Ok(())
    }

    /// Counts the time of the last PES packet, once it is known.
    fn count_time(&mut self) {
        if self.is_timed {
            return;
        }
        if let Some(header) = self.pes.header() {
            self.is_timed = true;
            if let Some(time) = header.times.dts.or(header.times.pts) {
                self.times.add(time);
            }
        }
    }
}

/// The times of a stream on one axis: each is within half a round of the one before.
#[derive(Clone, Copy)]
struct Times {
    /// The last time, as it stands, and on the axis.
    last: Option<u64>,
    at: u64,
    /// The greatest time on the axis.
    most: u64,
}

impl Times {
    /// Before the first time.
    fn new() -> Times {
        Times {
            last: None,
            at: FIRST_TIME,
            most: FIRST_TIME,
        }
    }

    /// Adds the next time.
    fn add(&mut self, time: u64) {
        if let Some(last) = self.last {
            let later = time.wrapping_sub(last) % ROUND;
            self.at = if later < ROUND / 2 {
                self.at.saturating_add(later)
            } else {
                self.at.saturating_sub(ROUND - later)
            };
        }
        self.last = Some(time);
        self.most = self.most.max(self.at);
    }

    /// How much later than the first time the greatest one is, in ticks.
    fn lasting(&self) -> u64 {
        (self.most.saturating_sub(FIRST_TIME)).saturating_mul(TICKS_PER_TIME_UNIT)
    }
}

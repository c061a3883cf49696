//! Which packet of a file carries a byte of the video or of an audio stream.

ghost use Rattle.std.specs.Prelude.{◌≡◌, [], IfSome};

use pes_walk::PesWalk;
use shelf_io::Reading;
use shelf_kinds::FileShelf;
use std::alloc::Global;
use std::rt::Files;
use stream_constants::packets::PACKET_BYTES;
use ts_demux::PacketBuffer;
use ts_packets::{PidReader, pid_of};

/// How many bytes of a file are read at once: whole packets.
const ROOM_BYTES: usize = 348 * PACKET_BYTES;

/// The packet that carries a byte of a stream.
#[derive(Clone, Copy)]
pub(crate) struct Carrier {
    /// The PES packet of the stream, from 0.
    pub(crate) pes: u64,
    /// The place of the transport packet in the file, in bytes.
    pub(crate) at: u64,
}

/// A buffer for the packets of a file, which holds nothing yet; none where memory is wanting.
pub(crate) fn packet_buffer(alloc: Global) -> Option<PacketBuffer>
    ensures { IfSome result (λ buffer. buffer ≡ []) }
{
    match vec![in alloc; 0u8; ROOM_BYTES] {
        Ok(room) => Some(PacketBuffer::new(room)),
        Err(_) => None,
    }
}

/// The packet that carries the byte at a place of a stream, its PES packets' bytes behind their headers joined; none where the file
/// doesn't tell, as where the place is behind its last byte.
pub(crate) fn carrier_of<R: Files + AllocGlobal>(
    rt: &R,
    file: &str,
    stream: StreamPid,
    place: u64,
) -> Option<Carrier> {
    let mut shelf = FileShelf::new(rt);
    let mut source = Reading::new(&mut shelf, file);
    let mut packets = packet_buffer(rt.alloc())?;
    let mut walk = StreamWalk::new(rt.alloc(), stream);
    let mut passed = 0u64;
    for n in 0..u64::MAX {
        packets.fill(&mut source).ok()?;
        let at = n.saturating_mul(PACKET_BYTES as u64);
        let data = walk.take(at, packets.first()?);
        passed = passed.saturating_add(data.len() as u64);
        if passed > place {
            return Some(Carrier {
                pes: walk.begun.saturating_sub(1),
                at,
            });
        }
        packets.pass();
    }
    None
}

/// The PID of a stream.
#[derive(Clone, Copy, Default)]
pub(crate) struct StreamPid {
    pub(crate) pid: u16,
    pub(crate) is_video: bool,
}

/// A walk over the packets of a file for the bytes of one stream.
#[derive(Drop)]
pub(crate) struct StreamWalk {
    pid: u16,
    packets: PidReader,
    pes: PesWalk,
    /// How many PES packets of the stream have begun.
    begun: u64,
}

impl StreamWalk {
    /// Before the first packet.
    pub(crate) fn new(alloc: Global, stream: StreamPid) -> StreamWalk {
        StreamWalk {
            pid: stream.pid,
            packets: PidReader::new(),
            pes: PesWalk::new(alloc, stream.is_video),
            begun: 0,
        }
    }

    /// Takes the packet at a place of the file, and answers the bytes of the stream in it, behind headers of PES packets.
    pub(crate) fn take<'a>(&'a mut self, at: u64, bytes: &'a [u8; PACKET_BYTES]) -> &'a [u8] {
        if pid_of(bytes) != Ok(self.pid) {
            return &[];
        }
        let Ok(Some(packet)) = self.packets.take(bytes) else {
            return &[];
        };
        if packet.start {
            self.begun = self.begun.saturating_add(1);
        }
        match self.pes.add(at, packet.start, packet.payload) {
            Ok(data) => data,
            Err(_) => &[],
        }
    }
}

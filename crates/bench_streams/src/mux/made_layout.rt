ghost use Rattle.std.specs.Prelude.{◌≡◌, [], length};
ghost use Rattle.psi_tables.specs.Pmt.{IsWritableMap, pmt_length};
ghost use Rattle.mux_writer.specs.Layout.{IsLayout, stream_pids};

use arrayvec::ArrayVec;
use mux_writer::Layout;
use psi_tables::{ProgramMap, Stream};

/// stream_type of MPEG-2 video and of MPEG-1 audio.
const VIDEO: u8 = 2;

const AUDIO: u8 = 3;

/// Two programs, numbered 20 and 10: the first with its video alone, the second with two audio streams too. Clocks begin at
/// 0 and one tick before they wrap.
pub fn made_layout() -> Layout
    ensures layout { IsLayout result }
    ensures two { length result.maps.items ≡ 2 }
    ensures four { length (stream_pids result) ≡ 4 }
{
    let mut layout = Layout::new(0x1234);
    layout.push(20, one_stream(), 0);
    layout.push(10, three_streams(), 2_576_980_377_599);
    layout
}

/// A map with a video stream.
fn one_stream() -> ProgramMap
    ensures writable { IsWritableMap result }
    ensures streams { length result.streams.items ≡ 1 }
    ensures size { pmt_length result ≡ 21 }
{
    let mut streams = ArrayVec::new();
    streams.push(stream(VIDEO));
    map_of(streams)
}

/// A map with a video stream and two audio streams.
fn three_streams() -> ProgramMap
    ensures writable { IsWritableMap result }
    ensures streams { length result.streams.items ≡ 3 }
    ensures size { pmt_length result ≡ 31 }
{
    let mut streams = ArrayVec::new();
    streams.push(stream(VIDEO));
    streams.push(stream(AUDIO));
    streams.push(stream(AUDIO));
    map_of(streams)
}

/// A map of these streams, to be given its PIDs.
fn map_of(streams: ArrayVec<Stream, 64>) -> ProgramMap
    ensures streams { result.streams ≡ streams }
    ensures pcr { result.pcr_pid ≡ 0 }
{
    ProgramMap {
        number: 0,
        pcr_pid: 0,
        streams,
        dropped: 0,
    }
}

/// A stream without descriptors.
fn stream(kind: u8) -> Stream
    ensures { result ≡ record { kind = kind; pid = 0; descriptors = record { items = [] } } }
{
    Stream {
        kind,
        pid: 0,
        descriptors: ArrayVec::new(),
    }
}

//! The bytes of a stream, in parts from the front to the end.
ghost use Rattle.std.specs.Prelude.{◌≡◌};

use arrayvec::ArrayVec;
use es_window::{ElementBytes, HeldPart, PassingBytes};
use program_maker::{in_program_stream, make_program};
use program_stream::split;
use psi_tables::Stream;
use shelf_io::{Reading, Source};
use shelf_kinds::{CalmShelf, ShortShelf};
use std::alloc::Global;
use std::test::Fail;
use stream_constants::packets::PACKET_BYTES;
use ts_demux::{PacketBuffer, PesUnit, demux};

/// How many bytes a call gives at most: one, parts of a packet, and the whole file.
const GIVEN: [u32; 5] = [1, 3, 7, 188, 4_000_000_000];

/// What carries the streams of a file.
#[derive(Clone, Copy)]
enum Form {
    /// Transport packets.
    Packets,
    /// Elements of a program stream.
    Elements,
}

const VIDEO_PID: u16 = 257;

const VIDEO_ID: u16 = 0xE0;

/// The length of the PES headers of a generated program, whose pictures have both times (ISO/IEC 13818-1, 2.4.3.6).
const HEADER_BYTES: usize = 19;

/// A stream of this PID.
fn stream_of(pid: u16) -> Stream
    ensures { result.pid ≡ pid }
{
    Stream {
        kind: 0,
        pid,
        descriptors: ArrayVec::new(),
    }
}

/// The bytes between two places of the video of the file that a source gives, what stands before them passed; None where the stream ends before the second
/// place.
fn part_out_of<S: Source>(
    alloc: Global,
    source: &mut S,
    part: HeldPart,
    from: u64,
    to: u64,
) -> Result<Option<Vec<u8>>, Fail> {
    let mut buffer = PacketBuffer::new(vec![in alloc; 0u8; PACKET_BYTES]?);
    let streams = [stream_of(VIDEO_PID)];
    let mut bytes = PassingBytes::new(alloc, &streams, 0, part)?;
    let _ = bytes.read_to(&mut buffer, source, from)?;
    bytes.pass(from);
    if !bytes.read_to(&mut buffer, source, to)? {
        return Ok(None);
    }
    match bytes.part(from, to) {
        Some(part) => Ok(Some(part.to_vec(alloc)?)),
        None => Ok(None),
    }
}

/// The same of a program stream.
fn element_part_out_of<S: Source>(
    alloc: Global,
    source: &mut S,
    part: HeldPart,
    from: u64,
    to: u64,
) -> Result<Option<Vec<u8>>, Fail> {
    let mut bytes = ElementBytes::open(alloc, source, VIDEO_ID, part)?;
    let _ = bytes.read_to(source, from)?;
    bytes.pass(from);
    if !bytes.read_to(source, to)? {
        return Ok(None);
    }
    match bytes.part(from, to) {
        Some(part) => Ok(Some(part.to_vec(alloc)?)),
        None => Ok(None),
    }
}

/// The same of a file of a form that is read so many bytes a call.
fn part_of(
    alloc: Global,
    form: Form,
    file: &[u8],
    given: u32,
    part: HeldPart,
    from: u64,
    to: u64,
) -> Result<Option<Vec<u8>>, Fail> {
    let mut inner = CalmShelf::new(alloc);
    inner.put_file("a", file)?;
    let mut shelf = ShortShelf::new(inner, given.max(1));
    let mut source = Reading::new(&mut shelf, "a");
    match form {
        Form::Packets => part_out_of(alloc, &mut source, part, from, to),
        Form::Elements => element_part_out_of(alloc, &mut source, part, from, to),
    }
}

/// True where the parts before and behind the middle are those of a whole stream, whatever a call gives, and it ends there.
fn has_parts(
    alloc: Global,
    form: Form,
    file: &[u8],
    part: HeldPart,
    whole: &[u8],
) -> Result<bool, Fail> {
    let end = whole.len() as u64;
    let middle = end / 2;
    let mut has = true;
    for given in GIVEN {
        let first = part_of(alloc, form, file, given, part, 0, middle)?;
        let second = part_of(alloc, form, file, given, part, middle, end)?;
        let more = part_of(
            alloc,
            form,
            file,
            given,
            part,
            middle,
            end.saturating_add(1),
        )?;
        has = has
            && is_part(&first, whole, 0, middle)
            && is_part(&second, whole, middle, end)
            && more.is_none();
    }
    Ok(has)
}

/// True where these bytes are those between two places.
fn is_part(part: &Option<Vec<u8>>, whole: &[u8], from: u64, to: u64) -> bool {
    match (part, whole.get(from as usize..to as usize)) {
        (Some(part), Some(other)) => part.as_slice() == other,
        (_, _) => false,
    }
}

/// PES packets, one behind the other, each without its first bytes.
fn joined(alloc: Global, packets: &[PesUnit], without: usize) -> Result<Vec<u8>, Fail> {
    let mut bytes = Vec::new(alloc);
    for packet in packets {
        bytes.extend_from_slice(packet.bytes.as_slice().get(without..).unwrap_or(&[]))?;
    }
    Ok(bytes)
}

#[test]
fn payloads_whatever_a_call_gives(rt: HostRuntime) -> Result<(), Fail> {
    let file = make_program(rt.alloc(), 1, 6)?;
    let program = demux(rt.alloc(), file.as_slice(), 1, &[])?;
    let whole = joined(rt.alloc(), program.video.as_slice(), HEADER_BYTES)?;
    assert!(rt;
        has_parts(
            rt.alloc(),
            Form::Packets,
            file.as_slice(),
            HeldPart::Payload,
            whole.as_slice()
        )?
    );
    Ok(())
}

#[test]
fn packets_whatever_a_call_gives(rt: HostRuntime) -> Result<(), Fail> {
    let file = make_program(rt.alloc(), 1, 6)?;
    let program = demux(rt.alloc(), file.as_slice(), 1, &[])?;
    let whole = joined(rt.alloc(), program.video.as_slice(), 0)?;
    assert!(rt;
        has_parts(
            rt.alloc(),
            Form::Packets,
            file.as_slice(),
            HeldPart::Packet,
            whole.as_slice()
        )?
    );
    Ok(())
}

#[test]
fn elements_whatever_a_call_gives(rt: HostRuntime) -> Result<(), Fail> {
    let transport = make_program(rt.alloc(), 1, 1)?;
    let demuxed = demux(rt.alloc(), transport.as_slice(), 1, &[])?;
    let file = in_program_stream(rt.alloc(), &demuxed)?;
    let (program, _cut) = split(rt.alloc(), file.as_slice(), &[])?;
    let payloads = joined(rt.alloc(), program.video.as_slice(), HEADER_BYTES)?;
    let packets = joined(rt.alloc(), program.video.as_slice(), 0)?;
    for (part, whole) in [
        (HeldPart::Payload, payloads.as_slice()),
        (HeldPart::Packet, packets.as_slice()),
    ] {
        assert!(rt; has_parts(rt.alloc(), Form::Elements, file.as_slice(), part, whole)?);
    }
    Ok(())
}

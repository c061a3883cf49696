ghost use Rattle.std.specs.Prelude.{◌≡◌, false, OnOk};
ghost use Rattle.bit_lists.specs.Bits.{bits_of};
ghost use Rattle.bit_cursor.specs.BitWriter.{is_stopped, AddsBits};

use crate::same::assert_same;
use bit_cursor::BitWriter;
use shelf_io::{Fault, Sink, VecSink};
use shelf_kinds::MemSink;
use std::process::Abort;
use std::test::Fail;

// What callers know of a sink once its writer was finished.
fn put_byte<K: Sink>(sink: &mut K, byte: u8) -> Result<(), Fault>
    ensures { OnOk result (AddsBits (K.written sink.old) (K.written sink.new) (bits_of 8 byte)) }
{
    let mut writer = BitWriter::new(sink);
    writer.put_bits(u32::from(byte), 8)?;
    writer.finish()
}

// Two rows of odd bits, the first filled up to a whole byte.
fn put_odd_bits<K: Sink>(sink: &mut K) -> Result<(), Fault> {
    let mut writer = BitWriter::new(sink);
    writer.put_bits(0b101, 3)?;
    writer.put_bits(1, 10)?;
    writer.align_zero()?;
    writer.put_bits(0, 0)?;
    writer.align_zero()?;
    writer.put_bits(5, 3)?;
    writer.put_bits(5121, 13)?;
    writer.finish()
}

#[test]
fn bits_stand_in_bytes_most_significant_first(rt: HostRuntime) -> Result<(), Fail> {
    let mut sink = VecSink::new(rt.alloc());
    put_odd_bits(&mut sink)?;
    assert_same(&rt, sink.bytes(), [0xa0, 0x08, 0xb4, 0x01].as_slice());
    Ok(())
}

// Odd bits and a whole word. The answer is whether the writer was stopped before its finish.
fn put_word<K: Sink>(sink: &mut K) -> Result<bool, Fault> {
    let mut writer = BitWriter::new(sink);
    writer.put_bits(0xa, 4)?;
    writer.put_bits(0xdead_beef, 32)?;
    writer.align_zero()?;
    let stopped = writer.is_stopped();
    writer.finish()?;
    Ok(stopped)
}

#[test]
fn a_whole_word_goes_behind_odd_bits(rt: HostRuntime) -> Result<(), Fail> {
    let mut sink = VecSink::new(rt.alloc());
    put_byte(&mut sink, b'x')?;
    assert_same(&rt, put_word(&mut sink), Ok(false));
    let bytes = [b'x', 0xad, 0xea, 0xdb, 0xee, 0xf0];
    assert_same(&rt, sink.bytes(), bytes.as_slice());
    Ok(())
}

// Ten bytes, which go out in three pieces.
fn put_ten(writer: &mut BitWriter<MemSink>) -> Result<(), Fault>
    requires { is_stopped writer.old ≡ false }
    ensures { OnOk result (is_stopped writer.new ≡ false) }
{
    writer.put_bits(0x0001_0203, 32)?;
    writer.put_bits(0x0405_0607, 32)?;
    writer.put_bits(0x0809, 16)
}

// Ten bytes to a sink that fails before all are put, and holds this front of them.
fn refuse_ten(rt: &impl Abort, sink: &mut MemSink, front: &[u8]) {
    let mut writer = BitWriter::new(sink);
    assert_same(rt, put_ten(&mut writer), Err(Fault::Failed));
    assert_same(rt, writer.is_stopped(), true);
    assert_same(rt, sink.bytes(), front);
}

#[test]
fn a_sink_that_fails_holds_a_front_and_stops_the_writer(rt: HostRuntime) -> Result<(), Fail> {
    let alloc = rt.alloc();
    let mut first = MemSink::new(alloc, vec![in alloc; 1]?);
    refuse_ten(&rt, &mut first, &[]);
    let mut second = MemSink::new(alloc, vec![in alloc; 2]?);
    refuse_ten(&rt, &mut second, &[0, 1, 2, 3]);
    Ok(())
}

#[test]
fn a_sink_that_fails_at_the_last_piece_refuses_the_finish(rt: HostRuntime) -> Result<(), Fail> {
    let alloc = rt.alloc();
    let mut sink = MemSink::new(alloc, vec![in alloc; 3]?);
    let mut writer = BitWriter::new(&mut sink);
    put_ten(&mut writer)?;
    writer.align_zero()?;
    assert_same(&rt, writer.finish(), Err(Fault::Failed));
    assert_same(&rt, sink.bytes(), [0, 1, 2, 3, 4, 5, 6, 7].as_slice());
    Ok(())
}

ghost use Rattle.std.specs.Prelude.{◌≡◌, IfOk, IfSome};
ghost use Rattle.shelf_io.specs.Source.{Takes};
ghost use Rattle.bit_lists.specs.Fields.{bit_list};
ghost use Rattle.bit_cursor.specs.Shown.{IsFirstNumber};

use crate::same::assert_same;
use bit_cursor::{BitFault, BitReader};
use shelf_io::{Fault, Reading, SliceSource, Source};
use shelf_kinds::MemShelf;
use std::process::Abort;
use std::test::Fail;

/// A source that gives one byte at a time, however long the buffer is.
#[derive(Drop)]
struct Slow<'a> {
    bytes: SliceSource<'a>,
}

impl<'a> Source for Slow<'a> {
    ghost use Rattle.std.specs.Prelude.{ℕ, Some, min, length, ◌^◌};
    ghost use Rattle.std.proofs.Common.{rules, arith};

    ghost left = { λ slow. Some slow.bytes };

    ghost most = { λ slow. min (length slow.bytes) (2 ^ 60) };

    ghost faults = { λ _. 0 };

    ghost absences = { λ _. 0 };

    ghost keeps = { λ _ _. Unit {0} };

    ghost most_fits = { λ slow. Prim.omega arith };

    ghost keeps_itself = { Prim.search rules };

    ghost keeps_on = { Prim.search rules };

    fn take(&mut self, buf: &mut [u8]) -> Result<usize, Fault> {
        let size = buf.len().min(1);
        self.bytes.take(&mut buf[..size])
    }
}

// The first byte, and the source with what follows it.
fn first_byte<S: Source>(source: &mut S) -> Result<u32, BitFault>
    ensures value { IfOk result (λ value. IfSome (S.left source.old) (λ bytes. IsFirstNumber 8 (bit_list bytes) value)) }
    ensures taken { IfOk result (λ _. Takes (S.left source.old) (S.left source.new) (S.most source.old) (S.most source.new) 1) }
{
    let mut reader = BitReader::new(source);
    reader.bits(8)
}

/// Reads the bytes B4 01: a look ahead moves nothing, and no bit is lost where too many are asked for.
fn read_both_bytes<S: Source>(rt: &impl Abort, source: &mut S) {
    let mut reader = BitReader::new(source);
    assert_same(rt, reader.bits(3), Ok(5));
    assert_same(rt, reader.peek(8), Ok((160, 8)));
    assert_same(rt, reader.bits(14), Err(BitFault::End));
    assert_same(rt, reader.place(), 3);
    assert_same(rt, reader.bits(13), Ok(5121));
    assert_same(rt, reader.peek(4), Ok((0, 0)));
    assert_same(rt, reader.bits(0), Ok(0));
    assert_same(rt, reader.place(), 16);
}

#[test]
fn bits_come_in_order_and_a_look_ahead_moves_nothing(rt: HostRuntime) {
    read_both_bytes(&rt, &mut SliceSource::new(&[0xB4, 0x01]));
}

#[test]
fn a_source_of_one_byte_a_call_gives_the_same(rt: HostRuntime) {
    let mut source = Slow {
        bytes: SliceSource::new(&[0xB4, 0x01]),
    };
    read_both_bytes(&rt, &mut source);
}

#[test]
fn wide_numbers_cross_bytes(rt: HostRuntime) {
    let mut source = SliceSource::new(&[
        0x9E, 0x37, 0x79, 0xB9, 0x7F, 0x4A, 0x7C, 0x15, 0xF3, 0x9C,
    ]);
    let mut reader = BitReader::new(&mut source);
    let bits = [
        reader.bits(7),
        reader.bits(32),
        reader.bits(1),
        reader.bits(25),
    ];
    assert_same(&rt, bits, [Ok(79), Ok(465_362_111), Ok(1), Ok(9_762_859)]);
    assert_same(&rt, reader.peek(24), Ok((15_153_152, 15)));
}

#[test]
fn aligning_moves_to_the_next_byte_and_stays_at_one(rt: HostRuntime) {
    let mut source = SliceSource::new(&[0xB4, 0x01, 0x47]);
    let mut reader = BitReader::new(&mut source);
    assert_same(&rt, reader.bits(3), Ok(5));
    assert_same(&rt, reader.peek(16), Ok((0xA00A, 16)));
    reader.align();
    assert_same(&rt, reader.place(), 8);
    reader.align();
    let bytes = [reader.bits(8), reader.bits(8)];
    assert_same(&rt, bytes, [Ok(1), Ok(0x47)]);
}

#[test]
fn a_source_goes_on_behind_the_bytes_that_were_asked_for(rt: HostRuntime) {
    let mut source = SliceSource::new(&[0xB4, 0x01, 0x47]);
    let bytes = [first_byte(&mut source), first_byte(&mut source)];
    assert_same(&rt, bytes, [Ok(0xB4), Ok(0x01)]);
    assert_same(&rt, source.take_byte(), Ok(Some(0x47)));
}

#[test]
fn a_file_that_fails_once_loses_no_bit(rt: HostRuntime) -> Result<(), Fail> {
    let alloc = rt.alloc();
    let mut shelf = MemShelf::new(alloc, vec![in alloc; 2]?);
    shelf.put_file("a", &[0xB4, 0x01])?;
    let mut file = Reading::new(&mut shelf, "a");
    let mut reader = BitReader::new(&mut file);
    let bits = [reader.bits(3), reader.bits(13)];
    assert_same(&rt, bits, [Ok(5), Err(BitFault::Outside(Fault::Failed))]);
    assert_same(&rt, reader.place(), 3);
    assert_same(&rt, reader.bits(13), Ok(5121));
    Ok(())
}

#[test]
fn a_file_that_is_not_held_is_missing(rt: HostRuntime) {
    let alloc = rt.alloc();
    let mut shelf = MemShelf::new(alloc, Vec::new(alloc));
    let mut file = Reading::new(&mut shelf, "a");
    let mut reader = BitReader::new(&mut file);
    assert_same(&rt, reader.peek(1), Err(Fault::Missing));
    assert_same(&rt, reader.bits(0), Ok(0));
}

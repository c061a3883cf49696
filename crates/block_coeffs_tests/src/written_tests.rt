ghost use Rattle.std.specs.Prelude.{◌≤◌, length};

use bit_cursor::{BitReader, BitWriter};
use block_coeffs::{read_block, write_block};
use shelf_io::{SliceSource, VecSink};
use std::alloc::Global;
use std::test::Fail;
use syntax_types::BlockWay;

const NON_INTRA: BlockWay = BlockWay {
    intra: false,
    luma: true,
    vlc_one: false,
};

// What is written of the block that some bytes begin with, and zero bits to a whole byte.
fn written_again(alloc: Global, way: BlockWay, bytes: &[u8]) -> Result<Vec<u8>, Fail>
    requires { length bytes.now ≤ 4 }
{
    let mut source = SliceSource::new(bytes);
    let mut reader = BitReader::new(&mut source);
    let block = read_block(&mut reader, way)?;
    let mut sink = VecSink::new(alloc);
    let mut writer = BitWriter::new(&mut sink);
    write_block(&mut writer, way, &block)?;
    writer.align_zero()?;
    writer.finish()?;
    Ok(sink.into_bytes())
}

#[test]
fn an_escape_gives_way_to_a_code_of_the_table(rt: HostRuntime) -> Result<(), Fail> {
    // 000001 000000 000000000001 10, and of it 10 10
    let bytes = written_again(rt.alloc(), NON_INTRA, &[0x04, 0x00, 0x01, 0x80])?;
    assert_eq!(rt; bytes.as_slice(), [0xa0].as_slice());
    Ok(())
}

#[test]
fn the_first_coefficient_and_the_others_have_codes_of_their_own(
    rt: HostRuntime,
) -> Result<(), Fail> {
    // 11 110 10: levels -1 and 1
    let bytes = written_again(rt.alloc(), NON_INTRA, &[0xf4])?;
    assert_eq!(rt; bytes.as_slice(), [0xf4].as_slice());
    Ok(())
}

#[test]
fn runs_and_levels_without_a_code_are_escapes(rt: HostRuntime) -> Result<(), Fail> {
    let alloc = rt.alloc();
    // 000001 000000 011111111111 10: level 2047
    let most = written_again(alloc, NON_INTRA, &[0x04, 0x07, 0xff, 0x80])?;
    assert_eq!(rt; most.as_slice(), [0x04, 0x07, 0xff, 0x80].as_slice());
    // 000001 000000 100000000001 10: level -2047
    let least = written_again(alloc, NON_INTRA, &[0x04, 0x08, 0x01, 0x80])?;
    assert_eq!(rt; least.as_slice(), [0x04, 0x08, 0x01, 0x80].as_slice());
    // 000001 111110 000000100000 10: run 62 and level 32, whose sum with 64 for each run is the end of block's symbol
    let long = written_again(alloc, NON_INTRA, &[0x07, 0xe0, 0x20, 0x80])?;
    assert_eq!(rt; long.as_slice(), [0x07, 0xe0, 0x20, 0x80].as_slice());
    Ok(())
}

#[test]
fn an_intra_block_begins_with_its_dc_coefficient(rt: HostRuntime) -> Result<(), Fail> {
    let alloc = rt.alloc();
    let mut way = BlockWay {
        intra: true,
        luma: true,
        vlc_one: false,
    };
    // 100 10: size 0
    let empty = written_again(alloc, way, &[0x90])?;
    assert_eq!(rt; empty.as_slice(), [0x90].as_slice());
    // 01 1 10 in chrominance: size 1, its bit 1
    way.luma = false;
    let chroma = written_again(alloc, way, &[0x70])?;
    assert_eq!(rt; chroma.as_slice(), [0x70].as_slice());
    // 100 101 0110 in luminance by Table B-15: level -1
    way.luma = true;
    way.vlc_one = true;
    let other = written_again(alloc, way, &[0x95, 0x80])?;
    assert_eq!(rt; other.as_slice(), [0x95, 0x80].as_slice());
    Ok(())
}

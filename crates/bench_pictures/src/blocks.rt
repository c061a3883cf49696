//! Reads the blocks of coefficients in a file, so that the reader's instructions can be counted (bench/README.md).
//!
//! The words are how the blocks are coded (`n` non-intra, `i` intra by Table B-14, `o` intra by Table B-15) and the file's
//! name. It prints how many blocks and coefficients stand there before the first bits that spell no block.
ghost use Rattle.std.specs.Prelude.{◌≤◌, ◌^◌, length};

use bit_cursor::BitReader;
use block_coeffs::read_block_into;
use shelf_io::{SliceSource, read_file};
use shelf_kinds::FileShelf;
use std::io;
use syntax_types::{Block, BlockWay};

/// The most bytes that are read of a file.
const FILE_BYTES: u64 = 1 << 30;

/// What was read.
#[derive(Clone, Copy)]
struct Counts {
    blocks: u64,
    coefficients: u64,
}

/// Does what the words say.
pub fn work(rt: &HostRuntime, words: &[String]) -> io::Result<()> {
    let [way, name] = words else {
        return println!(rt; "bench_pictures blocks n|i|o FILE");
    };
    let mut shelf = FileShelf::new(rt);
    let Ok(bytes) = read_file(rt.alloc(), &mut shelf, name.as_str(), FILE_BYTES) else {
        return println!(rt; "no such file");
    };
    let counts = count(bytes.as_slice(), way_of(way.as_str()));
    println!(rt;
        "{} blocks, {} coefficients",
        counts.blocks, counts.coefficients
    )
}

/// How blocks are coded, by the word for it.
fn way_of(word: &str) -> BlockWay {
    BlockWay {
        intra: word != "n",
        luma: true,
        vlc_one: word == "o",
    }
}

/// Reads blocks until none stands next.
fn count(bytes: &[u8], way: BlockWay) -> Counts
    requires { length bytes.now ≤ 2 ^ 60 }
{
    let mut counts = Counts {
        blocks: 0,
        coefficients: 0,
    };
    let mut source = SliceSource::new(bytes);
    let mut reader = BitReader::new(&mut source);
    let mut block = Block::default();
    for _ in 0..u64::MAX {
        if !reads_next(&mut reader, way, &mut block) {
            break;
        }
        counts.blocks = counts.blocks.wrapping_add(1);
        counts.coefficients = counts.coefficients.wrapping_add(block.pairs.len() as u64);
    }
    counts
}

/// Reads the next block, and says whether there was one. It isn't inlined, so that the block is filled as for any caller.
#[inline(never)]
fn reads_next(
    reader: &mut BitReader<'_, SliceSource<'_>>,
    way: BlockWay,
    into: &mut Block,
) -> bool {
    read_block_into(reader, way, into).is_ok()
}

//! The same unit cut behind every byte: the refusal is End, at the first bit of the element that is cut; where a start
//! code must come, at the cut, or at a prefix that is whole. Places were counted by hand.

use crate::fixtures::{GRAY, Unit, i_unit, refusal};
use picture_reader::PictureFault;

/// The place of the cut element, for cuts behind 0, 1, 2 .. bytes.
const PLACES: [u64; 48] = [
    // The sequence header's start code: three zero bytes' worth of it, and its prefix.
    0, 8, 16, 0, // width, twice; height; aspect ratio; bit rate, three times; buffer
    32, 32, 44, 56, 64, 64, 64, 83, // the extension's start code
    96, 104, 112, 96, // identifier, profile, horizontal size, bit rate, buffer, low_delay
    128, 132, 143, 147, 160, 168, // the picture's start code
    176, 184, 192, 176, // temporal reference, twice; vbv_delay, twice
    208, 208, 221, 221, // the extension's start code
    240, 248, 256, 240, // identifier, f_code, f_code, top_field_first, progressive_frame
    272, 280, 288, 296, 304, // the slice's start code
    312, 320, 328, 312, // quantiser code; DC size; end of block; DC size; DC size
    344, 352, 360, 367, 376,
];

#[test]
fn a_unit_that_is_cut_ends_at_the_cut_element(rt: HostRuntime) {
    let whole = i_unit(GRAY);
    assert!(rt; whole.len() == 48);
    for (count, at) in PLACES.iter().enumerate() {
        let mut cut = Unit::new();
        let _ = cut.try_extend_from_slice(whole.as_slice().get(..count).unwrap_or(&[]));
        let want = PictureFault::End { at: *at };
        assert_eq!(rt; refusal(rt.alloc(), &cut), Some(want), "{count} bytes");
    }
}

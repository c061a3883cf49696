use crate::fault::HeadFault;
use crate::group::read_group_header;
use crate::matrix::{LoadedWeights, read_quant_matrix_extension};
use crate::picture::{PictureHeader, read_picture_coding_extension, read_picture_header};
use crate::sequence::{read_sequence_extension, read_sequence_header};
use arrayvec::ArrayVec;
use bit_cursor::BitReader;
use shelf_io::SliceSource;
use syntax_types::{B_PICTURE, I_PICTURE, P_PICTURE, PicCoding, SeqState};

/// The bytes of bits that are printed in groups, whole bytes of them.
fn bytes_of(printed: &str) -> ArrayVec<u8, 96> {
    let mut bytes = ArrayVec::new();
    let mut byte = 0u8;
    let mut count = 0u32;
    for c in printed.bytes() {
        if c != b' ' {
            byte = byte.wrapping_mul(2).wrapping_add(u8::from(c == b'1'));
            count = count.wrapping_add(1) % 8;
            if count == 0 {
                let _ = bytes.try_push(byte);
            }
        }
    }
    bytes
}

/// A state of 32 x 16 samples, 25 pictures a second, a buffer of 112 units and flat matrices.
const BEFORE: SeqState = SeqState {
    width: 32,
    height: 16,
    rate_code: 3,
    vbv: 112,
    progressive: false,
    intra: [16; 64],
    non_intra: [16; 64],
};

fn sequence_header(printed: &str, before: Option<&SeqState>) -> Result<SeqState, HeadFault> {
    let bytes = bytes_of(printed);
    let mut source = SliceSource::new(bytes.as_slice());
    let mut reader = BitReader::new(&mut source);
    read_sequence_header(&mut reader, before)
}

fn sequence_extension(printed: &str, before: Option<&SeqState>) -> Result<bool, HeadFault> {
    let bytes = bytes_of(printed);
    let mut source = SliceSource::new(bytes.as_slice());
    let mut reader = BitReader::new(&mut source);
    read_sequence_extension(&mut reader, before)
}

fn picture_header(printed: &str) -> Result<PictureHeader, HeadFault> {
    let bytes = bytes_of(printed);
    let mut source = SliceSource::new(bytes.as_slice());
    let mut reader = BitReader::new(&mut source);
    read_picture_header(&mut reader)
}

fn coding_extension(printed: &str, progressive: bool, kind: u8) -> Result<PicCoding, HeadFault> {
    let bytes = bytes_of(printed);
    let mut source = SliceSource::new(bytes.as_slice());
    let mut reader = BitReader::new(&mut source);
    let header = PictureHeader { kind, vbv_delay: 9 };
    read_picture_coding_extension(&mut reader, progressive, header)
}

fn quant_matrices(printed: &str) -> Result<LoadedWeights, HeadFault> {
    let bytes = bytes_of(printed);
    let mut source = SliceSource::new(bytes.as_slice());
    let mut reader = BitReader::new(&mut source);
    read_quant_matrix_extension(&mut reader)
}

/// How far a group of pictures header reaches, in bits.
fn group_header_bits(printed: &str) -> u64 {
    let bytes = bytes_of(printed);
    let mut source = SliceSource::new(bytes.as_slice());
    let mut reader = BitReader::new(&mut source);
    let read = read_group_header(&mut reader).is_ok();
    if read { reader.place() } else { 0 }
}

// 32 x 16, aspect ratio 1, 25 pictures/s, any rate, a marker, a buffer of 112 units, no constraint, no matrix
const HEADER: &str = "000000100000 000000010000 0001 0011 000000000000000001 1 0001110000 0 0 0";

#[test]
fn a_sequence_header_gives_its_fields_and_the_default_matrices(rt: HostRuntime) {
    let read = sequence_header(HEADER, None);
    assert!(rt; matches!(&read, Ok(_)));
    if let Ok(seq) = read {
        assert!(rt; seq.width == 32 && seq.height == 16);
        assert!(rt; seq.rate_code == 3 && seq.vbv == 112);
        assert!(rt; seq.intra[0] == 8 && seq.intra[63] == 83);
        assert!(rt; seq.non_intra[0] == 16 && seq.non_intra[63] == 16);
    }
}

#[test]
fn each_field_of_a_sequence_header_is_refused_at_its_first_bit(rt: HostRuntime) {
    let size = |at: u64| Some(HeadFault::Size { at });
    let bad = |at: u64| Some(HeadFault::BadHeader { at });
    let end = |at: u64| Some(HeadFault::End { at });
    assert!(rt; sequence_header("000000001111 0000", None).err() == size(0));
    assert!(rt; sequence_header("001011010001 0000", None).err() == size(0));
    assert!(rt; sequence_header("000000010000 001001000001", None).err() == size(12));
    assert!(rt; sequence_header("000000010000 000000010000 0001 0000", None).err() == size(28));
    assert!(rt; sequence_header("000000010000 000000010000 0001 0110", None).err() == size(28));
    assert!(rt; sequence_header(HEADER, Some(&BEFORE)).is_ok());
    assert!(rt; sequence_header("000000010000 000000010000", Some(&BEFORE)).err() == bad(0));
    // cut within the width: only numbers below 16 begin with eight zero bits, and 4080 is past 720
    assert!(rt; sequence_header("00000000", None).err() == size(0));
    assert!(rt; sequence_header("11111111", None).err() == size(0));
    assert!(rt; sequence_header("00000001", None).err() == end(0));
    assert!(rt; sequence_header("00000010", Some(&BEFORE)).err() == end(0));
    assert!(rt; sequence_header("00000001", Some(&BEFORE)).err() == bad(0));
    assert!(rt; sequence_header("", None).err() == end(0));
}

#[test]
fn a_marker_a_buffer_and_a_weight_are_bad_headers(rt: HostRuntime) {
    let bad = |at: u64| Some(HeadFault::BadHeader { at });
    let front = "000000100000 000000010000 0001 0011 000000000000000001";
    let _ = front;
    assert!(rt;
        sequence_header(
            "000000100000 000000010000 0001 0011 000000000000000001 0 00000",
            None
        )
        .err()
            == bad(50)
    );
    assert!(rt;
        sequence_header(
            "000000100000 000000010000 0001 0011 000000000000000001 1 0000000000 000",
            None
        )
        .err()
            == bad(51)
    );
    assert!(rt;
        sequence_header(
            "000000100000 000000010000 0001 0011 000000000000000001 1 0001110001 000",
            None
        )
        .err()
            == bad(51)
    );
    assert!(rt;
        sequence_header(
            "000000100000 000000010000 0001 0011 000000000000000001 1 0001110000 0 1 00000000 0",
            None
        )
        .err()
            == bad(63)
    );
}

#[test]
fn each_field_of_a_sequence_extension_is_refused_at_its_first_bit(rt: HostRuntime) {
    assert!(rt;
        sequence_extension(
            "01001000 0 01 00 00 000000000000 1 00000000 0 00 00000 0000",
            None
        ) == Ok(false)
    );
    assert!(rt;
        sequence_extension(
            "01001000 1 01 00 00 000000000000 1 00000000 0 00 00000 0000",
            None
        ) == Ok(true)
    );
    assert!(rt; sequence_extension("01000100", None).err() == Some(HeadFault::Profile { at: 0 }));
    assert!(rt;
        sequence_extension("01001000 1 0100000", Some(&BEFORE)).err()
            == Some(HeadFault::BadHeader { at: 8 })
    );
    assert!(rt;
        sequence_extension("01001000 0 10 00000", None).err() == Some(HeadFault::Profile { at: 9 })
    );
    assert!(rt;
        sequence_extension("01001000 0 01 01 000", None).err() == Some(HeadFault::Size { at: 11 })
    );
    assert!(rt;
        sequence_extension("01001000 0 01 00 01 0", None).err() == Some(HeadFault::Size { at: 13 })
    );
    assert!(rt;
        sequence_extension("01001000 0 01 00 00 000000000000 0 0000", None).err()
            == Some(HeadFault::BadHeader { at: 27 })
    );
    assert!(rt;
        sequence_extension("01001000 0 01 00 00 000000000000 1 00000001 0000", None).err()
            == Some(HeadFault::BadHeader { at: 28 })
    );
    assert!(rt;
        sequence_extension("01001000 0 01 00 00 000000000000 1 00000000 1 000", None).err()
            == Some(HeadFault::LowDelay { at: 36 })
    );
}

#[test]
fn a_picture_header_has_f_codes_and_information_bytes(rt: HostRuntime) {
    // an I-picture; a P-picture with the f_code of MPEG-1; a B-picture with two, and an information byte
    let kind_of = |printed: &str| match picture_header(printed) {
        Ok(header) => u64::from(header.kind) * 65536 + u64::from(header.vbv_delay),
        Err(_) => 0,
    };
    assert!(rt; kind_of("0000000001 001 1111111111111111 0 00") == 65536 + 65535);
    assert!(rt; kind_of("0000000001 010 0000000000000001 0 111 0 000000") == 2 * 65536 + 1);
    assert!(rt;
        kind_of("0000000001 011 0000000000000010 0 111 0 111 1 10101010 0 0000000") == 3 * 65536 + 2
    );
    assert!(rt;
        picture_header("0000000001 000 000").err() == Some(HeadFault::BadHeader { at: 10 })
    );
    assert!(rt;
        picture_header("0000000001 100 000").err() == Some(HeadFault::BadHeader { at: 10 })
    );
    assert!(rt;
        picture_header("0000000001 001 0000000000000000 1 00").err()
            == Some(HeadFault::End { at: 30 })
    );
}

#[test]
fn a_coding_extension_is_a_frame_or_a_field(rt: HostRuntime) {
    let frame = coding_extension(
        "1111 1111 1111 1111 10 11 1 1 0 1 1 0 0 1 1 0 000000",
        false,
        I_PICTURE,
    );
    assert!(rt; matches!(&frame, Ok(_)));
    if let Ok(coding) = frame {
        assert!(rt; coding.dc_precision == 2 && coding.structure == 3);
        assert!(rt; coding.top_field_first && coding.frame_pred_frame_dct);
        assert!(rt; coding.q_scale_type && coding.intra_vlc_format);
        assert!(rt; coding.progressive_frame && coding.vbv_delay == 9);
    }
    let field = coding_extension(
        "0001 0010 1111 1111 00 01 0 0 1 0 0 1 0 0 0 0 000000",
        false,
        P_PICTURE,
    );
    assert!(rt; matches!(&field, Ok(_)));
    if let Ok(coding) = field {
        assert!(rt; coding.structure == 1 && coding.concealment && coding.alternate_scan);
        assert!(rt; coding.f_code == [[1, 2], [15, 15]]);
    }
}

#[test]
fn codes_of_another_type_and_structure_are_bad_headers(rt: HostRuntime) {
    let bad = |at: u64| Some(HeadFault::BadHeader { at });
    assert!(rt; coding_extension("0000 0001", false, P_PICTURE).err() == bad(0));
    assert!(rt; coding_extension("0001 1010", false, P_PICTURE).err() == bad(4));
    assert!(rt; coding_extension("0001 0001 0000 0001", false, B_PICTURE).err() == bad(8));
    assert!(rt;
        coding_extension("1111 1111 1111 1111 00 00 0000", false, I_PICTURE).err() == bad(18)
    );
    assert!(rt;
        coding_extension("1111 1111 1111 1111 00 01 0000", true, I_PICTURE).err() == bad(18)
    );
    assert!(rt;
        coding_extension("1111 1111 1111 1111 00 10 0 1 00", false, I_PICTURE).err() == bad(21)
    );
    assert!(rt;
        coding_extension("1111 1111 1111 1111 00 11 0 1 1 0", false, I_PICTURE).err() == bad(22)
    );
}

#[test]
fn a_group_header_isnt_compared_and_chroma_matrices_are_bad(rt: HostRuntime) {
    assert!(rt; group_header_bits("0000000000000000000000000 1 1 00000") == 27);
    assert!(rt; matches!(quant_matrices("0 0 0 0 0000"), Ok(_)));
    assert!(rt; quant_matrices("0 0 1 00000").err() == Some(HeadFault::BadHeader { at: 2 }));
    assert!(rt; quant_matrices("0 0 0 1 0000").err() == Some(HeadFault::BadHeader { at: 3 }));
}

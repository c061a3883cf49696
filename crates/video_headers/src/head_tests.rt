ghost use Rattle.std.specs.Prelude.{◌≡◌, ◌≤◌, ◌<◌, ◌^◌, ℕ, List, length, IfOk, IfErr, IsErrOf};
ghost use Rattle.std.specs.Option.{option_copied};
ghost use Rattle.bit_lists.specs.Fields.{bit_list};
ghost use Rattle.picture_grammar.specs.Head.{head};
ghost use Rattle.grammar_reading.specs.BitsRead.{ExplainsFrom};
ghost use Rattle.video_headers.specs.HeadFault.{refusal_told};
ghost use Rattle.video_headers.specs.HeadRead.{BeginsWithHead};

use crate::fault::HeadFault;
use crate::head::{HeadEnd, Headers, read_head, read_headers};
use arrayvec::ArrayVec;
use bit_cursor::BitReader;
use shelf_io::{Fault, SliceSource};
use syntax_types::SeqState;

/// 32 x 16 samples, 25 pictures a second, a buffer of 112 units, and its extension; then an I-picture that is a frame.
const HEAD: [u8; 43] = [
    0, 0, 1, 0xB3, 0x02, 0x00, 0x10, 0x13, 0x00, 0x00, 0x63, 0x80, 0, 0, 1, 0xB5, 0x14, 0x82, 0x00,
    0x01, 0x00, 0x00, 0, 0, 1, 0x00, 0x00, 0x0F, 0xFF, 0xF8, 0, 0, 1, 0xB5, 0x8F, 0xFF, 0xF3, 0xC1,
    0x80, 0, 0, 1, 1,
];

const BEFORE: SeqState = SeqState {
    width: 32,
    height: 16,
    rate_code: 3,
    vbv: 112,
    progressive: false,
    intra: [16; 64],
    non_intra: [16; 64],
};

fn head(bytes: &[u8], before: Option<&SeqState>) -> Result<HeadEnd, HeadFault> {
    let front = bytes.get(..bytes.len().min(100)).unwrap_or(&[]);
    let mut source = SliceSource::new(front);
    let mut reader = BitReader::new(&mut source);
    read_head(&mut reader, before)
}

/// The headers of a unit in memory: what its bytes spell, or how they are refused, and no fault of the outside.
fn headers_of(unit: &[u8], before: Option<&SeqState>) -> Result<Headers, HeadFault>
    requires { length unit.now ≤ 2 ^ 60 }
    ensures read { IfOk result (λ headers. (first_slice : ℕ) × (behind : List ℕ) × BeginsWithHead (option_copied before.entry) headers first_slice (bit_list unit.now) behind) }
    ensures refused { IfErr result (λ fault. ExplainsFrom (head (option_copied before.entry)) (refusal_told fault) (bit_list unit.now) 0) }
    ensures never_failed { IsErrOf result (HeadFault.Outside Fault.Failed) → ⊥ }
{
    let mut source = SliceSource::new(unit);
    read_headers(&mut source, before)
}

#[test]
fn a_head_gives_its_state_its_coding_and_its_length(rt: HostRuntime) {
    let read = head(&HEAD, None);
    assert!(rt; matches!(&read, Ok(_)));
    if let Ok(found) = read {
        assert!(rt; found.headers.slices_at == 39 && found.first_slice == 1);
        assert!(rt; found.headers.seq.width == 32 && found.headers.seq.height == 16);
        assert!(rt; found.headers.coding.kind == 1 && found.headers.coding.structure == 3);
        assert!(rt; found.headers.coding.vbv_delay == 0xFFFF);
    }
}

#[test]
fn a_later_head_may_go_without_a_sequence_header(rt: HostRuntime) {
    let picture = &HEAD[22..];
    assert!(rt; head(picture, None).err() == Some(HeadFault::BadHeader { at: 0 }));
    if let Ok(found) = head(picture, Some(&BEFORE)) {
        assert!(rt; found.headers.slices_at == 17 && found.headers.seq.intra[0] == 16);
    } else {
        assert!(rt; false);
    }
    if let Ok(found) = head(&HEAD, Some(&BEFORE)) {
        assert!(rt; found.headers.slices_at == 39 && found.headers.seq.intra[0] == 8);
    } else {
        assert!(rt; false);
    }
    let mut wider = BEFORE;
    wider.width = 48;
    assert!(rt; head(&HEAD, Some(&wider)).err() == Some(HeadFault::BadHeader { at: 32 }));
}

#[test]
fn each_wrong_code_is_refused_at_its_place(rt: HostRuntime) {
    let mut scalable = HEAD;
    scalable[16] = 0xA4;
    assert!(rt; head(&scalable, None).err() == Some(HeadFault::NotMpeg2 { at: 128 }));
    let mut no_extension = HEAD;
    no_extension[15] = 0xB8;
    assert!(rt; head(&no_extension, None).err() == Some(HeadFault::NotMpeg2 { at: 96 }));
    let mut no_code = HEAD;
    no_code[13] = 7;
    assert!(rt; head(&no_code, None).err() == Some(HeadFault::NotMpeg2 { at: 104 }));
    let mut no_slice = HEAD;
    no_slice[42] = 0xB7;
    assert!(rt; head(&no_slice, None).err() == Some(HeadFault::BadHeader { at: 312 }));
    let mut odd_bits = HEAD;
    odd_bits[38] = 0x81;
    assert!(rt; head(&odd_bits, None).err() == Some(HeadFault::BadHeader { at: 306 }));
}

/// How the head is refused whose bits from a place on are left out, but for zero bits to a whole byte: from each of these
/// places up to the next one.
const CUTS: [(usize, HeadFault); 58] = [
    (0, HeadFault::End { at: 0 }),
    (1, HeadFault::End { at: 8 }),
    (9, HeadFault::End { at: 16 }),
    (17, HeadFault::End { at: 24 }),
    (24, HeadFault::End { at: 0 }),
    (25, HeadFault::BadHeader { at: 0 }),
    (32, HeadFault::End { at: 32 }),
    (33, HeadFault::Size { at: 32 }),
    (39, HeadFault::End { at: 32 }),
    (41, HeadFault::End { at: 44 }),
    (49, HeadFault::Size { at: 44 }),
    (52, HeadFault::End { at: 56 }),
    (57, HeadFault::Size { at: 60 }),
    (63, HeadFault::End { at: 64 }),
    (81, HeadFault::BadHeader { at: 82 }),
    (83, HeadFault::End { at: 83 }),
    (89, HeadFault::End { at: 96 }),
    (97, HeadFault::End { at: 104 }),
    (105, HeadFault::End { at: 112 }),
    (113, HeadFault::End { at: 120 }),
    (120, HeadFault::End { at: 96 }),
    (121, HeadFault::NotMpeg2 { at: 96 }),
    (128, HeadFault::End { at: 128 }),
    (129, HeadFault::NotMpeg2 { at: 128 }),
    (132, HeadFault::Profile { at: 132 }),
    (134, HeadFault::End { at: 132 }),
    (137, HeadFault::Profile { at: 141 }),
    (143, HeadFault::End { at: 143 }),
    (145, HeadFault::End { at: 147 }),
    (153, HeadFault::BadHeader { at: 159 }),
    (160, HeadFault::End { at: 160 }),
    (161, HeadFault::End { at: 168 }),
    (169, HeadFault::End { at: 176 }),
    (177, HeadFault::End { at: 184 }),
    (185, HeadFault::End { at: 192 }),
    (193, HeadFault::End { at: 200 }),
    (200, HeadFault::End { at: 176 }),
    (201, HeadFault::End { at: 208 }),
    (217, HeadFault::BadHeader { at: 218 }),
    (221, HeadFault::End { at: 221 }),
    (233, HeadFault::End { at: 240 }),
    (241, HeadFault::End { at: 248 }),
    (249, HeadFault::End { at: 256 }),
    (257, HeadFault::End { at: 264 }),
    (264, HeadFault::End { at: 240 }),
    (265, HeadFault::NotMpeg2 { at: 240 }),
    (272, HeadFault::End { at: 272 }),
    (273, HeadFault::End { at: 280 }),
    (281, HeadFault::End { at: 288 }),
    (289, HeadFault::BadHeader { at: 294 }),
    (295, HeadFault::End { at: 296 }),
    (297, HeadFault::End { at: 304 }),
    (305, HeadFault::End { at: 312 }),
    (313, HeadFault::End { at: 320 }),
    (321, HeadFault::End { at: 328 }),
    (329, HeadFault::End { at: 336 }),
    (336, HeadFault::End { at: 312 }),
    (337, HeadFault::BadHeader { at: 312 }),
];

/// The answer of the table for a place.
fn answer_at(place: usize) -> HeadFault {
    let mut answer = HeadFault::End { at: 0 };
    for (from, fault) in &CUTS {
        if *from <= place {
            answer = *fault;
        }
    }
    answer
}

/// What is said of the head that is cut at a place.
fn cut_at(place: usize) -> Result<HeadEnd, HeadFault>
    requires { place < 344 }
{
    let mut bytes = HEAD;
    let count = place / 8;
    let zeros = (8 - place % 8) as u32;
    let whole = (u32::from(bytes[count]) >> zeros) << zeros;
    bytes[count] = whole as u8;
    let cut = bytes.get(..place.div_ceil(8)).unwrap_or(&[]);
    head(cut, None)
}

#[test]
fn a_head_that_is_cut_behind_any_bit_is_refused_by_the_table(rt: HostRuntime) {
    for place in 0..344usize {
        assert!(rt; cut_at(place).err() == Some(answer_at(place)));
    }
}

#[test]
fn user_data_and_zero_bytes_belong_to_the_head(rt: HostRuntime) {
    let units: [u8; 27] = [
        0, 0, 1, 0x00, 0x00, 0x0F, 0xFF, 0xF8, 0, 0, 1, 0xB5, 0x8F, 0xFF, 0xF3, 0xC1, 0x80, 0, 0,
        1, 0xB2, 0x41, 0, 0, 0, 1, 0xAF,
    ];
    if let Ok(found) = head(&units, Some(&BEFORE)) {
        assert!(rt; found.first_slice == 0xAF && found.headers.slices_at == 23);
    } else {
        assert!(rt; false);
    }
    let mut copyright = units;
    copyright[20] = 0xB5;
    assert!(rt; head(&copyright, Some(&BEFORE)).is_ok());
    copyright[21] = 0x51;
    assert!(rt; head(&copyright, Some(&BEFORE)).err() == Some(HeadFault::Profile { at: 168 }));
    copyright[21] = 0x21;
    assert!(rt; head(&copyright, Some(&BEFORE)).err() == Some(HeadFault::BadHeader { at: 168 }));
}

/// The picture of `HEAD` with an extension that loads a matrix of intra blocks: 63 weights 17, then 19.
fn with_matrix() -> ArrayVec<u8, 112> {
    let mut bytes = ArrayVec::new();
    let _ = bytes.try_extend_from_slice(&HEAD[22..39]);
    let _ = bytes.try_extend_from_slice(&[0, 0, 1, 0xB5, 0x38]);
    for _ in 0..63 {
        let _ = bytes.try_push(0x88);
    }
    let _ = bytes.try_extend_from_slice(&[0x98, 0, 0, 1, 1]);
    bytes
}

#[test]
fn the_matrix_of_an_extension_is_in_force_in_the_next_unit(rt: HostRuntime) {
    let bytes = with_matrix();
    if let Ok(first) = headers_of(bytes.as_slice(), Some(&BEFORE)) {
        assert!(rt; first.slices_at == 86 && first.seq.intra[0] == 17 && first.seq.intra[63] == 19);
        assert!(rt; first.seq.non_intra[0] == 16);
        // a unit without a sequence header, then one whose sequence header loads none
        if let Ok(second) = headers_of(&HEAD[22..], Some(&first.seq)) {
            assert!(rt; second.seq.intra[0] == 17 && second.seq.intra[63] == 19);
        } else {
            assert!(rt; false);
        }
        if let Ok(third) = headers_of(&HEAD, Some(&first.seq)) {
            assert!(rt; third.seq.intra[0] == 8 && third.seq.intra[63] == 83);
        } else {
            assert!(rt; false);
        }
    } else {
        assert!(rt; false);
    }
}

use super::*;
use std::test::Fail;

#[test]
fn a_time_code_that_looks_like_a_picture_start_code_is_passed_over(
    rt: HostRuntime,
) -> Result<(), Fail> {
    // a group of pictures header, then a picture header of an I-picture
    let mut unit = [
        0, 0, 1, 0xb8, 0, 0, 1, 0, 0, 0, 1, 0, 0x00, 0x08, 0x00, 0x00,
    ];
    assert!(rt; set_vbv_delay(&mut unit));
    assert_eq!(rt;
        unit.as_slice(),
        [
            0, 0, 1, 0xb8, 0, 0, 1, 0, 0, 0, 1, 0, 0x00, 0x0f, 0xff, 0xf8
        ]
        .as_slice()
    );
    Ok(())
}

#[test]
fn only_the_delay_changes(rt: HostRuntime) -> Result<(), Fail> {
    // a P-picture: temporal reference 1023, full_pel_forward_vector 0, forward_f_code 7
    let mut p_picture = [0, 0, 1, 0, 0xff, 0xd0, 0x00, 0x03, 0x80];
    assert!(rt; set_vbv_delay(&mut p_picture));
    assert_eq!(rt;
        p_picture.as_slice(),
        [0, 0, 1, 0, 0xff, 0xd7, 0xff, 0xfb, 0x80].as_slice()
    );
    // an I-picture with a byte of extra information, and bytes behind the header
    let mut told = [0, 0, 1, 0, 0x00, 0x08, 0x00, 0x07, 0xfc, 0, 0, 1, 0xb5];
    assert!(rt; set_vbv_delay(&mut told));
    assert_eq!(rt;
        told.as_slice(),
        [0, 0, 1, 0, 0x00, 0x0f, 0xff, 0xff, 0xfc, 0, 0, 1, 0xb5].as_slice()
    );
    Ok(())
}

#[test]
fn a_header_that_is_not_whole_stays(rt: HostRuntime) -> Result<(), Fail> {
    // cut before the last byte of extra information
    let mut cut = [0, 0, 1, 0, 0x00, 0x08, 0x00, 0x07];
    assert!(rt; !set_vbv_delay(&mut cut));
    assert_eq!(rt;
        cut.as_slice(),
        [0, 0, 1, 0, 0x00, 0x08, 0x00, 0x07].as_slice()
    );
    // a bit 1 behind the closing bit 0
    let mut odd = [0, 0, 1, 0, 0x00, 0x08, 0x00, 0x01];
    assert!(rt; !set_vbv_delay(&mut odd));
    // picture_coding_type 4
    let mut dc_picture = [0, 0, 1, 0, 0x00, 0x20, 0x00, 0x00];
    assert!(rt; !set_vbv_delay(&mut dc_picture));
    // no picture start code but within a group of pictures header
    let mut group = [0, 0, 1, 0xb8, 0, 0, 1, 0];
    assert!(rt; !set_vbv_delay(&mut group));
    Ok(())
}

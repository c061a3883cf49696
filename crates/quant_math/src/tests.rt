use super::*;

#[test]
fn scales_are_mapped_to_the_least_that_reaches(rt: HostRuntime) {
    assert_eq!(rt; scale(true, 31), 112);
    assert_eq!(rt; map_code(1, 32, false), 2);
    assert_eq!(rt; map_code(8, 24, true), 10);
    assert_eq!(rt; map_code(20, 32, false), 31);
}

#[test]
fn levels_shrink_towards_zero(rt: HostRuntime) {
    assert_eq!(rt; inverse(1, 16, 2, false), 3);
    assert_eq!(rt; coarser_level(1, 16, 2, 4, false), 0);
    assert_eq!(rt; coarser_level(-9, 16, 8, 16, false), -4);
}

#[test]
fn tables_are_in_raster_order(rt: HostRuntime) {
    assert_eq!(rt; scan(false, 2), 8);
    assert_eq!(rt; scan(true, 1), 8);
    assert_eq!(rt; default_matrix(true)[7], 34);
}

ghost use Rattle.std.specs.Prelude.{◌≡◌, ◌<◌, slice_index};
ghost use Rattle.quant_math.specs.Scans.{scan_order};

/// Raster indices in the order of the zigzag scan.
static ZIGZAG: [u8; 64] = [
    0, 1, 8, 16, 9, 2, 3, 10, 17, 24, 32, 25, 18, 11, 4, 5, 12, 19, 26, 33, 40, 48, 41, 34, 27, 20,
    13, 6, 7, 14, 21, 28, 35, 42, 49, 56, 57, 50, 43, 36, 29, 22, 15, 23, 30, 37, 44, 51, 58, 59,
    52, 45, 38, 31, 39, 46, 53, 60, 61, 54, 47, 55, 62, 63,
];

/// Raster indices in the order of the alternate scan.
static ALTERNATE: [u8; 64] = [
    0, 8, 16, 24, 1, 9, 2, 10, 17, 25, 32, 40, 48, 56, 57, 49, 41, 33, 26, 18, 3, 11, 4, 12, 19,
    27, 34, 42, 50, 58, 35, 43, 51, 59, 20, 28, 5, 13, 6, 14, 21, 29, 36, 44, 52, 60, 37, 45, 53,
    61, 22, 30, 7, 15, 23, 31, 38, 46, 54, 62, 39, 47, 55, 63,
];

/// The raster index (row * 8 + column) of a place from 0 to 63 in the zigzag or the alternate scan (ISO/IEC 13818-2,
/// 7.3, Figures 7-2 and 7-3).
pub fn scan(alternate: bool, place: u8) -> u8
    requires { place < 64 }
    ensures index { result ≡ slice_index (scan_order alternate) place }
    ensures within { result < 64 }
{
    if alternate {
        ALTERNATE[place as usize]
    } else {
        ZIGZAG[place as usize]
    }
}

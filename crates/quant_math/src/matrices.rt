ghost use Rattle.std.specs.Prelude.{◌≡◌};
ghost use Rattle.quant_math.specs.Matrices.{default_weights};

/// The default matrix of intra blocks, in raster order.
const INTRA: [u8; 64] = [
    8, 16, 19, 22, 26, 27, 29, 34, 16, 16, 22, 24, 27, 29, 34, 37, 19, 22, 26, 27, 29, 34, 34, 38,
    22, 22, 26, 27, 29, 34, 37, 40, 22, 26, 27, 29, 32, 35, 40, 48, 26, 27, 29, 32, 35, 40, 48, 58,
    26, 27, 29, 34, 38, 46, 56, 69, 27, 29, 35, 38, 46, 56, 69, 83,
];

/// Each entry of the default matrix of non-intra blocks.
const NON_INTRA_WEIGHT: u8 = 16;

/// The matrix, in raster order, of a sequence header that loads none for intra or for non-intra blocks (ISO/IEC
/// 13818-2, 6.3.11).
pub fn default_matrix(intra: bool) -> [u8; 64]
    ensures { result ≡ default_weights intra }
{
    if intra { INTRA } else { [NON_INTRA_WEIGHT; 64] }
}

ghost use Rattle.std.specs.Prelude.{◌≡◌, ℕ, ◌↔◌, List, [], ◌∷◌, ◌++◌};
ghost use Rattle.psi_tables.specs.Crc.{IsCrcOf, HasRightCrc};

use crate::remainders::remainder_of;

/// How far the first byte of a CRC stands above its end.
const FIRST_SHIFT: u32 = 24;

/// The bits of a CRC behind its first byte.
const REST: u32 = 0xFF_FFFF;

/// The CRC_32 of the bytes (ISO/IEC 13818-1, Annex A): the remainder that their bits, the first 32 inverted, leave
/// after 32 more zero bits. Of a section that ends with its CRC_32 it is 0.
pub fn crc32(bytes: &[u8]) -> u32
    ensures value { IsCrcOf result bytes.now }
    ensures only { (crc : ℕ) → IsCrcOf crc bytes.now → crc ≡ result }
    ensures zero { (result ≡ 0) ↔ HasRightCrc bytes.now }
{
    let mut crc = u32::MAX;
    for byte in bytes {
        crc = with_byte(crc, *byte);
    }
    crc
}

/// The CRC with one more byte behind.
fn with_byte(crc: u32, byte: u8) -> u32
    ensures { (bytes : List ℕ) → IsCrcOf crc bytes → IsCrcOf result (bytes ++ byte ∷ []) }
{
    let first = (crc >> FIRST_SHIFT) as u8 ^ byte;
    ((crc & REST) << 8) ^ remainder_of(first)
}

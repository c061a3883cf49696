ghost use Rattle.std.specs.Prelude.{◌≡◌, ◌≤◌, false};
ghost use Rattle.bit_cursor.specs.BitWriter.{is_stopped, Writes};
ghost use Rattle.picture_grammar.specs.Written.{written_increment};

use bit_cursor::BitWriter;
use block_coeffs::write_code;
use picture_grammar::limits;
use prefix_codes::{TableName, symbol};
use shelf_io::{Fault, Sink};

/// What macroblock_escape adds to the increment that follows (6.3.17).
pub const ESCAPE_INCREMENT: u32 = limits::ESCAPE_INCREMENT as u32;

/// Writes macroblock_address_increment with the escapes before it (6.2.5).
pub fn write_increment<K: Sink>(to: &mut BitWriter<'_, K>, increment: u32) -> Result<(), Fault>
    requires goes { is_stopped to.old ≡ false }
    requires some { 1 ≤ increment }
    ensures { Writes K.written K.faults K.keeps to.old to.new result (written_increment increment) }
{
    let mut left = increment;
    while left > ESCAPE_INCREMENT {
        write_code(to, TableName::Address, symbol::ADDRESS_ESCAPE)?;
        left -= ESCAPE_INCREMENT;
    }
    write_code(to, TableName::Address, left as u16)
}

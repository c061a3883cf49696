ghost use Rattle.std.specs.Prelude.{◌≡◌, ◌<◌, ◌≤◌, ◌^◌, List, ℕ, IsTrue, false};
ghost use Rattle.bit_cursor.specs.BitWriter.{is_stopped, Writes};
ghost use Rattle.prefix_codes.specs.TableName.{is_coefficients, code_for as bits_for};
ghost use Rattle.picture_grammar.specs.Block.{block as block_grammar, first_place};
ghost use Rattle.picture_grammar.specs.Written.{written_dc, written_escape, written_coefficient, written_coefficients, written_block};
ghost use Rattle.block_coeffs.specs.Private.Writing.{CanStand, CanFollow};

use crate::coefficient_table::table_at;
use crate::written_codes::{code_for, level_field};
use bit_cursor::BitWriter;
use picture_grammar::escape::{LEVEL_BITS, RUN_BITS};
use picture_grammar::stands::size_table;
use prefix_codes::{TableName, coefficient_code, symbol};
use shelf_io::{Fault, Sink};
use syntax_types::{Block, BlockWay, Dc, RunLevel};

/// Writes a block that some bits spell (ISO/IEC 13818-2, 6.2.6): each coefficient by the table's code where it has one,
/// else by an escape, and the end of block. A fault is the sink's own, and stops the writer.
pub fn write_block<K: Sink>(
    to: &mut BitWriter<'_, K>,
    way: BlockWay,
    block: &Block,
) -> Result<(), Fault>
    requires goes { is_stopped to.old ≡ false }
    requires spelled { (bits : List ℕ) × (rest : List ℕ) × (block_grammar way).Spells block.now bits rest }
    ensures { Writes K.written K.faults K.keeps to.old to.new result (written_block way block.now) }
{
    if let Some(dc) = block.dc {
        write_dc(to, way, dc)?;
    }
    write_coefficients(to, way, block.pairs.as_slice())
}

fn write_dc<K: Sink>(to: &mut BitWriter<'_, K>, way: BlockWay, dc: Dc) -> Result<(), Fault>
    requires goes { is_stopped to.old ≡ false }
    requires size { dc.size ≤ 32 }
    requires bits { dc.bits < 2 ^ dc.size }
    ensures { Writes K.written K.faults K.keeps to.old to.new result (written_dc way dc) }
{
    write_code(to, size_table(way), u16::from(dc.size))?;
    to.put_bits(u32::from(dc.bits), u32::from(dc.size))
}

/// Writes the code of a symbol that the table has (ISO/IEC 13818-2, 5.1, vlclbf), and nothing where it has none. A fault is
/// the sink's own, and stops the writer.
#[inline]
pub fn write_code<K: Sink>(
    to: &mut BitWriter<'_, K>,
    table: TableName,
    symbol: u16,
) -> Result<(), Fault>
    requires goes { is_stopped to.old ≡ false }
    ensures { Writes K.written K.faults K.keeps to.old to.new result (bits_for table symbol) }
{
    let code = code_for(table, symbol);
    to.put_bits(code.bits, u32::from(code.len))
}

// The coefficients from the first place on, and the end of block.
fn write_coefficients<K: Sink>(
    to: &mut BitWriter<'_, K>,
    way: BlockWay,
    pairs: &[RunLevel],
) -> Result<(), Fault>
    requires goes { is_stopped to.old ≡ false }
    requires stand { CanFollow (first_place way) pairs.now }
    ensures { Writes K.written K.faults K.keeps to.old to.new result (written_coefficients way (first_place way) pairs.now) }
{
    let mut place = u32::from(way.intra);
    let mut table = table_at(way, place);
    let later = table_at(way, 1);
    for pair in pairs {
        write_coefficient(to, table, *pair)?;
        place += u32::from(pair.run) + 1;
        table = later;
    }
    write_code(to, table, symbol::END_OF_BLOCK)
}

fn write_coefficient<K: Sink>(
    to: &mut BitWriter<'_, K>,
    table: TableName,
    pair: RunLevel,
) -> Result<(), Fault>
    requires goes { is_stopped to.old ≡ false }
    requires table { IsTrue (is_coefficients table) }
    requires stands { CanStand pair }
    ensures { Writes K.written K.faults K.keeps to.old to.new result (written_coefficient table pair) }
{
    match coefficient_code(table, pair.run, pair.level.unsigned_abs()) {
        Some(code) => {
            let sign = u32::from(pair.level < 0);
            to.put_bits(2 * code.bits + sign, u32::from(code.len) + 1)
        }
        None => write_escape(to, table, pair),
    }
}

fn write_escape<K: Sink>(
    to: &mut BitWriter<'_, K>,
    table: TableName,
    pair: RunLevel,
) -> Result<(), Fault>
    requires goes { is_stopped to.old ≡ false }
    requires stands { CanStand pair }
    ensures { Writes K.written K.faults K.keeps to.old to.new result (written_escape table pair) }
{
    write_code(to, table, symbol::ESCAPE)?;
    let run = u32::from(pair.run) << LEVEL_BITS;
    to.put_bits(run + level_field(pair.level), RUN_BITS + LEVEL_BITS)
}

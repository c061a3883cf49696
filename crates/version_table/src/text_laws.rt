//! Laws of the table text, as functions that do nothing.

ghost use Rattle.std.specs.Prelude.{◌≡◌, ◌+◌, ◌*◌, ◌≤◌, List, ℕ, length};
ghost use Rattle.version_table.specs.declared.table.Table.{Table};
ghost use Rattle.version_table.specs.Table.{IsValidTable, audio_packets_of, units_of};
ghost use Rattle.version_table.specs.Text.{IsTextTable, IsTableRead, TextReading, Holds, table_spelling};

/// Each text is read in one way: as the text of a table, or refused in a line, or refused for a limit.
pub fn some_reading()
    ensures { (text : List ℕ) → (reading : TextReading) × IsTableRead text reading }
{}

/// No text is read in two ways.
pub fn one_reading()
    ensures { (text : List ℕ) (a b : TextReading) → IsTableRead text a → IsTableRead text b → a ≡ b }
{}

/// The round trip: the spelling of a table is read as that table.
pub fn spelling_is_read()
    ensures { (table : Table) → IsTextTable table → IsTableRead (table_spelling table) (Holds table) }
{}

/// How many bytes the spelling of a valid table has at most: 212 a unit, 41 an audio packet, and 600 more.
pub fn spelling_is_short()
    ensures { (table : Table) → IsValidTable table
        → length (table_spelling table) ≤ 600 + 212 * length (units_of table) + 41 * length (audio_packets_of table) }
{}

ghost use Rattle.std.specs.Prelude.{IfSome};
ghost use Rattle.version_table.specs.Table.{IsValidTable};

use shelf_io::read_file;
use shelf_kinds::FileShelf;
use std::rt::Files;
use version_table::limits::TABLE_TEXT_MOST;
use version_table::{Table, read_table};

/// The table of a text, read once more; none where the text is none any more, or memory is wanting.
pub(crate) fn table_again<R: Files + AllocGlobal>(rt: &R, name: &str) -> Option<Table>
    ensures { IfSome result IsValidTable }
{
    let mut shelf = FileShelf::new(rt);
    let Ok(text) = read_file(rt.alloc(), &mut shelf, name, TABLE_TEXT_MOST as u64) else {
        return None;
    };
    match read_table(rt.alloc(), text.as_slice()) {
        Ok(table) => Some(table),
        Err(_) => None,
    }
}

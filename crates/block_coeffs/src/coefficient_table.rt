ghost use Rattle.std.specs.Prelude.{◌≡◌, IsTrue};
ghost use Rattle.picture_grammar.specs.Block.{coefficient_table};
ghost use Rattle.prefix_codes.specs.TableName.{is_coefficients};

use prefix_codes::TableName;
use syntax_types::BlockWay;

/// The table of the coefficient at a place, which is 0 for the first one of a non-intra block alone (7.2.2.1).
pub fn table_at(way: BlockWay, place: u32) -> TableName
    ensures table { result ≡ coefficient_table way place }
    ensures coefficients { IsTrue (is_coefficients result) }
{
    if way.intra {
        if way.vlc_one {
            TableName::CoeffOne
        } else {
            TableName::CoeffZero
        }
    } else if place == 0 {
        TableName::CoeffFirst
    } else {
        TableName::CoeffZero
    }
}

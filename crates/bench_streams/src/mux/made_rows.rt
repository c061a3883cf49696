ghost use Rattle.std.specs.Prelude.{◌≡◌, All, length, IfOk};
ghost use Rattle.bench_streams.specs.Private.Rows.{IsMade};

use list_types::{ListOf, OutOfMemory};
use slot_rule::{Sent, SlotList};
use std::alloc::Global;

/// So many slots: every fifty begin with the tables and clocks of both programs, and pieces of four streams and null packets
/// follow.
pub fn made_rows(alloc: Global, slots: u32) -> Result<SlotList, OutOfMemory>
    ensures slots { IfOk result (λ list. length list.rows ≡ list.slots) }
    ensures rows { IfOk result (λ list. All IsMade list.rows) }
{
    let mut rows = ListOf::new(alloc);
    for n in 0..slots {
        rows.push(made_row(n))?;
    }
    Ok(SlotList { slots, rows })
}

/// What stands in slot n.
fn made_row(n: u32) -> Sent
    ensures { IsMade result }
{
    match n % 50 {
        0 => Sent::Pat,
        1 => Sent::Pmt(0),
        2 => Sent::Pmt(1),
        3 => Sent::Pcr(0),
        4 => Sent::Pcr(1),
        _ => made_piece(n),
    }
}

/// What stands in a slot behind the tables: of seven slots four have video, two audio, and one a null packet.
fn made_piece(n: u32) -> Sent
    ensures { IsMade result }
{
    match n % 7 {
        0 => Sent::Null,
        1 => Sent::Audio {
            stream: 2,
            packet: n / 7,
        },
        2 => Sent::Audio {
            stream: 3,
            packet: n / 7,
        },
        rest => Sent::Video {
            stream: rest % 2,
            unit: n / 100,
            piece: n % 100 / 10,
        },
    }
}

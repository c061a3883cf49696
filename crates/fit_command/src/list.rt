//! The text of a list of slots.

ghost use Rattle.std.specs.Option.{option_map};
ghost use Rattle.std.specs.Prelude.{◌≡◌, ◌<◌, ◌≤◌, ◌↔◌, ◌∷◌, ◌++◌, [], length, IfOk, IfErr, IsTrue};
ghost use Rattle.version_table.specs.declared.limits.TheConstants.{SLOT_LEAST, SLOT_MOST};
ghost use Rattle.command_words.specs.Decimal.{IsDecimal};
ghost use Rattle.fit_command.specs.declared.limits.TheConstants.{LIST_BYTES_MOST, LIST_LINES_MOST};
ghost use Rattle.fit_command.specs.ListText.{IsListText, MayBeSlots};
ghost use Rattle.fit_command.specs.Private.ListFaults.{IsListFaultOf};
ghost use Rattle.fit_command.specs.Private.NextSlot.{IsLineEnd, IsNextNumber, IsNextSlot, Rises, seen};

use crate::limits::{LIST_BYTES_MOST, LIST_LINES_MOST};
use crate::list_fault::ListFault;
use command_words::decimal_number;
use list_types::ListOf;
use std::alloc::Global;
use version_table::limits::{SLOT_LEAST, SLOT_MOST};

/// The slots of a list, or the first line that no list has there.
pub(crate) fn read_list(alloc: Global, text: &[u8]) -> Result<ListOf<u32>, ListFault>
    ensures list { IfOk result (IsListText text.now) }
    ensures refusal { IfErr result (IsListFaultOf text.now) }
{
    if text.len() > LIST_BYTES_MOST {
        return Err(ListFault::ListSyntax(0));
    }
    if text.is_empty() {
        return Err(ListFault::ListSyntax(1));
    }
    read_lines(alloc, text)
}

/// Reads a text that is neither empty nor too long.
fn read_lines(alloc: Global, text: &[u8]) -> Result<ListOf<u32>, ListFault>
    requires some { 1 ≤ length text.now }
    requires short { length text.now ≤ LIST_BYTES_MOST }
    ensures list { IfOk result (IsListText text.now) }
    ensures refusal { IfErr result (IsListFaultOf text.now) }
{
    let mut slots = ListOf::new(alloc);
    let mut rest = text;
    while !rest.is_empty() {
        let Some((slot, behind)) = next_slot(rest, slots.as_slice()) else {
            return Err(ListFault::ListSyntax(slots.len() as u64 + 1));
        };
        slots.push(slot)?;
        rest = behind;
    }
    Ok(slots)
}

/// The slot of the line at the front, where it may stand behind these slots, and what follows the line.
fn next_slot<'a>(text: &'a [u8], before: &[u32]) -> Option<(u32, &'a [u8])>
    requires { MayBeSlots before.now }
    ensures { IsNextSlot text.now before.now (seen result) }
{
    let (number, behind) = number_line(text)?;
    if !may_follow(before, number) {
        return None;
    }
    Some((number as u32, behind))
}

/// Whether a number may stand behind these slots.
fn may_follow(before: &[u32], number: u64) -> bool
    requires { MayBeSlots before.now }
    ensures { IsTrue result ↔ MayBeSlots (before.now ++ number ∷ []) }
{
    before.len() < LIST_LINES_MOST && is_slot(number) && rises(before, number)
}

/// Whether a number may be a slot.
fn is_slot(number: u64) -> bool
    ensures { IsTrue result ↔ (SLOT_LEAST ≤ number) × (number ≤ SLOT_MOST) }
{
    SLOT_LEAST as u64 <= number && number <= SLOT_MOST as u64
}

/// Whether a number is greater than the last of these slots.
fn rises(before: &[u32], number: u64) -> bool
    ensures { IsTrue result ↔ Rises before.now number }
{
    before.is_empty() || (before[before.len() - 1] as u64) < number
}

/// The number of the line at the front, in decimal without needless leading zero, and what follows the line.
fn number_line(text: &[u8]) -> Option<(u64, &[u8])>
    ensures { IsNextNumber text.now (seen result) }
{
    let end = line_end(text)?;
    let word = &text[..end];
    let Some(number) = number_of(word) else {
        return None;
    };
    Some((number, &text[end + 1..]))
}

/// The place of the first line end.
fn line_end(text: &[u8]) -> Option<usize>
    ensures { IsLineEnd text.now result }
{
    for at in 0..text.len() {
        if text[at] == b'\n' {
            return Some(at);
        }
    }
    None
}

/// The number that bytes are in decimal.
fn number_of(word: &[u8]) -> Option<u64>
    ensures { IsDecimal word.now result }
{
    match std::str::from_utf8(word) {
        Ok(word) => decimal_number(word),
        Err(_) => None,
    }
}

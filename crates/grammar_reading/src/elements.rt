//! Numbers and flags with no rule, as elements of a grammar.
ghost use Rattle.std.specs.Prelude.{◌≡◌, ◌^◌, ◌<◌, ◌≤◌, Some, [], IfOk, OnErr, IsErrOf};
ghost use Rattle.shelf_io.specs.Counts.{Rose};
ghost use Rattle.bit_cursor.specs.BitReader.{bits_left, place, faults_of, absences_of, KeepsSource};
ghost use Rattle.picture_grammar.specs.Element.{uimsbf, one_flag};
ghost use Rattle.picture_grammar.specs.Refusal.Refusal.{End};
ghost use Rattle.grammar_reading.specs.BitsRead.{PlacedRefusal, Reads, Explains};

use bit_cursor::{BitFault, BitReader};
use shelf_io::{Fault, Source};

/// The next n bits as a number (uimsbf), n at most 32. End says that the bits end within it.
#[inline]
pub fn read_number<S: Source>(reader: &mut BitReader<S>, n: u32) -> Result<u32, BitFault>
    requires { n ≤ 32 }
    ensures read { IfOk result (λ number. Reads (uimsbf n []) number reader.old reader.new) }
    ensures below { IfOk result (λ number. number < 2 ^ n) }
    ensures end { IsErrOf result BitFault.End → Explains (uimsbf n []) reader.old (Some (record { refusal = End; at = place reader.old })) }
    ensures kept { OnErr result (bits_left reader.new ≡ bits_left reader.old) }
    ensures kept_place { OnErr result (place reader.new ≡ place reader.old) }
    ensures failed { IsErrOf result (BitFault.Outside Fault.Failed) → Rose (faults_of reader.old) (faults_of reader.new) }
    ensures missing { IsErrOf result (BitFault.Outside Fault.Missing) → Rose (absences_of reader.old) (absences_of reader.new) }
    ensures keeps { KeepsSource reader.old reader.new }
{
    reader.bits(n)
}

/// The next bit as a flag. End says that no bit is left.
#[inline]
pub fn read_flag<S: Source>(reader: &mut BitReader<S>) -> Result<bool, BitFault>
    ensures read { IfOk result (λ is_set. Reads one_flag is_set reader.old reader.new) }
    ensures end { IsErrOf result BitFault.End → Explains one_flag reader.old (Some (record { refusal = End; at = place reader.old })) }
    ensures kept { OnErr result (bits_left reader.new ≡ bits_left reader.old) }
    ensures kept_place { OnErr result (place reader.new ≡ place reader.old) }
    ensures failed { IsErrOf result (BitFault.Outside Fault.Failed) → Rose (faults_of reader.old) (faults_of reader.new) }
    ensures missing { IsErrOf result (BitFault.Outside Fault.Missing) → Rose (absences_of reader.old) (absences_of reader.new) }
    ensures keeps { KeepsSource reader.old reader.new }
{
    let bit = reader.bits(1)?;
    Ok(bit == 1)
}

ghost use Rattle.std.specs.Prelude.{◌≡◌, ◌⊎◌, map};
ghost use Rattle.std.specs.String.{string_bytes};
ghost use Rattle.command_words.specs.declared.status.Status.{Status as AnyStatus};
ghost use Rattle.command_words.specs.Command.{IsCommand};
ghost use Rattle.remux_core.specs.Outcome.{Outcome};
ghost use Rattle.shelf_io.specs.Facts.{shelf_facts, sink_facts};
ghost use Rattle.command_words.specs.Status.{code_of};

use remux_core::run;
use shelf_io::{Shelf, Sink};
use std::alloc::Global;

/// Runs a command over any shelf and sink. The exit status is the code of the status that the run ends with.
pub fn exit_status<K: Shelf, O: Sink>(
    alloc: Global,
    words: &[String],
    shelf: &mut K,
    out: &mut O,
) -> u8
    ensures code { (status : AnyStatus) × (result ≡ code_of status) × Outcome (map string_bytes words.now)
        (shelf_facts K.files K.counts K.asked K.since_fault shelf.old)
        (shelf_facts K.files K.counts K.asked K.since_fault shelf.new)
        (sink_facts O.written O.faults O.since_fault out.old)
        (sink_facts O.written O.faults O.since_fault out.new)
        status }
    ensures usage { result ≡ 2 → IsCommand (map string_bytes words.now) → ⊥ }
    ensures no_command { (IsCommand (map string_bytes words.now) → ⊥) → (result ≡ 2) ⊎ ((result ≡ 7) ⊎ (result ≡ 10)) }
{
    let status = run(alloc, words, shelf, out);
    status.code()
}

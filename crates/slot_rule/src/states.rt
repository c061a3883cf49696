ghost use Rattle.std.specs.Prelude.{◌≡◌, ◌+◌, ◌^◌, ◌<◌, ◌≤◌, [], ◌∷◌, ◌++◌, All, length, map, drop};
ghost use Rattle.arrayvec.specs.ArrayVec.{array_vec_len};
ghost use Rattle.stream_constants.specs.declared.main_level.TheConstants.{VBV_MOST};
ghost use Rattle.version_table.specs.Table.{IsValidTable};
ghost use Rattle.version_table.specs.Choice.{Fits};
ghost use Rattle.slot_rule.specs.declared.queue_items.QueueItems.TheVariants.{Units};
ghost use Rattle.slot_rule.specs.Private.Heads.{NoneGoneBefore};
ghost use Rattle.slot_rule.specs.Private.QueueItems.{IsPlace, program_at, queue_at};
ghost use Rattle.slot_rule.specs.Private.States.{AreOfStreams, ChangesEach, IsFirstState, IsPlaced, ReleasesAll, TakesPcr, places_in, places_kept, queue_of};
ghost use Rattle.slot_rule.specs.Queues.{audio_of, queues_of, video_queue};
ghost use Rattle.slot_rule.specs.Private.QueueState.{IsKind, IsSmall};

use crate::queue_items::{QueueItems, program_at};
use crate::queue_kind::QueueKind;
use crate::queue_state::QueueState;
use arrayvec::ArrayVec;
use version_table::Table;
use version_table::limits::{AUDIOS_MOST, PROGRAMS_MOST};

/// Streams of a table, at most.
pub const QUEUES_MOST: usize = PROGRAMS_MOST * (1 + AUDIOS_MOST);

/// The states of all streams, in stream order.
pub type States = ArrayVec<QueueState, QUEUES_MOST>;

/// The states of a table's streams before the first slot.
pub fn first_states(table: &Table, choice: &[u8]) -> States
    requires valid { IsValidTable table.now }
    requires fits { Fits table.now choice.now }
    ensures queues { map (queue_of table.now choice.now) result.items ≡ queues_of table.now choice.now }
    ensures places { AreOfStreams table.now result.items }
    ensures first { All (IsFirstState table.now choice.now) result.items }
{
    let mut states = States::new();
    let mut first = 0;
    for (program, row) in table.programs.as_slice().iter().enumerate() {
        add_program(table, choice, &mut states, program, first);
        first += row.units.len();
    }
    states
}

/// Adds the states of a program's streams; the number of its first unit stands at `first` in the choice.
fn add_program(table: &Table, choice: &[u8], states: &mut States, program: usize, first: usize)
    requires few { program < 256 }
    requires place { IsPlace table.now choice.now (Units program first) }
    requires vbv { (program_at table.now program).vbv ≤ VBV_MOST }
    requires room { array_vec_len states.old + (1 + length (program_at table.now program).audios) ≤ QUEUES_MOST }
    requires first { All (IsFirstState table.now choice.now) states.old.items }
    ensures queues { map (queue_of table.now choice.now) states.new.items
        ≡ map (queue_of table.now choice.now) states.old.items
        ++ (video_queue program (program_at table.now program) (drop first choice.now)
        ∷ map audio_of (program_at table.now program).audios) }
    ensures places { places_kept states.new.items ≡ places_kept states.old.items ++ places_in program first (program_at table.now program) }
    ensures first { All (IsFirstState table.now choice.now) states.new.items }
{
    let row = program_at(table, program);
    let kind = QueueKind::Video {
        program: program as u8,
        vbv: row.vbv,
    };
    add_stream(
        table,
        choice,
        states,
        kind,
        QueueItems::Units { program, first },
    );
    for audio in 0..row.audios.len() {
        add_stream(
            table,
            choice,
            states,
            QueueKind::Audio,
            QueueItems::Packets { program, audio },
        );
    }
}

fn add_stream(table: &Table, choice: &[u8], states: &mut States, kind: QueueKind, items: QueueItems)
    requires place { IsPlace table.now choice.now items }
    requires kind { kind ≡ (queue_at table.now choice.now items).kind }
    requires sized { IsKind kind }
    requires room { array_vec_len states.old < QUEUES_MOST }
    requires first { All (IsFirstState table.now choice.now) states.old.items }
    ensures queues { map (queue_of table.now choice.now) states.new.items
        ≡ map (queue_of table.now choice.now) states.old.items ++ queue_at table.now choice.now items ∷ [] }
    ensures places { places_kept states.new.items ≡ places_kept states.old.items ++ items ∷ [] }
    ensures first { All (IsFirstState table.now choice.now) states.new.items }
{
    states.push(QueueState::new(kind, items, items.first_packet(table, choice)));
}

/// Leaves out the packets that are gone at `start` ticks.
pub fn release_all(table: &Table, choice: &[u8], states: &mut [QueueState], start: u64)
    requires { All (IsPlaced table.now choice.now) states.old }
    ensures { ChangesEach (ReleasesAll table.now choice.now start) states.old states.new }
{
    for state in states.iter_mut() {
        state.release(table, choice, start);
    }
}

/// The tick before which no payload that is held is gone.
pub fn first_gone(states: &[QueueState]) -> u64
    ensures { NoneGoneBefore states.now result }
{
    let mut first = u64::MAX;
    for state in states {
        first = first.min(state.first_gone());
    }
    first
}

/// The PCR of a program goes, in a slot that begins at `now` subticks, on the PID of its video.
pub fn take_pcr(states: &mut [QueueState], program: u8, now: u64)
    requires small { All IsSmall states.old }
    requires now { now < 2 ^ 60 }
    ensures { ChangesEach (TakesPcr program now) states.old states.new }
{
    for state in states.iter_mut() {
        state.take_pcr(program, now);
    }
}

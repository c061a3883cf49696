ghost use Rattle.std.specs.Prelude.{ℕ, ◌<◌, ◌≤◌, ◌*◌, ◌^◌, All, None, length};
ghost use Rattle.stream_constants.specs.declared.clock.TheConstants.{SUBTICKS_PER_TICK};
ghost use Rattle.version_table.specs.declared.limits.TheConstants.{SLOT_LEAST};
ghost use Rattle.slot_rule.specs.Private.Heads.{IsFirstHead, PassesAt};
ghost use Rattle.slot_rule.specs.Private.QueueState.{IsReady};
ghost use Rattle.slot_rule.specs.Private.Runs.{IsIdle};
ghost use Rattle.slot_rule.specs.Private.Slots.{IsDueSoon};
ghost use Rattle.slot_rule.specs.Private.Turns.{AreTurns};

use crate::constants::MARGIN_SUBTICKS;
use crate::heads::due_head;
use crate::queue_state::QueueState;
use crate::run_state::RunState;
use stream_constants::clock::SUBTICKS_PER_TICK;

/// A slot from `n` up to `end`, before which nothing can happen from slot `n` on, where the slots are free: no head packet
/// may go, no payload is gone, and no packet is overdue.
pub fn idle_until(run: &RunState, slot: u32, n: u32, end: u32) -> u32
    requires few { length run.now.states.items < 2 ^ 32 }
    requires ready { All IsReady run.now.states.items }
    requires soon { All IsDueSoon run.now.states.items }
    requires turns { AreTurns run.now.states.items run.now.turns.items }
    requires least { SLOT_LEAST ≤ slot }
    requires order { n ≤ end }
    ensures from { n ≤ result }
    ensures upto { result ≤ end }
    ensures idle { (m : ℕ) → n ≤ m → m < result → IsIdle slot run.now m }
{
    let states = run.states.as_slice();
    let Some(head) = due_head(states, run.turns.as_slice()) else {
        return n;
    };
    let slot = u64::from(slot);
    let subticks = SUBTICKS_PER_TICK * slot;
    let overdue = (SUBTICKS_PER_TICK * head.packet.due).saturating_sub(MARGIN_SUBTICKS) / subticks;
    let until = overdue
        .min(may_go_from(states) / subticks)
        .min(run.first_gone / slot)
        .min(u64::from(end));
    n.max(until as u32)
}

/// The subtick before which no head packet may go, while no payload is released.
fn may_go_from(states: &[QueueState]) -> u64
    requires { All IsReady states.now }
    ensures { (start : ℕ) → SUBTICKS_PER_TICK * start < result → IsFirstHead (PassesAt start) states.now None }
{
    let mut from = u64::MAX;
    for state in states {
        from = from.min(state.may_go_from());
    }
    from
}

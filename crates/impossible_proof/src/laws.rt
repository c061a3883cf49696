//! Laws of windows without room, as functions that do nothing.

ghost use Rattle.std.specs.Prelude.{ℕ, List};
ghost use Rattle.version_table.specs.declared.table.Table.{Table};
ghost use Rattle.version_table.specs.Choice.{Fits};
ghost use Rattle.version_table.specs.Table.{IsValidTable};
ghost use Rattle.slot_rule.specs.Schedule.{IsScheduled};
ghost use Rattle.impossible_proof.specs.NoRoom.{HasNoRoom};

/// Where a window has no room, no choice is scheduled.
pub fn nothing_is_scheduled()
    ensures { (table : Table) (from due : ℕ) → IsValidTable table → HasNoRoom table from due
        → (choice : List ℕ) → Fits table choice → IsScheduled table choice → ⊥ }
{}

//! Laws of windows that see the buffers, as functions that do nothing.

ghost use Rattle.std.specs.Prelude.{◌≡◌, ℕ, true, List, map, Option, pos, ◌*ℤ◌, ◌≤ℤ◌};
ghost use Rattle.std.specs.List.{AllZip};
ghost use Rattle.version_table.specs.declared.table.Table.{Table};
ghost use Rattle.version_table.specs.Choice.{Fits};
ghost use Rattle.version_table.specs.Table.{IsValidTable};
ghost use Rattle.slot_rule.specs.Schedule.{IsScheduled};
ghost use Rattle.stream_constants.specs.declared.packets.TheConstants.{PAYLOAD_BYTES};
ghost use Rattle.dual_bounds.specs.declared.windows.Window.{Window};
ghost use Rattle.dual_bounds.specs.Room.{room as room_of_time};
ghost use Rattle.dual_bounds.specs.Values.{value_of_windows as value_of_time};
ghost use Rattle.buffer_windows.specs.declared.windows.BufferWindow.{BufferWindow};
ghost use Rattle.buffer_windows.specs.Bounds.{IsBoundOrNone, bound_of_buffer_windows as bound_of_windows, each_has_left};
ghost use Rattle.buffer_windows.specs.Charges.{charges, FitsBuffer, owned_units};
ghost use Rattle.buffer_windows.specs.Room.{buffer_room as room};
ghost use Rattle.buffer_windows.specs.Values.{value_of_buffer_windows as value_of_windows};
ghost use Rattle.buffer_windows.specs.Windows.{without_buffers};

/// A scheduled choice is charged no more than the window's room, whatever slots, due time and programs the window has.
pub fn windows_with_buffers_hold()
    ensures { (table : Table) (choice : List ℕ) (window : BufferWindow) → IsValidTable table → Fits table choice → IsScheduled table choice
        → pos (charges table choice window) ≤ℤ room table window }
{}

/// Each version of a scheduled choice has no more bytes than its program's elementary buffer.
pub fn versions_fit_their_buffers()
    ensures { (table : Table) (choice : List ℕ) → IsValidTable table → Fits table choice → IsScheduled table choice → AllZip FitsBuffer (owned_units table) choice }
{}

/// Weak duality: whatever windows there are, no scheduled choice that takes the versions that are fixed has less
/// distortion than the bound of their value, and none is scheduled where a unit has no version left.
pub fn buffer_windows_bound()
    ensures { (table : Table) (fixed : List (Option ℕ)) (windows : List BufferWindow) → IsValidTable table
        → IsBoundOrNone table fixed (bound_of_windows table fixed windows) }
{}

/// Windows of time, taken as windows that count no buffer, have no lesser value, a byte's parts for each of a packet's:
/// where each unit has a version that its program's elementary buffer holds.
pub fn buffers_lower_no_value()
    ensures { (table : Table) (fixed : List (Option ℕ)) (windows : List Window) → IsValidTable table → each_has_left table fixed ≡ true
        → (pos PAYLOAD_BYTES *ℤ value_of_time table fixed windows) ≤ℤ value_of_windows table fixed (map (without_buffers table.slot) windows) }
{}

/// A window of time, taken as one that counts no buffer, has no more room in bytes than its packets have.
pub fn rooms_without_buffers()
    ensures { (table : Table) (window : Window) → IsValidTable table
        → room table (without_buffers table.slot window) ≤ℤ (pos PAYLOAD_BYTES *ℤ room_of_time table window.from window.due) }
{}

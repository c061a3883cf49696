//! Laws of the slot rule, as functions that do nothing.

ghost use Rattle.std.specs.Prelude.{◌≡◌, ℕ, ◌≤◌, List, length, map, take, slice_get, Some};
ghost use Rattle.std.specs.List.{filter};
ghost use Rattle.version_table.specs.declared.table.Table.{Table};
ghost use Rattle.slot_rule.specs.declared.sent.Miss.{Miss};
ghost use Rattle.slot_rule.specs.declared.slot_list.SlotList.{SlotList};
ghost use Rattle.version_table.specs.Choice.{Fits};
ghost use Rattle.version_table.specs.Table.{IsValidTable};
ghost use Rattle.slot_rule.specs.declared.sent.Sent.{Sent};
ghost use Rattle.slot_rule.specs.Buffers.{Row};
ghost use Rattle.slot_rule.specs.Sent.{IsOfTable};
ghost use Rattle.slot_rule.specs.Schedule.{FollowRule, IsSchedule, IsScheduled, IsFirstMiss};
ghost use Rattle.slot_rule.specs.Queues.{Queue, queues_of};
ghost use Rattle.slot_rule.specs.SlotList.{IsSlotList, is_sent_of, piece_sent, slots_of};

/// A choice that is scheduled has no first miss.
pub fn no_miss_where_scheduled()
    ensures { (table : Table) (choice : List ℕ) (miss : Miss) → IsScheduled table choice → IsFirstMiss table choice miss → ⊥ }
{}

/// A table has at most one first miss under a choice.
pub fn first_miss_is_one()
    ensures { (table : Table) (choice : List ℕ) (a b : Miss) → IsFirstMiss table choice a → IsFirstMiss table choice b → a ≡ b }
{}

/// At most one list of rows of each length is a schedule of a choice, and lists that follow the rule agree as far as
/// both go.
pub fn schedules_agree()
    ensures one { (table : Table) (choice : List ℕ) (a b : List Row) → IsSchedule table choice a → IsSchedule table choice b → length a ≡ length b → a ≡ b }
    ensures fronts { (table : Table) (choice : List ℕ) (a b : List Row) → FollowRule table choice a → FollowRule table choice b → (n : ℕ) → n ≤ length a → n ≤ length b → take n a ≡ take n b }
{}

/// A table has at most one list of slots under a choice.
pub fn slot_list_is_one()
    ensures { (table : Table) (choice : List ℕ) (a b : SlotList) → IsSlotList table choice a → IsSlotList table choice b → a ≡ b }
{}

/// What stands in the slots of a schedule names programs of the table, its units and their chosen versions, and its
/// audio streams and their packets, each by a number that exists.
pub fn slots_name_the_table()
    ensures { (table : Table) (choice : List ℕ) (list : SlotList) → IsValidTable table → Fits table choice → IsSlotList table choice list
        → (n : ℕ) (sent : Sent) → slice_get list.rows n ≡ Some sent → IsOfTable table choice sent }
{}

/// The packets of a stream stand in the same slots in every schedule of a choice, however many idle slots end it.
pub fn packets_keep_slots()
    ensures { (table : Table) (choice : List ℕ) (stream : ℕ) (a b : List Row) → IsSchedule table choice a → IsSchedule table choice b → slots_of stream 0 a ≡ slots_of stream 0 b }
{}

/// The packets of each queue stand in the slots of a schedule in the queue's order, each once.
pub fn packets_stand_in_order()
    ensures { (table : Table) (choice : List ℕ) (stream : ℕ) (queue : Queue) (list : SlotList)
        → slice_get (queues_of table choice) stream ≡ Some queue → IsSlotList table choice list
        → filter (is_sent_of stream) list.rows ≡ map (piece_sent queue.kind stream) queue.packets }
{}

//! Laws of a schedule's packets in the decoder, as functions that do nothing.

ghost use Rattle.std.specs.Prelude.{ℕ, ◌≡◌, ◌+◌, ◌*◌, ◌≤◌, List, [], length, slice_get, Some};
ghost use Rattle.slot_rule.specs.Buffers.{mb_work, slot_subticks};
ghost use Rattle.version_table.specs.declared.table.Table.{Table};
ghost use Rattle.version_table.specs.Choice.{Fits};
ghost use Rattle.version_table.specs.Table.{IsValidTable};
ghost use Rattle.slot_rule.specs.Queues.{queues_of};
ghost use Rattle.slot_rule.specs.declared.queue_kind.QueueKind.{QueueKind};
ghost use Rattle.slot_rule.specs.declared.queued_packet.QueuedPacket.{QueuedPacket};
ghost use Rattle.slot_rule.specs.declared.row.Row.{Row};
ghost use Rattle.slot_rule.specs.Schedule.{FollowRule, IsSchedule};
ghost use Rattle.tstd_model.specs.Decoder.{IsOverfull, audio_buffer, bytes_in, elementary_buffer, transport_buffer};
ghost use Rattle.tstd_model.specs.Faults.{HeldPastLimit, IsFault};
ghost use Rattle.tstd_model.specs.declared.decoder_input.Arrival.{Arrival};
ghost use Rattle.tstd_model.specs.declared.decoder_input.BufferKind.TheVariants.{Audio as AudioBuffers, System as SystemBuffers, Video as VideoBuffers};
ghost use Rattle.tstd_model.specs.declared.decoder_input.Removal.{Removal};
ghost use Rattle.tstd_model.specs.declared.fault.TstdFault.{TstdFault};
ghost use Rattle.slot_rule.specs.declared.queue_kind.QueueKind.TheVariants.{Audio, Video};
ghost use Rattle.tstd_bridge.specs.Arrivals.{Headers, buffers_of, arrivals_from};
ghost use Rattle.tstd_bridge.specs.Clean.{AreClean};
ghost use Rattle.tstd_bridge.specs.Mb.{free_running_mb, mb_delay};
ghost use Rattle.tstd_bridge.specs.Removals.{AreWithin, IsAllowed, LeaveData, removals_when_wanted};
ghost use Rattle.tstd_bridge.specs.Sections.{sections_from};

/// The transport buffer of an elementary stream is never over its size, where the rows follow the slot rule: its
/// packets, and the PCR packets on the PID of a video stream, find little enough there.
pub fn transport_buffers_hold()
    ensures { (table : Table) (choice : List ℕ) (rows : List Row) (stream : ℕ) (kind : QueueKind) (packets : List QueuedPacket) (headers : Headers) (at : ℕ)
        → IsValidTable table → FollowRule table choice rows
        → slice_get (queues_of table choice) stream ≡ Some (record { kind = kind; packets = packets })
        → IsOverfull (transport_buffer table.slot (buffers_of kind) (arrivals_from 0 stream kind headers rows)) at → ⊥ }
{}

/// The main buffer of an audio stream is never over its size, where the rows follow the slot rule and each byte is removed
/// by the time at which its packet is gone.
pub fn audio_buffers_hold()
    ensures { (table : Table) (choice : List ℕ) (rows : List Row) (stream : ℕ) (packets : List QueuedPacket) (headers : Headers) (removals : List Removal) (at : ℕ)
        → IsValidTable table → Fits table choice → FollowRule table choice rows
        → slice_get (queues_of table choice) stream ≡ Some (record { kind = Audio; packets = packets })
        → AreWithin headers packets → IsAllowed Audio headers packets removals
        → IsOverfull (audio_buffer table.slot (arrivals_from 0 stream Audio headers rows) removals) at → ⊥ }
{}

/// The elementary buffer of a video stream is never over its size, whatever comes and is removed: a byte moves into it only
/// where there is room.
pub fn elementary_buffers_hold()
    ensures { (slot vbv : ℕ) (arrivals : List Arrival) (removals : List Removal) (at : ℕ) → IsOverfull (elementary_buffer slot vbv arrivals removals) at → ⊥ }
{}

/// The decoder of an audio stream has no fault under a schedule: no buffer overflows, each byte is in the main buffer before
/// it is removed, and none is held longer than a second.
pub fn audio_streams_are_clean()
    ensures { (table : Table) (choice : List ℕ) (rows : List Row) (stream : ℕ) (packets : List QueuedPacket) (headers : Headers) (removals : List Removal) (fault : TstdFault)
        → IsValidTable table → Fits table choice → IsSchedule table choice rows
        → slice_get (queues_of table choice) stream ≡ Some (record { kind = Audio; packets = packets })
        → AreWithin headers packets → IsAllowed Audio headers packets removals
        → IsFault table.slot AudioBuffers (arrivals_from 0 stream Audio headers rows) removals fault → ⊥ }
{}

/// No byte of a video stream is held longer than a second under a schedule.
pub fn video_is_not_held_long()
    ensures { (table : Table) (choice : List ℕ) (rows : List Row) (stream program vbv : ℕ) (packets : List QueuedPacket) (headers : Headers) (removals : List Removal) (at : ℕ)
        → IsValidTable table → Fits table choice → IsSchedule table choice rows
        → slice_get (queues_of table choice) stream ≡ Some (record { kind = Video program vbv; packets = packets })
        → AreWithin headers packets → IsAllowed (Video program vbv) headers packets removals
        → HeldPastLimit table.slot (VideoBuffers vbv) (arrivals_from 0 stream (Video program vbv) headers rows) removals at → ⊥ }
{}

/// The decoder of a video stream has no fault under a schedule: no buffer overflows, each byte is in EB before it is removed,
/// and none is held longer than a second.
pub fn video_streams_are_clean()
    ensures { (table : Table) (choice : List ℕ) (rows : List Row) (stream program vbv : ℕ) (packets : List QueuedPacket) (headers : Headers) (removals : List Removal) (fault : TstdFault)
        → IsValidTable table → Fits table choice → IsSchedule table choice rows
        → slice_get (queues_of table choice) stream ≡ Some (record { kind = Video program vbv; packets = packets })
        → LeaveData headers packets → IsAllowed (Video program vbv) headers packets removals
        → IsFault table.slot (VideoBuffers vbv) (arrivals_from 0 stream (Video program vbv) headers rows) removals fault → ⊥ }
{}

/// There are allowed removals of each stream: those that take each packet's bytes when they are wanted.
pub fn removals_when_wanted_are_allowed()
    ensures { (table : Table) (choice : List ℕ) (stream : ℕ) (kind : QueueKind) (packets : List QueuedPacket) (headers : Headers)
        → IsValidTable table → Fits table choice
        → slice_get (queues_of table choice) stream ≡ Some (record { kind = kind; packets = packets })
        → IsAllowed kind headers packets (removals_when_wanted kind headers packets) }
{}

/// If EB always had room and PES headers took as long as data, MB of a video stream would be empty 3,564,480 subticks after
/// the end of the last row and the work that the slot rule counts there, at the latest.
pub fn free_running_mb_is_empty_soon()
    ensures { (table : Table) (choice : List ℕ) (rows : List Row) (stream program vbv : ℕ) (packets : List QueuedPacket) (headers : Headers) (at : ℕ)
        → IsValidTable table → Fits table choice → FollowRule table choice rows
        → slice_get (queues_of table choice) stream ≡ Some (record { kind = Video program vbv; packets = packets })
        → AreWithin headers packets
        → length rows * slot_subticks table.slot + mb_work table.slot stream rows + mb_delay ≤ at
        → bytes_in (free_running_mb table.slot vbv (arrivals_from 0 stream (Video program vbv) headers rows)) at ≡ 0 }
{}

/// If EB always had room and PES headers took as long as data, MB of a video stream would never be over its size.
pub fn free_running_mb_holds()
    ensures { (table : Table) (choice : List ℕ) (rows : List Row) (stream program vbv : ℕ) (packets : List QueuedPacket) (headers : Headers) (at : ℕ)
        → IsValidTable table → Fits table choice → FollowRule table choice rows
        → slice_get (queues_of table choice) stream ≡ Some (record { kind = Video program vbv; packets = packets })
        → AreWithin headers packets
        → IsOverfull (free_running_mb table.slot vbv (arrivals_from 0 stream (Video program vbv) headers rows)) at → ⊥ }
{}

/// The decoder of a program's sections, the PAT and the program's PMT, has no fault where the rows follow the slot rule: neither
/// its transport buffer nor its main buffer overflows.
pub fn sections_are_clean()
    ensures { (table : Table) (choice : List ℕ) (rows : List Row) (program : ℕ) (fault : TstdFault)
        → IsValidTable table → FollowRule table choice rows
        → IsFault table.slot SystemBuffers (sections_from 0 program rows) [] fault → ⊥ }
{}

/// No decoder has a fault under a schedule: a scheduled choice is clean.
pub fn schedules_are_clean()
    ensures { (table : Table) (choice : List ℕ) (rows : List Row) → IsValidTable table → Fits table choice → IsSchedule table choice rows → AreClean table choice rows }
{}

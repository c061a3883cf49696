ghost use Rattle.std.specs.Prelude.{◌≡◌, ℕ, ◌+◌, ◌<◌, ◌≤◌, [], length, drop, Some, None, slice_get, slice_index, slice_index_or};
ghost use Rattle.version_table.specs.declared.table.Unit.{Unit as CodedUnit};
ghost use Rattle.version_table.specs.Choice.{HasVersion, version_at};
ghost use Rattle.slot_rule.specs.Queues.{unit_packets, video_queue, audio_of};
ghost use Rattle.slot_rule.specs.Private.QueueItems.{HasSizes, IsPlace, program_at};
ghost use Rattle.slot_rule.specs.Private.QueueState.{IsNumbered, packets_at};

use crate::queued_packet::QueuedPacket;
use stream_constants::packets::PAYLOAD_BYTES;
use version_table::{AudioPacket, ProgramRow, Table, Unit};

/// Where the packets of a stream stand in a table and a choice.
#[derive(Clone, Copy)]
pub enum QueueItems {
    /// The units of a program; the number of the first of them stands at `first` in the choice.
    Units { program: usize, first: usize },
    /// The packets of an audio stream of a program.
    Packets { program: usize, audio: usize },
}

impl QueueItems {
    /// The first packet of the stream; none where it has none.
    pub fn first_packet(self, table: &Table, choice: &[u8]) -> Option<QueuedPacket>
        requires { IsPlace table.now choice.now self }
        ensures { result ≡ slice_get (packets_at table.now choice.now self) 0 }
    {
        match self {
            QueueItems::Units { program, first } => {
                unit_packet(
                    program_at(table, program),
                    versions_from(choice, first),
                    0,
                    0,
                )
            }
            QueueItems::Packets { program, audio } => audio_packet(
                audio_at(table, program, audio),
                0,
            ),
        }
    }

    /// The packet of the stream after this one; none where it is the last.
    pub fn packet_after(
        self,
        table: &Table,
        choice: &[u8],
        packet: QueuedPacket,
    ) -> Option<QueuedPacket>
        requires place { IsPlace table.now choice.now self }
        requires numbered { IsNumbered packet }
        ensures { (k : ℕ) → slice_get (packets_at table.now choice.now self) k ≡ Some packet
            → result ≡ slice_get (packets_at table.now choice.now self) (k + 1) }
    {
        match self {
            QueueItems::Units { program, first } => {
                piece_after(
                    program_at(table, program),
                    versions_from(choice, first),
                    packet,
                )
            }
            QueueItems::Packets { program, audio } => {
                audio_packet(audio_at(table, program, audio), packet.item + 1)
            }
        }
    }
}

/// The program of this number.
pub fn program_at(table: &Table, program: usize) -> &ProgramRow
    requires { program < length table.now.programs }
    ensures { result.now ≡ program_at table.now program }
{
    &table.programs.as_slice()[program]
}

/// The packets of an audio stream of a program.
fn audio_at(table: &Table, program: usize, audio: usize) -> &[AudioPacket]
    requires program { program < length table.now.programs }
    requires audio { audio < length (program_at table.now program).audios }
    ensures { result.now ≡ slice_index_or (program_at table.now program).audios audio [] }
{
    program_at(table, program).audios.as_slice()[audio].as_slice()
}

/// The numbers of a choice from a place on.
fn versions_from(choice: &[u8], first: usize) -> &[u8]
    requires { first ≤ length choice.now }
    ensures { result.now ≡ drop first choice.now }
{
    &choice[first..]
}

/// The packet after this one in a program's video, whose units have these version numbers.
fn piece_after(row: &ProgramRow, versions: &[u8], packet: QueuedPacket) -> Option<QueuedPacket>
    requires versions { HasSizes row.now.units versions.now }
    requires numbered { IsNumbered packet }
    ensures { (k : ℕ) → slice_get (video_queue 0 row.now versions.now).packets k ≡ Some packet
        → result ≡ slice_get (video_queue 0 row.now versions.now).packets (k + 1) }
{
    match unit_packet(row, versions, packet.item, packet.piece + 1) {
        Some(next) => Some(next),
        None => unit_packet(row, versions, packet.item + 1, 0),
    }
}

/// A piece of a unit of a program's video, whose units have these version numbers; none where there is none.
fn unit_packet(row: &ProgramRow, versions: &[u8], item: u32, piece: u32) -> Option<QueuedPacket>
    requires { HasSizes row.now.units versions.now }
    ensures missing { length row.now.units ≤ item → result ≡ None }
    ensures found { (unit : CodedUnit) → slice_get row.now.units item ≡ Some unit
        → result ≡ slice_get (unit_packets item unit.due (version_at unit (slice_index versions.now item)).bytes) piece }
{
    let place = item as usize;
    let unit = row.units.as_slice().get(place)?;
    piece_of(unit, versions[place], item, piece)
}

/// A piece of a unit in a version; none where it has fewer.
fn piece_of(unit: &Unit, version: u8, item: u32, piece: u32) -> Option<QueuedPacket>
    requires version { HasVersion unit.now version }
    requires some_bytes { 1 ≤ (version_at unit.now version).bytes }
    ensures { result ≡ slice_get (unit_packets item unit.now.due (version_at unit.now version).bytes) piece }
{
    let bytes = u64::from(unit.versions[usize::from(version)].bytes);
    let full = PAYLOAD_BYTES as u64;
    let before = full * u64::from(piece);
    if bytes <= before {
        return None;
    }
    Some(QueuedPacket {
        item,
        piece,
        payload: full.min(bytes - before),
        due: unit.due,
        gone: unit.due,
    })
}

/// A packet of an audio stream; none where it has fewer.
fn audio_packet(packets: &[AudioPacket], item: u32) -> Option<QueuedPacket>
    ensures { result ≡ slice_get (audio_of packets.now).packets item }
{
    let packet = packets.get(item as usize)?;
    Some(QueuedPacket {
        item,
        piece: 0,
        payload: u64::from(packet.bytes),
        due: packet.due,
        gone: packet.gone,
    })
}

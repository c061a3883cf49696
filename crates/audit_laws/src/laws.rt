//! What an audit finds on a stream, part by part, as functions that do nothing.
ghost use Rattle.std.specs.Prelude.{◌≡◌, ℕ, ◌<◌, All, List, [], Option, Some, None, length, map};
ghost use Rattle.ts_packets.specs.Packet.{PacketRecord};
ghost use Rattle.ts_packets.specs.TransportStream.{packets};
ghost use Rattle.ts_packets.specs.Carried.{payloads_on};
ghost use Rattle.pcr_writer.specs.declared.pcr.TheConstants.{PCR_MODULUS};
ghost use Rattle.tstd_model.specs.declared.decoder_input.Arrival.{Arrival};
ghost use Rattle.tstd_model.specs.declared.decoder_input.BufferKind.TheVariants.{Audio, System};
ghost use Rattle.tstd_model.specs.declared.decoder_input.Removal.{Removal};
ghost use Rattle.tstd_model.specs.declared.fault.TstdFault.{TstdFault};
ghost use Rattle.tstd_model.specs.Faults.{IsFault};
ghost use Rattle.ts_demux.specs.declared.demuxed.AudioStream.{AudioStream};
ghost use Rattle.ts_demux.specs.declared.demuxed.PesUnit.{PesUnit};
ghost use Rattle.ts_demux.specs.PidPlaces.{places_on};
ghost use Rattle.ts_demux.specs.Tables.{pat_pid};
ghost use Rattle.elementary_streams.specs.Packets.{joined};
ghost use Rattle.es_units.specs.Units.{first_sequence};
ghost use Rattle.version_table.specs.declared.table.AudioPacket.{AudioPacket};
ghost use Rattle.version_table.specs.declared.table.ProgramRow.{ProgramRow};
ghost use Rattle.slot_rule.specs.Queues.{audio_of, video_queue};
ghost use Rattle.layer_laws.specs.Counted.{AreCounted};
ghost use Rattle.stream_audit.specs.declared.audited_stream.AuditedStream.{AuditedStream};
ghost use Rattle.stream_audit.specs.declared.finding.Finding.{Finding};
ghost use Rattle.stream_audit.specs.declared.kept_units.KeptUnits.{KeptUnits};
ghost use Rattle.stream_audit.specs.Clock.{clock_of, first_off};
ghost use Rattle.stream_audit.specs.Findings.{FindsOn};
ghost use Rattle.stream_audit.specs.Streams.{IsAudioStream, IsVideoStream, system_stream};
ghost use Rattle.clean_laws.specs.Arrivals.{header_bytes, section_arrivals};
ghost use Rattle.clean_laws.specs.Clean.{IsCleanOn};
ghost use Rattle.time_laws.specs.Clock.{IsClock};
ghost use Rattle.audit_laws.specs.Carried.{CarriesAudio, CarriesVideo};
ghost use Rattle.audit_laws.specs.Found.{IsFullAtMost};
ghost use Rattle.audit_laws.specs.Headers.{HaveNoLessHeaders};
ghost use Rattle.audit_laws.specs.Kept.{AreKeptOf, IsBegun};

use elementary_streams::laws::one_answer;
use layer_laws::packets::{counted_payloads_are_carried, packets_stand_in_order};

/// Where the packets of a PID are counted and their PCRs are those of one clock, an audit reads this clock, and finds no reference off.
pub fn clock_is_read()
    ensures zero { (file : List ℕ) (list : List PacketRecord) (slot pid base : ℕ) → packets file ≡ map Some list → AreCounted pid list → IsClock list slot pid base
        → clock_of slot (places_on file pid) ≡ Some base }
    ensures off { (file : List ℕ) (list : List PacketRecord) (slot pid base : ℕ) → packets file ≡ map Some list → AreCounted pid list → IsClock list slot pid base
        → first_off slot base (places_on file pid) ≡ None }
{
    packets_stand_in_order();
    counted_payloads_are_carried();
}

/// Where the packets of PID 0 and of a map's PID are counted and bring no fault to the decoder of these sections, an audit finds none on them.
pub fn sections_are_clean()
    ensures { (file : List ℕ) (list : List PacketRecord) (slot map_pid : ℕ) (found : Option Finding) → packets file ≡ map Some list → AreCounted pat_pid list → AreCounted map_pid list
        → ((fault : TstdFault) → IsFault slot System (section_arrivals map_pid list) [] fault → ⊥) → FindsOn slot (system_stream file map_pid) found → IsFullAtMost found }
{
    packets_stand_in_order();
    counted_payloads_are_carried();
}

/// A video that is clean by the times that its stream carries has no fault in an audit that is handed its units: what comes to its decoder and what is removed
/// from it are the same bytes at the same instants. It needs data behind each PES header in the packet that the header begins in, and a sequence header at the
/// video's first byte.
pub fn video_is_clean()
    ensures { (file : List ℕ) (list : List PacketRecord) (slot pid program base : ℕ) (row : ProgramRow) (choice : List ℕ) (pes : List PesUnit) (times : List ℕ) (kept : KeptUnits)
        (stream : AuditedStream) (found : Option Finding)
        → CarriesVideo file list pid row choice pes times → IsCleanOn slot pid (video_queue program row choice) list
        → All (λ payload. header_bytes payload < length payload.bytes) (payloads_on pid list) → first_sequence (joined pes) ≡ Some 0
        → base < PCR_MODULUS → AreKeptOf base pes times row.vbv kept
        → IsVideoStream file base kept pid pes stream → FindsOn slot stream found → IsFullAtMost found }
{
    packets_stand_in_order();
    counted_payloads_are_carried();
}

/// An audio stream that is clean by the times that its stream carries has no fault in an audit that is handed the units of the program's video, as these begin:
/// no less of what comes to its decoder is PES header, and each byte is removed with its frame, between the times at which its packet is wanted and gone.
pub fn audio_is_clean()
    ensures { (file : List ℕ) (list : List PacketRecord) (slot base begin at : ℕ) (audio : AudioStream) (rows : List AudioPacket) (kept : KeptUnits) (stream : AuditedStream)
        (found : Option Finding) → CarriesAudio file list audio begin at rows → IsCleanOn slot audio.pid (audio_of rows) list → IsBegun base kept begin at
        → IsAudioStream file base kept audio stream → FindsOn slot stream found → IsFullAtMost found }
{
    packets_stand_in_order();
    counted_payloads_are_carried();
    one_answer();
}

/// An audio decoder has no fault more where more bytes of the payloads that come to it are PES headers: an audit counts what a header has left for the next
/// packet as header, a stream is clean with it counted as data.
pub fn more_headers_bring_no_fault()
    ensures { (slot : ℕ) (more fewer : List Arrival) (removals : List Removal) (fault : TstdFault) → HaveNoLessHeaders more fewer
        → IsFault slot Audio more removals fault → IsFault slot Audio fewer removals fault }
{}

ghost use Rattle.std.specs.Prelude.{◌≡◌, ℕ, ◌-◌, ◌≤◌, List, [], ◌∷◌, ◌++◌, length, take, drop, Option, Some, None, option_and_then, IfOk, OnOk, IsSome, if◌then◌else◌};
ghost use Rattle.std.specs.Option.{option_map};
ghost use Rattle.std.specs.Result.{result_err};
ghost use Rattle.bit_lists.specs.Payload.{CarriedPayload, is_start};
ghost use Rattle.pes_units.specs.PesHeader.{pes_fields_of, header_of, header_length};
ghost use Rattle.pes_units.specs.PesPackets.{Gathered, gathered, packet_refusal, last_refusal, is_dropped};
ghost use Rattle.pes_walk.specs.declared.walk.TheConstants.{FRONT_BYTES};

use list_types::OutOfMemory;
use pes_units::{PesFault, PesHeader};
use std::alloc::Global;

/// How many bytes of a PES packet are kept: all of the longest one that states its length, 6 and 65,535, and one more, by which a
/// longer one is told from it.
pub const FRONT_BYTES: usize = 65_542;

/// The byte of a header that says how many bytes of it follow.
const HEADER_DATA_LENGTH_AT: usize = 8;

/// The PES packets of one stream, while the payloads that carry them pass.
#[derive(Drop)]
pub struct PesWalk {
    video: bool,
    /// Where the open packet begins, once one has begun.
    begun: Option<u64>,
    /// Its first bytes.
    front: Vec<u8>,
}

impl PesWalk {
    ghost use Rattle.pes_walk.specs.Walk.{HasWalked, carried_as, closed_behind, open_behind, is_video, all_data, kept_data};

    /// A walk over the payloads of a video stream, or else of an audio stream, before the first one.
    pub fn new(alloc: Global, video: bool) -> PesWalk
        ensures walked { HasWalked [] [] None result }
        ensures video { is_video result ≡ video }
    {
        PesWalk {
            video,
            begun: None,
            front: Vec::new(alloc),
        }
    }

    /// Adds the next payload, of the transport packet at a place of the file, and answers those of its bytes that stand behind
    /// the header of a PES packet. One that begins in it ends the open one. An error is want of memory.
    pub fn add<'a>(
        &mut self,
        at: u64,
        start: bool,
        payload: &'a [u8],
    ) -> Result<&'a [u8], OutOfMemory>
        ensures walked { (carried : List CarriedPayload) (closed : List Gathered) (last : Option Gathered) → HasWalked carried closed last self.old →
            IfOk result (λ bytes. HasWalked (carried ++ carried_as at start payload.now ∷ []) (closed_behind closed last (carried_as at start payload.now)) (open_behind last (carried_as at start payload.now)) self.new) }
        ensures behind { (carried : List CarriedPayload) (closed : List Gathered) (last : Option Gathered) → HasWalked carried closed last self.old →
            IfOk result (λ bytes. all_data (gathered (carried ++ carried_as at start payload.now ∷ [])) ≡ all_data (gathered carried) ++ bytes.now) }
        ensures video { is_video self.new ≡ is_video self.old }
    {
        self.turn(at, begins(start, payload));
        let before = self.front.len();
        self.go_on(payload)?;
        Ok(self.data_in(before, payload))
    }

    /// Ends the open PES packet where another one begins.
    fn turn(&mut self, at: u64, begins: bool)
        ensures begun { self.new.begun ≡ (if begins then Some at else self.old.begun) }
        ensures front { self.new.front.items ≡ (if begins then [] else self.old.front.items) }
        ensures video { self.new.video ≡ self.old.video }
    {
        if begins {
            self.begun = Some(at);
            self.front.clear();
        }
    }

    /// Goes on with the open PES packet, where one has begun: keeps those of its next bytes that are among its first ones.
    fn go_on(&mut self, bytes: &[u8]) -> Result<(), OutOfMemory>
        ensures begun { self.new.begun ≡ self.old.begun }
        ensures none { self.old.begun ≡ None → self.new.front.items ≡ self.old.front.items }
        ensures front { IsSome self.old.begun → OnOk result (length self.old.front.items ≤ FRONT_BYTES → self.new.front.items ≡ take FRONT_BYTES (self.old.front.items ++ bytes.now)) }
        ensures video { self.new.video ≡ self.old.video }
    {
        if self.begun.is_none() {
            return Ok(());
        }
        let room = FRONT_BYTES.saturating_sub(self.front.len());
        self.front
            .extend_from_slice(&bytes[..bytes.len().min(room)])?;
        Ok(())
    }

    /// Those bytes of the last payload that stand behind the open packet's header, of which so many had come before.
    fn data_in<'a>(&self, before: usize, payload: &'a [u8]) -> &'a [u8]
        ensures none { self.now.begun ≡ None → result.now ≡ [] }
        ensures some { IsSome self.now.begun → result.now ≡ drop (header_length self.now.front.items - before) payload.now }
    {
        let Some(_) = self.begun else {
            return &[];
        };
        let rest = header_bytes(self.front.as_slice()).saturating_sub(before);
        &payload[rest.min(payload.len())..]
    }

    /// The place of the open packet.
    pub fn place(&self) -> Option<u64>
        ensures { (carried : List CarriedPayload) (closed : List Gathered) (last : Option Gathered) → HasWalked carried closed last self.now → result ≡ option_map (λ packet. packet.at) last }
    {
        self.begun
    }

    /// The header of the open packet as soon as it is certain: where it has no fault and a byte follows it.
    pub fn header(&self) -> Option<PesHeader>
        ensures { (carried : List CarriedPayload) (closed : List Gathered) (last : Option Gathered) → HasWalked carried closed last self.now →
            result ≡ option_and_then (λ packet. header_of (is_video self.now) packet.bytes) last }
    {
        let Some(_) = self.begun else {
            return None;
        };
        match PesHeader::read(self.front.as_slice(), self.video) {
            Ok(header) => Some(header),
            Err(_) => None,
        }
    }

    /// The header of the open packet where another one begins behind it. An error is the packet's first fault.
    pub fn whole(&self) -> Result<Option<PesHeader>, PesFault>
        ensures fault { (carried : List CarriedPayload) (closed : List Gathered) (last : Option Gathered) → HasWalked carried closed last self.now →
            result_err result ≡ option_and_then (λ packet. packet_refusal (is_video self.now) packet.bytes) last }
        ensures header { (carried : List CarriedPayload) (closed : List Gathered) (last : Option Gathered) → HasWalked carried closed last self.now →
            IfOk result (λ header. header ≡ option_map (λ packet. pes_fields_of packet.bytes) last) }
    {
        let Some(_) = self.begun else {
            return Ok(None);
        };
        match PesHeader::read_packet(self.front.as_slice(), self.video) {
            Ok(header) => Ok(Some(header)),
            Err(fault) => Err(fault),
        }
    }

    /// The header of the open packet where the stream ends behind it; None where it is dropped, or none is open. An error is
    /// the packet's first fault.
    pub fn last(&self) -> Result<Option<PesHeader>, PesFault>
        ensures fault { (carried : List CarriedPayload) (closed : List Gathered) (last : Option Gathered) → HasWalked carried closed last self.now →
            result_err result ≡ option_and_then (λ packet. last_refusal (is_video self.now) packet.bytes) last }
        ensures header { (carried : List CarriedPayload) (closed : List Gathered) (last : Option Gathered) → HasWalked carried closed last self.now →
            IfOk result (λ header. header ≡ option_and_then (λ packet. if is_dropped (is_video self.now) packet.bytes then None else Some (pes_fields_of packet.bytes)) last) }
    {
        let Some(_) = self.begun else {
            return Ok(None);
        };
        PesHeader::read_last(self.front.as_slice(), self.video)
    }

    /// The bytes of the open packet behind its header, those that are kept of them: all of a packet that has no more than
    /// `FRONT_BYTES`. None where none is open.
    pub fn kept_data(&self) -> &[u8]
        ensures { (carried : List CarriedPayload) (closed : List Gathered) (last : Option Gathered) → HasWalked carried closed last self.now → result.now ≡ kept_data last }
    {
        let front = self.front.as_slice();
        &front[header_bytes(front).min(front.len())..]
    }
}

/// Whether a PES packet begins in a payload: the start flag of one without bytes means nothing.
fn begins(start: bool, payload: &[u8]) -> bool
    ensures { result ≡ is_start (record { start = start; bytes = payload.now }) }
{
    start && !payload.is_empty()
}

/// The length of the header that bytes begin with, by its ninth byte where it has come.
#[tactic(auto, using(crate::proofs::Headers::header))]
pub fn header_bytes(bytes: &[u8]) -> usize
    ensures { result ≡ header_length bytes.now }
{
    let behind = match bytes.get(HEADER_DATA_LENGTH_AT) {
        Some(count) => usize::from(*count),
        None => 0,
    };
    HEADER_DATA_LENGTH_AT + 1 + behind
}

ghost use Rattle.std.specs.Prelude.{◌≡◌, ◌+◌, ◌<◌, ◌^◌, ◌&&◌, [], ◌++◌, None, Some, is_some, OnOk, IfOk, IfErr, if◌then◌else◌};
ghost use Rattle.std.specs.Option.{option_map};
ghost use Rattle.ts_demux.specs.declared.demux_fault.DemuxFault.TheVariants.{OutOfMemory};
ghost use Rattle.pes_passing.specs.PassingPackets.{begun_packet, open_of};
ghost use Rattle.pes_passing.specs.Private.OpenPacket.{Counts, room_of, with_payload};

use list_types::ListOf;
use std::alloc::Global;
use ts_demux::{DemuxFault, PesUnit};

/// The PES packet of one stream that is open, while the payloads that carry it pass. Its bytes stand in a room that serves all of them.
#[derive(Drop)]
pub struct OpenPacket {
    alloc: Global,
    /// How many have ended.
    pub count: u64,
    /// The one that is open, or has ended last.
    pub held: Option<PesUnit>,
    /// Where the next one begins, once the held one has ended.
    begun: Option<u64>,
    /// The first payload of that next one.
    first: Vec<u8>,
}

impl OpenPacket {
    /// No packet is open.
    pub fn new(alloc: Global) -> Self
        ensures { (result.held ≡ None) × (result.begun ≡ None) × (result.count ≡ 0) }
    {
        OpenPacket {
            alloc,
            count: 0,
            held: None,
            begun: None,
            first: Vec::new(alloc),
        }
    }

    /// Holds the packet that is open, in place of one that has ended.
    pub fn turn(&mut self) -> Result<(), DemuxFault>
        ensures last { OnOk result (self.new.held ≡ open_of self.old) }
        ensures begun { OnOk result (self.new.begun ≡ None) }
        ensures count { OnOk result (self.new.count ≡ self.old.count) }
        ensures memory { IfErr result (λ fault. fault ≡ OutOfMemory) }
    {
        let Some(at) = self.begun else {
            return Ok(());
        };
        let mut bytes = self.room();
        bytes.clear();
        bytes.extend_from_slice(self.first.as_slice())?;
        self.held = Some(PesUnit {
            at,
            bytes: ListOf::from_vec(bytes),
        });
        self.begun = None;
        Ok(())
    }

    /// Adds a payload, which isn't empty, of the packet at a place, and answers whether the held packet has ended: another one begins in
    /// the payload.
    pub fn add(&mut self, at: u64, start: bool, payload: &[u8]) -> Result<bool, DemuxFault>
        requires turned { self.old.begun ≡ None }
        requires room { self.old.count + 1 < 2 ^ 64 }
        ensures ended { IfOk result (λ ended. ended ≡ (start && is_some self.old.held)) }
        ensures last { OnOk result (open_of self.new ≡ (if start then Some (begun_packet at payload.now) else option_map (with_payload payload.now) self.old.held)) }
        ensures counts { IfOk result (λ ended. Counts ended self.old self.new) }
        ensures memory { IfErr result (λ fault. fault ≡ OutOfMemory) }
    {
        if !start {
            self.go_on(payload)?;
            return Ok(false);
        }
        if self.held.is_none() {
            self.begin(at, payload)?;
            return Ok(false);
        }
        self.first.clear();
        self.first.extend_from_slice(payload)?;
        self.begun = Some(at);
        self.count += 1;
        Ok(true)
    }

    /// Begins the first packet.
    fn begin(&mut self, at: u64, payload: &[u8]) -> Result<(), DemuxFault>
        ensures held { OnOk result (self.new.held ≡ Some (begun_packet at payload.now)) }
        ensures begun { self.new.begun ≡ self.old.begun }
        ensures count { self.new.count ≡ self.old.count }
        ensures memory { IfErr result (λ fault. fault ≡ OutOfMemory) }
    {
        let bytes = payload.to_vec(self.alloc)?;
        self.held = Some(PesUnit {
            at,
            bytes: ListOf::from_vec(bytes),
        });
        Ok(())
    }

    /// Goes on with the held packet, where there is one.
    fn go_on(&mut self, payload: &[u8]) -> Result<(), DemuxFault>
        ensures held { OnOk result (self.new.held ≡ option_map (with_payload payload.now) self.old.held) }
        ensures begun { self.new.begun ≡ self.old.begun }
        ensures count { self.new.count ≡ self.old.count }
        ensures memory { IfErr result (λ fault. fault ≡ OutOfMemory) }
    {
        let Some(PesUnit { at, bytes }) = self.held.take() else {
            return Ok(());
        };
        let mut bytes = bytes.into_vec();
        bytes.extend_from_slice(payload)?;
        self.held = Some(PesUnit {
            at,
            bytes: ListOf::from_vec(bytes),
        });
        Ok(())
    }

    /// The room of the held packet's bytes, with these bytes in it.
    fn room(&mut self) -> Vec<u8>
        ensures room { result.items ≡ room_of self.old.held }
        ensures first { self.new.first.items ≡ self.old.first.items }
        ensures count { self.new.count ≡ self.old.count }
    {
        match self.held.take() {
            Some(packet) => packet.bytes.into_vec(),
            None => Vec::new(self.alloc),
        }
    }
}

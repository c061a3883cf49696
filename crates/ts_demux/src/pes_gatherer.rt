ghost use Rattle.std.specs.Prelude.{◌≡◌, [], ◌∷◌, ◌++◌, OnOk, IfOk, IfErr};
ghost use Rattle.ts_demux.specs.declared.demux_fault.DemuxFault.TheVariants.{OutOfMemory};
ghost use Rattle.ts_demux.specs.Private.PesGatherer.{gathered_of, longer, gathered_more, IsInOrder, IsSame, IsClosed, Gathers};

use crate::demux_fault::DemuxFault;
use crate::demuxed::PesUnit;
use list_types::ListOf;
use std::alloc::Global;

/// Gathers the PES packets of one PID (ISO/IEC 13818-1, 2.4.3.3).
#[derive(Drop)]
pub struct PesGatherer {
    pub pid: u16,
    /// The PES packets before the last one.
    whole: Vec<PesUnit>,
    /// The place where the last one begins, once one has begun.
    begun: Option<u64>,
    /// The bytes of the last one, in a room that serves all of them.
    bytes: Vec<u8>,
}

impl PesGatherer {
    ghost use Rattle.std.specs.Prelude.{List, ℕ};

    /// A gatherer of no packet.
    pub fn new(alloc: Global, pid: u16) -> Self
        ensures gathers { (file : List ℕ) → Gathers file 0 result }
        ensures pid { result.pid ≡ pid }
    {
        PesGatherer {
            pid,
            whole: Vec::new(alloc),
            begun: None,
            bytes: Vec::new(alloc),
        }
    }

    /// Adds a payload, which isn't empty, of the packet at a place.
    pub fn add(
        &mut self,
        alloc: Global,
        at: u64,
        start: bool,
        payload: &[u8],
    ) -> Result<(), DemuxFault>
        requires { IsInOrder self.old }
        ensures ok { OnOk result (gathered_of self.new ≡ gathered_more (gathered_of self.old) at start payload.now) }
        ensures order { OnOk result (IsInOrder self.new) }
        ensures same { OnOk result (IsSame self.old self.new) }
        ensures memory { IfErr result (λ fault. fault ≡ OutOfMemory) }
    {
        if start {
            self.begin(alloc, at, payload)
        } else {
            self.go_on(payload)
        }
    }

    /// Begins a PES packet.
    fn begin(&mut self, alloc: Global, at: u64, payload: &[u8]) -> Result<(), DemuxFault>
        ensures ok { OnOk result (gathered_of self.new ≡ gathered_of self.old ++ record { at = at; bytes = payload.now } ∷ []) }
        ensures order { OnOk result (IsInOrder self.new) }
        ensures same { OnOk result (IsSame self.old self.new) }
        ensures memory { IfErr result (λ fault. fault ≡ OutOfMemory) }
    {
        self.close(alloc)?;
        self.begun = Some(at);
        self.bytes.clear();
        self.bytes.extend_from_slice(payload)?;
        Ok(())
    }

    /// Goes on with the last PES packet, where one has begun.
    fn go_on(&mut self, payload: &[u8]) -> Result<(), DemuxFault>
        requires { IsInOrder self.old }
        ensures ok { OnOk result (gathered_of self.new ≡ longer (gathered_of self.old) payload.now) }
        ensures order { OnOk result (IsInOrder self.new) }
        ensures same { OnOk result (IsSame self.old self.new) }
        ensures memory { IfErr result (λ fault. fault ≡ OutOfMemory) }
    {
        let Some(_) = self.begun else {
            return Ok(());
        };
        self.bytes.extend_from_slice(payload)?;
        Ok(())
    }

    /// Ends the last PES packet, where there is one.
    fn close(&mut self, alloc: Global) -> Result<(), DemuxFault>
        ensures ok { OnOk result (IsClosed self.old self.new) }
        ensures memory { IfErr result (λ fault. fault ≡ OutOfMemory) }
    {
        let Some(at) = self.begun else {
            return Ok(());
        };
        let bytes = self.bytes.as_slice().to_vec(alloc)?;
        self.begun = None;
        self.whole.push(PesUnit {
            at,
            bytes: ListOf::from_vec(bytes),
        })?;
        Ok(())
    }

    /// All PES packets.
    pub fn into_units(self, alloc: Global) -> Result<ListOf<PesUnit>, DemuxFault>
        ensures ok { IfOk result (λ units. units ≡ gathered_of self) }
        ensures memory { IfErr result (λ fault. fault ≡ OutOfMemory) }
    {
        let mut gatherer = self;
        gatherer.close(alloc)?;
        let PesGatherer {
            pid: _,
            whole,
            begun: _,
            bytes: _,
        } = gatherer;
        Ok(ListOf::from_vec(whole))
    }
}

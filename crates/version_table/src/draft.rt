ghost use Rattle.std.specs.Prelude.{◌≡◌, ◌<◌, ◌^◌, All, map};
ghost use Rattle.version_table.specs.Table.{greatest};
ghost use Rattle.version_table.specs.Private.Draft.{kept};

use crate::limits::{TEXT_AUDIO_PACKETS_MOST, UNITS_MOST, VERSIONS_MOST};
use crate::line::{Line, Stage, StatedVersion};
use crate::table::{AudioPacket, ProgramRow, Table, Unit, Version};
use arrayvec::ArrayVec;
use list_types::{ListOf, OutOfMemory};
use std::alloc::Global;
use std::mem;

/// A table as far as its lines are read. No line of it breaks a limit.
#[derive(Drop)]
pub struct Draft {
    /// Ticks of a packet slot.
    pub slot: u32,
    /// Nodes of a search.
    pub nodes: u32,
    /// Evaluations of a search.
    pub evaluations: u32,
    /// The programs that are whole.
    pub programs: ListOf<ProgramRow>,
    /// The buffer of the open program.
    pub vbv: u8,
    /// Its units.
    pub units: ListOf<Unit>,
    /// Its audio streams that are whole.
    pub audios: ListOf<ListOf<AudioPacket>>,
    /// The packets of its open audio stream.
    pub packets: ListOf<AudioPacket>,
    /// Units of all programs.
    pub unit_count: usize,
    /// Audio packets of all streams.
    pub packet_count: usize,
    /// The sum of the greatest distortions of all units.
    pub distortions: u64,
}

impl Draft {
    ghost use Rattle.std.specs.Prelude.{◌≡◌, ◌+◌, ◌<◌, ◌^◌, [], None, All, OnOk, IfOk, map};
    ghost use Rattle.version_table.specs.Table.{greatest};
    ghost use Rattle.version_table.specs.declared.limits.TheConstants.{DISTORTIONS_LIMIT};
    ghost use Rattle.version_table.specs.Lines.{lines_of_table, stated};
    ghost use Rattle.version_table.specs.Limits.{first_limit};
    ghost use Rattle.version_table.specs.Private.Draft.{Allows, AddsLine, IsDraft, lines_of_draft, with_audio_closed, with_program_closed, with_unit, with_packet};

    /// A draft without lines.
    pub fn new(alloc: Global) -> Draft
        ensures empty { lines_of_draft Stage.Title result ≡ [] }
        ensures draft { IsDraft Stage.Title result }
    {
        Draft {
            slot: 0,
            nodes: 0,
            evaluations: 0,
            programs: ListOf::new(alloc),
            vbv: 0,
            units: ListOf::new(alloc),
            audios: ListOf::new(alloc),
            packets: ListOf::new(alloc),
            unit_count: 0,
            packet_count: 0,
            distortions: 0,
        }
    }

    /// Adds a line that breaks no limit, at the stage that the draft is at.
    pub fn add(&mut self, alloc: Global, stage: Stage, line: &Line) -> Result<(), OutOfMemory>
        requires draft { IsDraft stage self.old }
        requires stands { Allows stage line.now }
        requires kept { first_limit (lines_of_draft stage self.old) line.now ≡ None }
        ensures { OnOk result (AddsLine stage self.old line.now self.new) }
    {
        match line {
            Line::Title => {}
            Line::Slot(ticks) => self.slot = *ticks as u32,
            Line::Nodes(n) => self.nodes = *n as u32,
            Line::Evaluations(n) => self.evaluations = *n as u32,
            Line::Program(vbv) => self.add_program(alloc, stage, *vbv as u8)?,
            Line::Unit { due, versions } => self.add_unit(*due, versions)?,
            Line::Audio => self.close_audio(alloc, stage)?,
            Line::Packet { due, gone, bytes } => self.add_packet(*due, *gone, *bytes as u8)?,
        }
        Ok(())
    }

    /// The table, once all lines are there.
    pub fn finish(mut self, alloc: Global, stage: Stage) -> Result<Table, OutOfMemory>
        requires draft { IsDraft stage self }
        requires whole { Allows stage (Line.Program 0) }
        ensures { IfOk result (λ table. lines_of_table table ≡ lines_of_draft stage self) }
    {
        self.close_program(alloc, stage)?;
        let Draft {
            slot,
            nodes,
            evaluations,
            programs,
            vbv: _,
            units: _,
            audios: _,
            packets: _,
            unit_count: _,
            packet_count: _,
            distortions: _,
        } = self;
        Ok(Table {
            slot,
            nodes,
            evaluations,
            programs,
        })
    }

    /// Opens a program.
    fn add_program(&mut self, alloc: Global, stage: Stage, vbv: u8) -> Result<(), OutOfMemory>
        ensures { OnOk result (self.new ≡ record (with_program_closed stage self.old) { vbv = vbv }) }
    {
        self.close_program(alloc, stage)?;
        self.vbv = vbv;
        Ok(())
    }

    /// Adds a unit to the open program.
    fn add_unit(
        &mut self,
        due: u64,
        stated: &ArrayVec<StatedVersion, VERSIONS_MOST>,
    ) -> Result<(), OutOfMemory>
        requires few { self.old.unit_count < UNITS_MOST }
        requires small { All (λ version. version.bytes < 2 ^ 32) stated.now.items }
        requires room { self.old.distortions + greatest (map (λ version. version.distortion) stated.now.items) < DISTORTIONS_LIMIT }
        ensures { OnOk result (self.new ≡ with_unit self.old due stated.now.items) }
    {
        let versions = kept_versions(stated);
        self.units.push(Unit { due, versions })?;
        self.unit_count += 1;
        self.distortions += greatest_distortion(stated.as_slice());
        Ok(())
    }

    /// Adds a packet to the open audio stream.
    fn add_packet(&mut self, due: u64, gone: u64, bytes: u8) -> Result<(), OutOfMemory>
        requires { self.old.packet_count < TEXT_AUDIO_PACKETS_MOST }
        ensures { OnOk result (self.new ≡ with_packet self.old due gone bytes) }
    {
        self.packets.push(AudioPacket { due, gone, bytes })?;
        self.packet_count += 1;
        Ok(())
    }

    /// Ends the open program, where one is open.
    fn close_program(&mut self, alloc: Global, stage: Stage) -> Result<(), OutOfMemory>
        ensures { OnOk result (self.new ≡ with_program_closed stage self.old) }
    {
        if stage == Stage::Programs {
            return Ok(());
        }
        self.close_audio(alloc, stage)?;
        let units = mem::replace(&mut self.units, ListOf::new(alloc));
        let audios = mem::replace(&mut self.audios, ListOf::new(alloc));
        self.programs.push(ProgramRow {
            vbv: self.vbv,
            units,
            audios,
        })?;
        Ok(())
    }

    /// Ends the open audio stream, where one is open.
    fn close_audio(&mut self, alloc: Global, stage: Stage) -> Result<(), OutOfMemory>
        ensures { OnOk result (self.new ≡ with_audio_closed stage self.old) }
    {
        if stage == Stage::Packets {
            let packets = mem::replace(&mut self.packets, ListOf::new(alloc));
            self.audios.push(packets)?;
        }
        Ok(())
    }
}

/// The greatest distortion of these versions; 0 where there is none.
pub fn greatest_distortion(versions: &[StatedVersion]) -> u64
    ensures { result ≡ greatest (map (λ version. version.distortion) versions.now) }
{
    let mut most = 0;
    for version in versions {
        most = most.max(version.distortion);
    }
    most
}

/// The versions whose numbers are within the limits.
fn kept_versions(
    stated: &ArrayVec<StatedVersion, VERSIONS_MOST>,
) -> ArrayVec<Version, VERSIONS_MOST>
    requires { All (λ version. version.bytes < 2 ^ 32) stated.now.items }
    ensures { result.items ≡ map kept stated.now.items }
{
    let mut versions = ArrayVec::new();
    for version in stated.as_slice() {
        versions.push(Version {
            bytes: version.bytes as u32,
            distortion: version.distortion,
        });
    }
    versions
}

//! Generated programs with every version of their pictures kept.
ghost use Rattle.std.specs.Prelude.{◌≡◌, ◌≤◌, None, All, length, IfOk, OnOk};
ghost use Rattle.version_source.specs.Sendable.{IsSendable, IsUnitOf, SpellInOrder};
ghost use Rattle.version_source.specs.Versions.{AreVideoVersions};
ghost use Rattle.version_source_tests.specs.Private.Kept.{AreKept};

use job_report::{Form, ProgramJob};
use list_types::{ListOf, Text};
use program_maker::make_program;
use program_reader::{Program, UnitSource, read_program};
use std::alloc::{AllocError, Global};
use std::test::Fail;
use syntax_types::SeqState;
use version_maker::{UnitVersion, versions_of};
use version_source::laws::programs_can_be_sent;
use version_source::{state_behind, unit_bytes};

/// When the earliest time is due, in ticks.
const START: u64 = 27_000_000;

/// Programs with all versions of their pictures, one of which is chosen for each.
#[derive(Drop)]
pub struct Kept {
    pub programs: ListOf<Program>,
    /// The ratios of their versions.
    pub jobs: ListOf<ProgramJob>,
    /// For each program, for each of its pictures, all its versions.
    pub versions: ListOf<ListOf<ListOf<UnitVersion>>>,
    /// The numbers of the chosen versions, over all programs: 0, 1, .. in turn.
    pub choice: Vec<u8>,
}

impl Kept {
    /// No programs.
    pub fn new(alloc: Global) -> Kept
        ensures { AreKept result.programs result.jobs result.versions result.choice.items }
    {
        Kept {
            programs: ListOf::new(alloc),
            jobs: ListOf::new(alloc),
            versions: ListOf::new(alloc),
            choice: Vec::new(alloc),
        }
    }

    /// Adds the program of a seed with so many pictures, in versions at these ratios.
    pub fn add(
        &mut self,
        alloc: Global,
        seed: u64,
        pictures: u16,
        ratios: &[u16],
    ) -> Result<(), Fail>
        requires pictures { pictures ≤ 4096 }
        requires kept { AreKept self.old.programs self.old.jobs self.old.versions self.old.choice.items }
        ensures { OnOk result (AreKept self.new.programs self.new.jobs self.new.versions self.new.choice.items) }
    {
        let program = program_of(alloc, seed, pictures)?;
        let job = job_at(alloc, ratios);
        let versions = versions_in_order(
            alloc,
            program.video.as_slice(),
            program.units.as_slice(),
            job.coarser.as_slice(),
        )?;
        let own = in_turn(alloc, program.units.len(), job.coarser.as_slice())?;
        self.choice.extend_from_slice(own.as_slice())?;
        self.programs.push(program)?;
        self.jobs.push(job)?;
        self.versions.push(versions)?;
        Ok(())
    }
}

/// The program of a seed with so many pictures.
fn program_of(alloc: Global, seed: u64, pictures: u16) -> Result<Program, Fail>
    requires { pictures ≤ 4096 }
    ensures { IfOk result IsSendable }
{
    let file = make_program(alloc, seed, u32::from(pictures))?;
    programs_can_be_sent();
    let program = read_program(alloc, file.as_slice(), Form::Ts, 1, &[], START)?;
    Ok(program)
}

/// A program whose versions are at these ratios.
fn job_at(alloc: Global, ratios: &[u16]) -> ProgramJob {
    let mut job = ProgramJob::new(Text::new(alloc), 1, 1);
    job.coarser.clear();
    let _ = job.coarser.try_extend_from_slice(ratios);
    job
}

/// All versions of the units of a video, each unit behind the state that the one before leaves.
fn versions_in_order(
    alloc: Global,
    es: &[u8],
    units: &[UnitSource],
    coarser: &[u16],
) -> Result<ListOf<ListOf<UnitVersion>>, Fail>
    requires units { All (IsUnitOf es.now) units.now }
    requires pictures { SpellInOrder es.now None units.now }
    ensures { IfOk result (AreVideoVersions es.now coarser.now None units.now) }
{
    let mut kept = ListOf::new(alloc);
    let mut before: Option<SeqState> = None;
    for k in 0..units.len() {
        let unit = unit_bytes(es, &units[k]);
        let versions = versions_of(alloc, unit, before.as_ref(), coarser)?;
        kept.push(versions)?;
        let state = state_behind(es, &units[k], before.as_ref())?;
        before = Some(state);
    }
    Ok(kept)
}

/// The numbers 0, 1, .. in turn, up to that of the last ratio: one for each of so many units.
fn in_turn(alloc: Global, units: usize, coarser: &[u16]) -> Result<Vec<u8>, AllocError>
    ensures count { IfOk result (λ own. length own.items ≡ units) }
    ensures named { IfOk result (λ own. All (λ index. index ≤ length coarser.now) own.items) }
{
    let mut own = Vec::new(alloc);
    let mut number = 0;
    for k in 0..units {
        own.push(number)?;
        number = if usize::from(number) < coarser.len().min(8) {
            number + 1
        } else {
            0
        };
    }
    Ok(own)
}

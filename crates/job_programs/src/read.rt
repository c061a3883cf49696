ghost use Rattle.std.specs.Prelude.{◌≡◌, ◌≤◌, IfOk, IfErr, IsErrAnd};
ghost use Rattle.job_report.specs.ValidJob.{IsValidJob};
ghost use Rattle.job_programs.specs.Sizes.{AreJobSizes};
ghost use Rattle.job_programs.specs.Told.{AreProgramsOn, AsksForPrograms, CountReads, EndsFailed, EndsMissing, HasReadCause, ReadsEnd};

use crate::next::{Wanted, read_next};
use crate::source_fault::ProgramsFault;
use job_report::Job;
use list_types::ListOf;
use program_reader::{Program, UnitSizes};
use shelf_io::Shelf;
use std::alloc::Global;

/// The programs of a job, and the sizes of all versions of their units.
#[derive(Drop)]
pub struct SizedPrograms {
    pub programs: ListOf<Program>,
    /// Of each program, one for each of its units.
    pub sizes: ListOf<ListOf<UnitSizes>>,
}

/// The programs of a job, read from their files in order, with the sizes of all versions of their units, at the ratios that the job gives
/// each program, or why they aren't: the first refusal, a file that can't be read or isn't there, or want of memory. A unit is read once for
/// both. No file is changed. Of a file no more is kept than its program.
pub fn read_sized_programs<K: Shelf>(
    alloc: Global,
    shelf: &mut K,
    job: &Job,
) -> Result<SizedPrograms, ProgramsFault>
    requires { IsValidJob job.now }
    ensures programs { IfOk result (λ read. AreProgramsOn (K.files shelf.old) job.now read.programs) }
    ensures sizes { IfOk result (λ read. AreJobSizes job.now.programs read.programs read.sizes) }
    ensures cause { IfErr result (HasReadCause (K.files shelf.old) job.now (K.counts shelf.old) (K.counts shelf.new) (K.since_fault shelf.new)) }

    ensures files { K.files shelf.new ≡ K.files shelf.old }
    ensures asked { AsksForPrograms job.now.programs (K.asked shelf.old) (K.asked shelf.new) }
    ensures counts { CountReads (K.counts shelf.old) (K.counts shelf.new) }
    ensures ends { ReadsEnd (IsErrAnd result EndsFailed) (IsErrAnd result EndsMissing) (K.counts shelf.old) (K.counts shelf.new) (K.since_fault shelf.new) }
{
    let mut programs = ListOf::new(alloc);
    let mut sizes = ListOf::new(alloc);
    let mut place = 0u8;
    let mut bytes = 0;
    let mut units = 0;
    let jobs = job.programs.as_slice();
    for wanted in jobs {
        let next = read_next(
            alloc,
            shelf,
            &Wanted {
                place,
                file: wanted.file.as_str(),
                form: wanted.form,
                number: wanted.program,
                drop: wanted.drop.as_slice(),
                start: job.start,
                slot: job.slot,
                bytes,
                units,
                weight: wanted.weight,
                drift: wanted.drift,
                coarser: wanted.coarser.as_slice(),
            },
        )?;
        bytes += next.size;
        units += next.program.units.len();
        programs.push(next.program)?;
        sizes.push(next.sizes)?;
        place += 1;
    }
    Ok(SizedPrograms { programs, sizes })
}

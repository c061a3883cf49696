ghost use Rattle.std.specs.Prelude.{◌<◌, ◌≤◌, length};

use job_programs::{
    PassedPrograms, ProgramsFault, SizedPrograms, SourceFault, pass_one, pass_sized_programs,
    read_sized_programs,
};
use job_report::limits::{COARSER_DEFAULT, PROBE_SLOT, START_DEFAULT};
use job_report::{Form, read_job};
use program_maker::make_program;
use program_reader::{SourceKind, UnitSizes, UnitSource, read_program};
use shelf_io::Fault;
use shelf_kinds::MemShelf;
use std::alloc::Global;
use std::test::Fail;
use syntax_types::SeqState;
use unit_states::state_behind;
use version_maker::{PictureFault, UNIT_BYTES_MOST, sizes_of};
use version_table::limits::VERSIONS_MOST;

/// A job with the program 1 of `a.ts` and another one.
const ANOTHER_FILE: &[u8] =
    b"slot = 4000\n[[program]]\nfile = \"a.ts\"\nprogram = 1\nnumber = 1\n[[program]]\nfile = \"b.ts\"\nprogram = 1\nnumber = 2\n";

const ONE_FILE_TWICE: &[u8] =
    b"slot = 4000\n[[program]]\nfile = \"a.ts\"\nprogram = 1\nnumber = 1\n[[program]]\nfile = \"a.ts\"\nprogram = 1\nnumber = 2\n";

const ANOTHER_NUMBER: &[u8] =
    b"slot = 4000\n[[program]]\nfile = \"a.ts\"\nprogram = 1\nnumber = 1\n[[program]]\nfile = \"a.ts\"\nprogram = 2\nnumber = 2\n";

/// Two programs of a file, each with ratios of its own.
const TWO_RATIOS_AND_ONE: &[u8] =
    b"slot = 4000\n[[program]]\nfile = \"a.ts\"\nprogram = 1\nnumber = 1\ncoarser = [24, 48]\n[[program]]\nfile = \"a.ts\"\nprogram = 1\nnumber = 2\ncoarser = [32]\n";

/// How many units the programs of a job have together, or why they aren't read.
fn units_of(alloc: Global, shelf: &mut MemShelf, text: &[u8]) -> Result<usize, ProgramsFault> {
    match read_job(alloc, text) {
        Ok(job) => {
            let read = pass_sized_programs(alloc, shelf, &job)?;
            let mut units = 0usize;
            for program in read.programs.as_slice() {
                units = units.wrapping_add(program.units.len());
            }
            Ok(units)
        }
        Err(_) => Err(ProgramsFault::OutOfMemory),
    }
}

/// The programs of a job without the bytes of their streams, with the sizes of their units, or why they aren't read.
fn passed(
    alloc: Global,
    shelf: &mut MemShelf,
    text: &[u8],
) -> Result<PassedPrograms, ProgramsFault> {
    match read_job(alloc, text) {
        Ok(job) => pass_sized_programs(alloc, shelf, &job),
        Err(_) => Err(ProgramsFault::OutOfMemory),
    }
}

/// The programs of a job with the sizes of their units, or why they aren't read.
fn sized(alloc: Global, shelf: &mut MemShelf, text: &[u8]) -> Result<SizedPrograms, ProgramsFault> {
    match read_job(alloc, text) {
        Ok(job) => read_sized_programs(alloc, shelf, &job),
        Err(_) => Err(ProgramsFault::OutOfMemory),
    }
}

/// Whether these are the sizes of units of a video, each sized by itself behind the state of the one before.
fn are_sizes_of(
    alloc: Global,
    video: &[u8],
    units: &[UnitSource],
    sizes: &[UnitSizes],
    coarser: &[u16],
) -> Result<bool, PictureFault>
    requires { length coarser.now < VERSIONS_MOST }
{
    let mut before: Option<SeqState> = None;
    for (unit, own) in units.iter().zip(sizes) {
        let bytes = unit_at(video, unit.begin as usize, unit.end as usize);
        let alone = sizes_of(alloc, bytes, before.as_ref(), coarser)?;
        if own.versions.as_slice() != alone.as_slice() {
            return Ok(false);
        }
        let behind = state_behind(alloc, bytes, before.as_ref())?;
        before = Some(behind);
    }
    Ok(units.len() == sizes.len())
}

/// The bytes between two places, as many as a unit may have.
fn unit_at(video: &[u8], begin: usize, end: usize) -> &[u8]
    ensures { length result.now ≤ UNIT_BYTES_MOST }
{
    let unit = video.get(begin..end).unwrap_or(&[]);
    let few = unit.len().min(UNIT_BYTES_MOST);
    &unit[..few]
}

/// A shelf that fails in these calls, whose file `a.ts` holds the generated program of twelve pictures.
fn shelf_of(alloc: Global, fails: Vec<u64>) -> Result<MemShelf, Fault> {
    let mut shelf = MemShelf::new(alloc, fails);
    let Ok(program) = make_program(alloc, 1, 12) else {
        return Err(Fault::OutOfMemory);
    };
    shelf.put_file("a.ts", program.as_slice())?;
    Ok(shelf)
}

/// The refusal of the program of this number.
fn refused(program: u8, kind: SourceKind) -> ProgramsFault {
    ProgramsFault::Refused(SourceFault {
        program,
        kind,
        at: 0,
    })
}

#[test]
fn a_file_serves_two_programs(rt: HostRuntime) -> Result<(), Fail> {
    let alloc = rt.alloc();
    let mut shelf = shelf_of(alloc, Vec::new(alloc))?;
    assert_eq!(rt; units_of(alloc, &mut shelf, ONE_FILE_TWICE), Ok(24));
    Ok(())
}

#[test]
fn a_missing_file_is_said_behind_a_program(rt: HostRuntime) -> Result<(), Fail> {
    let alloc = rt.alloc();
    let mut shelf = shelf_of(alloc, Vec::new(alloc))?;
    assert_eq!(rt;
        units_of(alloc, &mut shelf, ANOTHER_FILE),
        Err(ProgramsFault::Missing(1))
    );
    Ok(())
}

#[test]
fn a_missing_file_is_said_first(rt: HostRuntime) -> Result<(), Fail> {
    let alloc = rt.alloc();
    let mut shelf = MemShelf::new(alloc, Vec::new(alloc));
    assert_eq!(rt;
        units_of(alloc, &mut shelf, ANOTHER_FILE),
        Err(ProgramsFault::Missing(0))
    );
    Ok(())
}

#[test]
fn a_first_read_that_fails(rt: HostRuntime) -> Result<(), Fail> {
    let alloc = rt.alloc();
    let mut shelf = shelf_of(alloc, vec![in alloc; 1]?)?;
    assert_eq!(rt;
        units_of(alloc, &mut shelf, ONE_FILE_TWICE),
        Err(ProgramsFault::Failed(0))
    );
    Ok(())
}

#[test]
fn a_file_shorter_than_a_packet(rt: HostRuntime) -> Result<(), Fail> {
    let alloc = rt.alloc();
    let mut shelf = shelf_of(alloc, Vec::new(alloc))?;
    shelf.put_file("b.ts", &[0x47; 187])?;
    assert_eq!(rt;
        units_of(alloc, &mut shelf, ANOTHER_FILE),
        Err(refused(1, SourceKind::ShortFile))
    );
    Ok(())
}

#[test]
fn a_number_that_no_program_has(rt: HostRuntime) -> Result<(), Fail> {
    let alloc = rt.alloc();
    let mut shelf = shelf_of(alloc, Vec::new(alloc))?;
    assert_eq!(rt;
        units_of(alloc, &mut shelf, ANOTHER_NUMBER),
        Err(refused(1, SourceKind::NoProgram))
    );
    Ok(())
}

#[test]
fn a_probed_file(rt: HostRuntime) -> Result<(), Fail> {
    let alloc = rt.alloc();
    let mut shelf = shelf_of(alloc, Vec::new(alloc))?;
    let file = make_program(alloc, 1, 12)?;
    let whole = read_program(alloc, file.as_slice(), Form::Ts, 1, &[], START_DEFAULT)?;
    match pass_one(alloc, &mut shelf, "a.ts", 1, &[], START_DEFAULT, PROBE_SLOT) {
        Ok(read) => {
            assert_eq!(rt; read.program.units.len(), 12);
            match read.program.audios.as_slice() {
                [pieces] => {
                    assert_eq!(rt; pieces.len(), 80);
                }
                _ => {
                    assert!(rt; false);
                }
            }
            let are = are_sizes_of(
                alloc,
                whole.video.as_slice(),
                read.program.units.as_slice(),
                read.sizes.as_slice(),
                &COARSER_DEFAULT,
            );
            assert_eq!(rt; are, Ok(true));
        }
        Err(fault) => {
            assert_eq!(rt; fault, ProgramsFault::OutOfMemory);
            assert!(rt; false);
        }
    }
    let other = pass_one(alloc, &mut shelf, "a.ts", 2, &[], START_DEFAULT, PROBE_SLOT);
    assert_eq!(rt; other.err(), Some(refused(0, SourceKind::NoProgram)));
    Ok(())
}

#[test]
fn programs_with_the_sizes_of_their_units(rt: HostRuntime) -> Result<(), Fail> {
    let alloc = rt.alloc();
    let mut shelf = shelf_of(alloc, Vec::new(alloc))?;
    match sized(alloc, &mut shelf, TWO_RATIOS_AND_ONE) {
        Ok(read) => match (read.programs.as_slice(), read.sizes.as_slice()) {
            ([first, second], [of_first, of_second]) => {
                let two = are_sizes_of(
                    alloc,
                    first.video.as_slice(),
                    first.units.as_slice(),
                    of_first.as_slice(),
                    &[24, 48],
                );
                assert_eq!(rt; two, Ok(true));
                let one = are_sizes_of(
                    alloc,
                    second.video.as_slice(),
                    second.units.as_slice(),
                    of_second.as_slice(),
                    &[32],
                );
                assert_eq!(rt; one, Ok(true));
            }
            _ => {
                assert!(rt; false);
            }
        },
        Err(fault) => {
            assert_eq!(rt; fault, ProgramsFault::OutOfMemory);
            assert!(rt; false);
        }
    }
    Ok(())
}

#[test]
fn programs_that_pass_with_the_sizes_of_their_units(rt: HostRuntime) -> Result<(), Fail> {
    let alloc = rt.alloc();
    let mut shelf = shelf_of(alloc, Vec::new(alloc))?;
    let file = make_program(alloc, 1, 12)?;
    let whole = read_program(alloc, file.as_slice(), Form::Ts, 1, &[], START_DEFAULT)?;
    match passed(alloc, &mut shelf, TWO_RATIOS_AND_ONE) {
        Ok(read) => match (read.programs.as_slice(), read.sizes.as_slice()) {
            ([first, second], [of_first, of_second]) => {
                let two = are_sizes_of(
                    alloc,
                    whole.video.as_slice(),
                    first.units.as_slice(),
                    of_first.as_slice(),
                    &[24, 48],
                );
                assert_eq!(rt; two, Ok(true));
                let one = are_sizes_of(
                    alloc,
                    whole.video.as_slice(),
                    second.units.as_slice(),
                    of_second.as_slice(),
                    &[32],
                );
                assert_eq!(rt; one, Ok(true));
            }
            _ => {
                assert!(rt; false);
            }
        },
        Err(fault) => {
            assert_eq!(rt; fault, ProgramsFault::OutOfMemory);
            assert!(rt; false);
        }
    }
    Ok(())
}

#[test]
fn sized_programs_are_refused_as_others(rt: HostRuntime) -> Result<(), Fail> {
    let alloc = rt.alloc();
    let mut shelf = shelf_of(alloc, Vec::new(alloc))?;
    assert_eq!(rt;
        sized(alloc, &mut shelf, ANOTHER_FILE).err(),
        Some(ProgramsFault::Missing(1))
    );
    assert_eq!(rt;
        sized(alloc, &mut shelf, ANOTHER_NUMBER).err(),
        Some(refused(1, SourceKind::NoProgram))
    );
    shelf.put_file("b.ts", &[0x47; 187])?;
    assert_eq!(rt;
        sized(alloc, &mut shelf, ANOTHER_FILE).err(),
        Some(refused(1, SourceKind::ShortFile))
    );
    let mut failing = shelf_of(alloc, vec![in alloc; 1]?)?;
    assert_eq!(rt;
        sized(alloc, &mut failing, ONE_FILE_TWICE).err(),
        Some(ProgramsFault::Failed(0))
    );
    Ok(())
}

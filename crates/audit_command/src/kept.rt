//! The units of a program as an audit takes them.

ghost use Rattle.std.specs.Prelude.{◌≡◌, All, IfOk};
ghost use Rattle.version_source.specs.Sendable.{IsUnitOf};
ghost use Rattle.audit_command.specs.AuditCommand as spec;

use list_types::{ListOf, OutOfMemory};
use program_reader::Program;
use std::alloc::Global;
use stream_audit::KeptUnits;
use tstd_model::Removal;

/// The units of a program, each with its due time and its bytes, and the clock by which they are due. The program is given up. Fails only
/// for want of memory.
pub fn kept_units(alloc: Global, program: Program) -> Result<KeptUnits, OutOfMemory>
    requires { All (IsUnitOf program.video) program.units }
    ensures { IfOk result (λ kept. kept ≡ spec.kept_units program) }
{
    let mut units = ListOf::new(alloc);
    for unit in program.units.as_slice() {
        units.push(Removal {
            due: unit.due,
            bytes: (unit.end - unit.begin) as u32,
        })?;
    }
    Ok(KeptUnits {
        base: program.base,
        vbv: program.vbv,
        units,
    })
}

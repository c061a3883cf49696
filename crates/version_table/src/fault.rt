ghost use Rattle.std.specs.Prelude.{◌≡◌, ◌≤◌, length};
ghost use Rattle.version_table.specs.Limits.{limit_name};
ghost use Rattle.version_table.specs.Private.Reader.{IsLimitFault};

use crate::wording::Allowed;
use arrayvec::ArrayString;
use list_types::OutOfMemory;
use thiserror::Error;

/// A limit that a number in a table text breaks, or the count of its lines of a kind.
#[derive(Clone, Copy)]
pub enum Limit {
    Slot,
    Nodes,
    Evaluations,
    Programs,
    Vbv,
    Due,
    Bytes,
    Distortion,
    Gone,
    Audios,
    Units,
    Packets,
    Distortions,
}

impl Limit {
    /// The name that refusals give.
    pub fn name(self) -> &'static str
        ensures name { result.now ≡ limit_name self }
        ensures short { length result.now ≤ 32 }
    {
        match self {
            Limit::Slot => "slot",
            Limit::Nodes => "nodes",
            Limit::Evaluations => "evaluations",
            Limit::Programs => "programs",
            Limit::Vbv => "vbv",
            Limit::Due => "due",
            Limit::Bytes => "bytes",
            Limit::Distortion => "distortion",
            Limit::Gone => "gone",
            Limit::Audios => "audios",
            Limit::Units => "units",
            Limit::Packets => "packets",
            Limit::Distortions => "distortions",
        }
    }
}

/// Why a text gave no table.
#[derive(Clone, Copy, Debug, Error)]
pub enum TableFault {
    /// No table has this line there, counted from 1. A missing last line end counts for its line, and a line that is
    /// still owed at the end of the text is named too.
    #[error("table: line {0} is no line that a table has there, or lacks its line end (docs/TABLE.md)")]
    TableSyntax(u64),
    /// The text has the form of a table, and this is the name of the first limit that it breaks.
    #[error("table: {name} breaks its limit; allowed: {allowed}", name = .0, allowed = Allowed::of(.0))]
    TableLimit(ArrayString<32>),
    /// Memory was wanted and not there.
    #[error("out of memory")]
    OutOfMemory,
}

impl From<OutOfMemory> for TableFault {
    ghost use Rattle.std.specs.Prelude.{◌≡◌};
    ghost use Rattle.version_table.specs.declared.fault.TableFault.TheVariants as faults;

    ghost from_gives = { λ _ e. e ≡ faults.OutOfMemory };

    fn from(_e: OutOfMemory) -> TableFault {
        TableFault::OutOfMemory
    }
}

/// The refusal for a limit.
pub fn limit_fault(limit: Limit) -> TableFault
    ensures { IsLimitFault result limit }
{
    let mut name = ArrayString::new();
    name.push_str(limit.name());
    TableFault::TableLimit(name)
}

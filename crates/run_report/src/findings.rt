ghost use Rattle.std.specs.Prelude.{◌≡◌, ◌≤◌, length};
ghost use Rattle.run_report.specs.Names.{name_of_finding};

use stream_audit::FaultName;

/// The name of what an audit finds, as reports print it.
pub fn finding_name(fault: FaultName) -> &'static str
    ensures name { result.now ≡ name_of_finding fault }
    ensures short { length result.now ≤ 32 }
{
    match fault {
        FaultName::Pcr => "pcr",
        FaultName::Overflow => "overflow",
        FaultName::Old => "old",
        FaultName::Late => "late",
        FaultName::Full => "full",
    }
}

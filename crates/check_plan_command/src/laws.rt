//! A law of the command, the contract of a function that does nothing.

ghost use Rattle.std.specs.Prelude.{◌≡◌, ℕ, List, Some};
ghost use Rattle.bound_certificate.specs.Reading.{CertReading, IsCertRead};
ghost use Rattle.shelf_io.specs.Files.{Files};
ghost use Rattle.command_words.specs.declared.status.Status.{Status as AnyStatus};
ghost use Rattle.command_words.specs.Status.{IsSameStatus};
ghost use Rattle.check_plan_command.specs.CheckPlanCommand.{CheckPlanCallsFor};

use bound_certificate::laws::one_reading as one_reading_of_bytes;
use certificate_checker::laws::{first_fault_is_one, no_fault_of_the_faultless};
use version_table::one_reading;

/// What TABLE and CERT hold calls for one status.
pub fn check_plan_calls_for_one()
    ensures { (table certificate : List ℕ) (files : Files) (status other : AnyStatus) → CheckPlanCallsFor table certificate (Some files) status
        → CheckPlanCallsFor table certificate (Some files) other → IsSameStatus status other }
{
    one_reading();
    bytes_are_read_in_one_way();
    no_fault_of_the_faultless();
    first_fault_is_one();
}

/// The bytes of a certificate are read in one way.
fn bytes_are_read_in_one_way()
    ensures { (bytes : List ℕ) (a b : CertReading) → IsCertRead bytes a → IsCertRead bytes b → a ≡ b }
{
    one_reading_of_bytes();
}

//! Laws of certificates, as functions that do nothing.

ghost use Rattle.std.specs.Prelude.{◌≡◌, ℕ, ◌≤◌, List};
ghost use Rattle.version_table.specs.declared.table.Table.{Table};
ghost use Rattle.version_table.specs.Choice.{Fits, distortion_of_choice};
ghost use Rattle.version_table.specs.Table.{IsValidTable};
ghost use Rattle.slot_rule.specs.Schedule.{IsScheduled};
ghost use Rattle.bound_certificate.specs.declared.cert.Cert.{Cert};
ghost use Rattle.certificate_checker.specs.declared.why.CertFault.{CertFault};
ghost use Rattle.certificate_checker.specs.Checked.{IsFaultless, IsFirstFault};

/// The bound of a certificate without fault is at most the distortion of every scheduled choice.
pub fn a_bound_is_one()
    ensures { (table : Table) (cert : Cert) → IsValidTable table → IsFaultless table cert
        → (choice : List ℕ) → Fits table choice → IsScheduled table choice → cert.bound ≤ distortion_of_choice table choice }
{}

/// A certificate without fault has no first fault.
pub fn no_fault_of_the_faultless()
    ensures { (table : Table) (cert : Cert) (fault : CertFault) → IsFaultless table cert → IsFirstFault table cert fault → ⊥ }
{}

/// A certificate has one first fault at most.
pub fn first_fault_is_one()
    ensures { (table : Table) (cert : Cert) (a b : CertFault) → IsFirstFault table cert a → IsFirstFault table cert b → a ≡ b }
{}

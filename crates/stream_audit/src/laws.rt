//! A law of the definitions, the contract of a function that nobody needs to call.
ghost use Rattle.std.specs.Prelude.{◌≡◌, ◌≢◌, ℕ, List, Option};
ghost use Rattle.stream_audit.specs.declared.audit_stop.AuditStop.{AuditStop};
ghost use Rattle.stream_audit.specs.declared.audit_stop.AuditStop.TheVariants.{OutOfMemory};
ghost use Rattle.stream_audit.specs.declared.finding.Finding.{Finding};
ghost use Rattle.stream_audit.specs.declared.kept_units.KeptUnits.{KeptUnits};
ghost use Rattle.stream_audit.specs.Audit.{IsAudited};
ghost use Rattle.stream_audit.specs.Refusals.{IsAuditStopped};

/// A program of a file, in slots of some length and with some units, has one first finding or none, or one refusal, and never both; but
/// for want of memory, which may be said of every file.
pub fn one_audit()
    ensures found { (file : List ℕ) (program slot : ℕ) (kept : KeptUnits) (one other : Option Finding) →
        IsAudited file program slot kept one → IsAudited file program slot kept other → one ≡ other }
    ensures stopped { (file : List ℕ) (program slot : ℕ) (kept : KeptUnits) (one other : AuditStop) → one ≢ OutOfMemory → other ≢ OutOfMemory →
        IsAuditStopped file program slot kept one → IsAuditStopped file program slot kept other → one ≡ other }
    ensures never_both { (file : List ℕ) (program slot : ℕ) (kept : KeptUnits) (found : Option Finding) (stop : AuditStop) →
        IsAudited file program slot kept found → IsAuditStopped file program slot kept stop → stop ≢ OutOfMemory → ⊥ }
{}

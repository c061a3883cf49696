//! Laws of the definitions, each the contract of a function that does nothing.

ghost use Rattle.std.specs.Prelude.{◌≡◌, ℕ, List, Some, None};
ghost use Rattle.std.specs.FinMap.{get};
ghost use Rattle.shelf_io.specs.Files.{Files};
ghost use Rattle.job_programs.specs.declared.source_fault.SourceFault.{SourceFault};
ghost use Rattle.command_words.specs.declared.status.Status.{Status as AnyStatus};
ghost use Rattle.command_words.specs.Status.{IsSameStatus};
ghost use Rattle.job_files.specs.declared.job_stop.TextRefusal.{TextRefusal};
ghost use Rattle.job_files.specs.declared.job_table.JobTable.{JobTable};
ghost use Rattle.job_files.specs.JobCalls.{JobCallsFor};
ghost use Rattle.job_files.specs.JobFile.{HoldsRefused};
ghost use Rattle.job_files.specs.JobTable.{IsJobTable};
ghost use Rattle.job_files.specs.Same.{IsSameText};
ghost use Rattle.job_files.specs.Stops.{HoldsRefusedProgram, IsNextFile};

use job_programs::laws::files_have_one_answer;
use program_table::laws::one_table;

/// On told files a job's file has one table, or one refusal of its text, or one refused program, or one next file that isn't there, and
/// never two of them.
pub fn jobs_have_one_answer()
    ensures table { (files : Files) (name : List ℕ) (named : List (List ℕ)) (one other : JobTable) →
        IsJobTable (Some files) name named one → IsJobTable (Some files) name named other → one ≡ other }
    ensures text { (files : Files) (name : List ℕ) (named : List (List ℕ)) (one other : TextRefusal) →
        HoldsRefused (Some files) name named one → HoldsRefused (Some files) name named other → IsSameText one other }
    ensures program { (files : Files) (name : List ℕ) (named : List (List ℕ)) (one other : SourceFault) →
        HoldsRefusedProgram (Some files) name named one → HoldsRefusedProgram (Some files) name named other → one ≡ other }
    ensures missing { (files : Files) (name : List ℕ) (named : List (List ℕ)) (one other : List ℕ) →
        IsNextFile (Some files) name named one → get files one ≡ None → IsNextFile (Some files) name named other → get files other ≡ None → one ≡ other }
    ensures table_without_text { (files : Files) (name : List ℕ) (named : List (List ℕ)) (made : JobTable) (refusal : TextRefusal) →
        IsJobTable (Some files) name named made → HoldsRefused (Some files) name named refusal → ⊥ }
    ensures table_without_program { (files : Files) (name : List ℕ) (named : List (List ℕ)) (made : JobTable) (fault : SourceFault) →
        IsJobTable (Some files) name named made → HoldsRefusedProgram (Some files) name named fault → ⊥ }
    ensures table_without_missing { (files : Files) (name : List ℕ) (named : List (List ℕ)) (made : JobTable) (file : List ℕ) →
        IsJobTable (Some files) name named made → IsNextFile (Some files) name named file → get files file ≡ None → ⊥ }
    ensures text_without_program { (files : Files) (name : List ℕ) (named : List (List ℕ)) (refusal : TextRefusal) (fault : SourceFault) →
        HoldsRefused (Some files) name named refusal → HoldsRefusedProgram (Some files) name named fault → ⊥ }
    ensures text_without_missing { (files : Files) (name : List ℕ) (named : List (List ℕ)) (refusal : TextRefusal) (file : List ℕ) →
        HoldsRefused (Some files) name named refusal → IsNextFile (Some files) name named file → get files file ≡ None → ⊥ }
    ensures program_without_missing { (files : Files) (name : List ℕ) (named : List (List ℕ)) (fault : SourceFault) (file : List ℕ) →
        HoldsRefusedProgram (Some files) name named fault → IsNextFile (Some files) name named file → get files file ≡ None → ⊥ }
{
    files_have_one_answer();
    one_table();
}

/// On told files a job has one table, or calls for one status before there is one, and never both.
pub fn job_calls_for_one()
    ensures table { (files : Files) (name : List ℕ) (named : List (List ℕ)) (one other : JobTable) →
        IsJobTable (Some files) name named one → IsJobTable (Some files) name named other → one ≡ other }
    ensures stop { (files : Files) (name : List ℕ) (named : List (List ℕ)) (status other : AnyStatus) →
        JobCallsFor (Some files) name named status → JobCallsFor (Some files) name named other → IsSameStatus status other }
    ensures never_both { (files : Files) (name : List ℕ) (named : List (List ℕ)) (made : JobTable) (status : AnyStatus) →
        IsJobTable (Some files) name named made → JobCallsFor (Some files) name named status → ⊥ }
{
    jobs_have_one_answer();
}

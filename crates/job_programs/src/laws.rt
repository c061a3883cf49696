//! Laws of the definitions, each the contract of a function that does nothing.

ghost use Rattle.std.specs.Prelude.{◌≡◌, ℕ, List, All, Some};
ghost use Rattle.bit_lists.specs.Fields.{AreBytes};
ghost use Rattle.shelf_io.specs.Files.{Files};
ghost use Rattle.job_report.specs.declared.job.Job.{Job};
ghost use Rattle.program_reader.specs.declared.program.Program.{Program};
ghost use Rattle.job_programs.specs.declared.source_fault.SourceFault.{SourceFault};
ghost use Rattle.job_programs.specs.Alone.{IsAloneOn, IsAloneRefusedOn};
ghost use Rattle.job_programs.specs.Programs.{ArePrograms, IsFirstRefused};
ghost use Rattle.job_programs.specs.Read.{AreReadPrograms};
ghost use Rattle.job_programs.specs.Told.{AreProgramsOn, IsMissingOn, IsProbedOn, IsProbeRefusedOn, IsRefusedOn};

use program_reader::laws::{one_answer, programs_of_files_are_read};

/// The programs of a job, by the contents of its files, are programs that were read, where their videos are bytes.
pub fn programs_of_contents_are_read()
    ensures { (job : Job) (contents : List (List ℕ)) (programs : List Program) → ArePrograms job contents programs → All (λ program. AreBytes program.video) programs
        → AreReadPrograms job programs }
{
    programs_of_files_are_read();
}

/// By given contents of its files a job has one list of programs, or one first refusal, and never both.
pub fn contents_have_one_answer()
    ensures programs { (job : Job) (contents : List (List ℕ)) (one other : List Program) → ArePrograms job contents one → ArePrograms job contents other → one ≡ other }
    ensures refused { (job : Job) (contents : List (List ℕ)) (one other : SourceFault) → IsFirstRefused job contents one → IsFirstRefused job contents other → one ≡ other }
    ensures never_both { (job : Job) (contents : List (List ℕ)) (programs : List Program) (fault : SourceFault) →
        ArePrograms job contents programs → IsFirstRefused job contents fault → ⊥ }
{
    one_answer();
}

/// On told files a job has one list of programs, or one first refusal, or one first file that isn't there, and never two of them.
pub fn files_have_one_answer()
    ensures programs { (files : Files) (job : Job) (one other : List Program) → AreProgramsOn (Some files) job one → AreProgramsOn (Some files) job other → one ≡ other }
    ensures refused { (files : Files) (job : Job) (one other : SourceFault) → IsRefusedOn (Some files) job one → IsRefusedOn (Some files) job other → one ≡ other }
    ensures never_both { (files : Files) (job : Job) (programs : List Program) (fault : SourceFault) →
        AreProgramsOn (Some files) job programs → IsRefusedOn (Some files) job fault → ⊥ }
    ensures missing { (files : Files) (job : Job) (one other : ℕ) → IsMissingOn files job one → IsMissingOn files job other → one ≡ other }
    ensures missing_without_programs { (files : Files) (job : Job) (number : ℕ) (programs : List Program) →
        IsMissingOn files job number → AreProgramsOn (Some files) job programs → ⊥ }
    ensures missing_without_refusal { (files : Files) (job : Job) (number : ℕ) (fault : SourceFault) →
        IsMissingOn files job number → IsRefusedOn (Some files) job fault → ⊥ }
{
    one_answer();
}

/// A told file that is probed has one program, or one refusal, and never both.
pub fn probed_file_has_one_answer()
    ensures program { (files : Files) (name : List ℕ) (slot start number : ℕ) (drop : List ℕ) (one other : Program) →
        IsProbedOn (Some files) name slot start number drop one → IsProbedOn (Some files) name slot start number drop other → one ≡ other }
    ensures refused { (files : Files) (name : List ℕ) (slot start number : ℕ) (drop : List ℕ) (one other : SourceFault) →
        IsProbeRefusedOn (Some files) name slot start number drop one → IsProbeRefusedOn (Some files) name slot start number drop other → one ≡ other }
    ensures never_both { (files : Files) (name : List ℕ) (slot start number : ℕ) (drop : List ℕ) (program : Program) (fault : SourceFault) →
        IsProbedOn (Some files) name slot start number drop program → IsProbeRefusedOn (Some files) name slot start number drop fault → ⊥ }
{
    one_answer();
}

/// A told file whose program is read by itself has one program and one content, or one refusal, and never both.
pub fn lone_program_has_one_answer()
    ensures program { (files : Files) (name : List ℕ) (slot start number : ℕ) (content held : List ℕ) (one other : Program) →
        IsAloneOn (Some files) name slot start number content one → IsAloneOn (Some files) name slot start number held other → (content ≡ held) × (one ≡ other) }
    ensures refused { (files : Files) (name : List ℕ) (slot start number : ℕ) (one other : SourceFault) →
        IsAloneRefusedOn (Some files) name slot start number one → IsAloneRefusedOn (Some files) name slot start number other → one ≡ other }
    ensures never_both { (files : Files) (name : List ℕ) (slot start number : ℕ) (content : List ℕ) (program : Program) (fault : SourceFault) →
        IsAloneOn (Some files) name slot start number content program → IsAloneRefusedOn (Some files) name slot start number fault → ⊥ }
{
    one_answer();
}

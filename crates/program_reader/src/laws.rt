//! Laws of the definitions, each the contract of a function that nobody needs to call.
ghost use Rattle.std.specs.Prelude.{◌≡◌, ◌≢◌, ℕ, List};
ghost use Rattle.bit_lists.specs.Fields.{AreBytes};
ghost use Rattle.ts_demux.specs.declared.carried_streams.CarriedStreams.{CarriedStreams};
ghost use Rattle.ts_demux.specs.declared.demuxed.Demuxed.{Demuxed};
ghost use Rattle.ts_demux.specs.CarriedMap.{HasStreams};
ghost use Rattle.job_report.specs.declared.job.Form.{Form};
ghost use Rattle.program_reader.specs.declared.program.Program.{Program};
ghost use Rattle.program_reader.specs.declared.program_fault.ProgramFault.{ProgramFault};
ghost use Rattle.program_reader.specs.declared.program_fault.ProgramFault.TheVariants.{OutOfMemory};
ghost use Rattle.program_reader.specs.Programs.{IsTakenOut, IsProgramOfFile, IsProgramRefused};
ghost use Rattle.program_reader.specs.ReadProgram.{CanBeWritten, IsReadProgram};

/// A file, its form, a program's number, the PIDs or stream ids that are to be dropped and a start have one answer: what is taken out is one
/// thing, the program is one thing, the refusal is one fault, and never both stand; but for want of memory, which may be said of every file.
pub fn one_answer()
    ensures taken_out { (form : Form) (file : List ℕ) (number : ℕ) (drop : List ℕ) (one other : Demuxed) →
        IsTakenOut form file number drop one → IsTakenOut form file number drop other → one ≡ other }
    ensures program { (form : Form) (file : List ℕ) (number : ℕ) (drop : List ℕ) (start : ℕ) (one other : Program) →
        IsProgramOfFile form file number drop start one → IsProgramOfFile form file number drop start other → one ≡ other }
    ensures refused { (form : Form) (file : List ℕ) (number : ℕ) (drop : List ℕ) (one other : ProgramFault) → one ≢ OutOfMemory → other ≢ OutOfMemory →
        IsProgramRefused form file number drop one → IsProgramRefused form file number drop other → one ≡ other }
    ensures never_both { (form : Form) (file : List ℕ) (number : ℕ) (drop : List ℕ) (start : ℕ) (program : Program) (fault : ProgramFault) →
        IsProgramOfFile form file number drop start program → IsProgramRefused form file number drop fault → fault ≡ OutOfMemory }
{}

/// The program of a file is one that was read, where its video is bytes.
pub fn programs_of_files_are_read()
    ensures { (form : Form) (file : List ℕ) (number : ℕ) (drop : List ℕ) (start : ℕ) (program : Program) → IsProgramOfFile form file number drop start program
        → AreBytes program.video → IsReadProgram start program }
{
    elementary_streams::laws::within_file();
    program_stream::laws::within_file();
}

/// The map of the streams of a program that are carried, as it stands in a transport stream, can be written again.
pub fn maps_can_be_written()
    ensures { (number : ℕ) (drop : List ℕ) (carried : CarriedStreams) (file : List ℕ) → HasStreams number drop carried file → CanBeWritten carried.map }
{}

/// The items of a slice of bytes are bytes.
pub fn see_bytes(bytes: &[u8])
    ensures { AreBytes bytes.now }
{
    let _ = bytes;
}

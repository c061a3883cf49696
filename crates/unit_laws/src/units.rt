//! The versions of all units of a program.

ghost use Rattle.std.specs.Prelude.{◌≡◌, ℕ, List, None, length, Option};
ghost use Rattle.bit_lists.specs.Fields.{AreBytes};
ghost use Rattle.syntax_types.specs.declared.picture.Picture.{Picture};
ghost use Rattle.syntax_types.specs.declared.picture.SeqState.{SeqState};
ghost use Rattle.picture_grammar.specs.Picture.{SpellsPicture};
ghost use Rattle.job_report.specs.declared.job.Form.{Form};
ghost use Rattle.program_reader.specs.declared.program.Program.{Program};
ghost use Rattle.program_reader.specs.Programs.{IsProgramOfFile};
ghost use Rattle.version_maker.specs.declared.version.UnitVersion.{UnitVersion};
ghost use Rattle.version_source.specs.Versions.{AreVideoVersions};
ghost use Rattle.unit_laws.specs.OwnCodes.{codes_from, own_codes};
ghost use Rattle.unit_laws.specs.WholeVersions.{AreWholeVersions, BeginWithSequence};

/// Each version of each unit of a program whose video is bytes is a unit again, whole by its own bytes and with no start code inside a slice, and is
/// read behind the state that the unit before leaves, in whichever version that goes out; and the first unit's versions begin with a sequence header.
pub fn versions_are_whole_units()
    ensures whole { (form : Form) (content : List ℕ) (number : ℕ) (dropped : List ℕ) (start : ℕ) (program : Program) (coarser : List ℕ) (versions : List (List UnitVersion))
        → AreBytes program.video → IsProgramOfFile form content number dropped start program → AreVideoVersions program.video coarser None program.units versions
        → AreWholeVersions None versions }
    ensures led { (form : Form) (content : List ℕ) (number : ℕ) (dropped : List ℕ) (start : ℕ) (program : Program) (coarser : List ℕ) (versions : List (List UnitVersion))
        → AreBytes program.video → IsProgramOfFile form content number dropped start program → AreVideoVersions program.video coarser None program.units versions
        → BeginWithSequence versions }
{}

/// In any bytes that spell a picture the start codes behind its headers are its own: those of its slices, each once and in order, and the sequence end code.
pub fn own_codes_stand_alone()
    ensures { (before : Option SeqState) (picture : Picture) (unit : List ℕ) → AreBytes unit → SpellsPicture before picture unit
        → codes_from unit (length picture.head) ≡ own_codes picture }
{}

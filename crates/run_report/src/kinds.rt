ghost use Rattle.std.specs.Prelude.{◌≡◌, ◌≤◌, length};
ghost use Rattle.run_report.specs.Names.{name_of_kind};

use program_reader::SourceKind;

/// The name of a kind of refusal, as reports print it.
pub fn kind_name(kind: SourceKind) -> &'static str
    ensures name { result.now ≡ name_of_kind kind }
    ensures short { length result.now ≤ 32 }
{
    match kind {
        SourceKind::ShortFile => "ShortFile",
        SourceKind::Sync => "Sync",
        SourceKind::ErrorFlag => "ErrorFlag",
        SourceKind::Scrambled => "Scrambled",
        SourceKind::BadField => "BadField",
        SourceKind::Discontinuity => "Discontinuity",
        SourceKind::Gap => "Gap",
        SourceKind::BadSection => "BadSection",
        SourceKind::BadCrc => "BadCrc",
        SourceKind::NoPat => "NoPat",
        SourceKind::NoProgram => "NoProgram",
        SourceKind::NoPmt => "NoPmt",
        SourceKind::NoVideo => "NoVideo",
        SourceKind::PmtTooLong => "PmtTooLong",
        SourceKind::BadStart => "BadStart",
        SourceKind::BadPack => "BadPack",
        SourceKind::BadPrefix => "BadPrefix",
        SourceKind::Short => "Short",
        SourceKind::BadMarker => "BadMarker",
        SourceKind::BadLength => "BadLength",
        SourceKind::NoSequence => "NoSequence",
        SourceKind::NotMpeg2 => "NotMpeg2",
        SourceKind::Profile => "Profile",
        SourceKind::LowDelay => "LowDelay",
        SourceKind::Size => "Size",
        SourceKind::BadHeader => "BadHeader",
        SourceKind::NoCode => "NoCode",
        SourceKind::TooMany => "TooMany",
        SourceKind::BadEscape => "BadEscape",
        SourceKind::BadType => "BadType",
        SourceKind::BadAddress => "BadAddress",
        SourceKind::BadPattern => "BadPattern",
        SourceKind::End => "End",
        SourceKind::Uncovered => "Uncovered",
        SourceKind::FieldPair => "FieldPair",
        SourceKind::NoTime => "NoTime",
        SourceKind::TimeOrder => "TimeOrder",
        SourceKind::NotLayer2 => "NotLayer2",
        SourceKind::AudioSync => "AudioSync",
        SourceKind::NoAudioTime => "NoAudioTime",
        SourceKind::NoPcr => "NoPcr",
        SourceKind::ProgramLimit => "ProgramLimit",
    }
}

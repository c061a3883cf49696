//! The kinds of refused programs in words: what is wrong, of what the place is a byte, and what helps.

use job_report::Form;

/// Of what the place of a refusal is a byte.
#[derive(Clone, Copy, PartialEq, Eq)]
pub(crate) enum Place {
    /// Of the file, at the start of a packet, or of an element of a program stream.
    File,
    /// Of the program's video, its payloads joined.
    Video,
    /// Of an audio stream, its payloads joined.
    Audio,
    /// Of the video or of an audio stream.
    Stream,
    /// Of nothing: the refusal is one of the whole file or stream.
    Nowhere,
}

/// What helps.
#[derive(Clone, Copy, PartialEq, Eq)]
pub(crate) enum Help {
    /// To look whether it is the file that was meant.
    OtherFile,
    /// To say that the file is a program stream, or to write the packets anew.
    OtherForm,
    /// To write the packets anew.
    Rewrite,
    /// To cut before the packet, and go on with it.
    Cut,
    /// To cut before the packet, and go on behind it.
    CutOut,
    /// To cut before the packet, where what comes behind has times of its own.
    Splice,
    /// To descramble it.
    Descramble,
    /// To look up the number of the program.
    Number,
    /// To name the number that the program of a program stream has.
    NumberOne,
    /// To leave out the form, or to make a transport stream of a program stream.
    Packets,
    /// To code the video anew.
    Recode,
    /// To code the audio anew, or drop it.
    RecodeAudio,
    /// To drop audio streams.
    Drop,
    /// To take another recording.
    Broken,
    /// To cut at a whole frame.
    CutFrame,
    /// To make times anew.
    Times,
    /// To cut the programs, or to take fewer.
    Shorter,
}

/// A kind of refusal.
#[derive(Clone, Copy)]
pub(crate) struct Kind {
    pub(crate) name: &'static str,
    pub(crate) what: &'static str,
    pub(crate) place: Place,
    pub(crate) help: Help,
}

/// The kinds in the order of docs/REFUSALS.md.
static KINDS: [Kind; 42] = [
    Kind {
        name: "ShortFile",
        what: "the file is shorter than a packet",
        place: Place::Nowhere,
        help: Help::OtherFile,
    },
    Kind {
        name: "Sync",
        what: "no packet of 188 bytes begins there",
        place: Place::File,
        help: Help::OtherForm,
    },
    Kind {
        name: "ErrorFlag",
        what: "a packet is marked as wrong",
        place: Place::File,
        help: Help::CutOut,
    },
    Kind {
        name: "Gap",
        what: "packets are missing before this one",
        place: Place::File,
        help: Help::Cut,
    },
    Kind {
        name: "Scrambled",
        what: "the program is scrambled",
        place: Place::File,
        help: Help::Descramble,
    },
    Kind {
        name: "BadField",
        what: "an adaptation field has a wrong length",
        place: Place::File,
        help: Help::Rewrite,
    },
    Kind {
        name: "Discontinuity",
        what: "a splice is signalled, so the times break off",
        place: Place::File,
        help: Help::Splice,
    },
    Kind {
        name: "BadSection",
        what: "a section of the PAT or PMT is wrong",
        place: Place::File,
        help: Help::Rewrite,
    },
    Kind {
        name: "BadCrc",
        what: "a section of the PAT or PMT has a wrong checksum",
        place: Place::File,
        help: Help::Rewrite,
    },
    Kind {
        name: "NoPat",
        what: "the file has no PAT",
        place: Place::Nowhere,
        help: Help::OtherFile,
    },
    Kind {
        name: "NoProgram",
        what: "the file's PAT doesn't name this program",
        place: Place::Nowhere,
        help: Help::Number,
    },
    Kind {
        name: "NoPmt",
        what: "the file has no PMT of this program",
        place: Place::Nowhere,
        help: Help::Number,
    },
    Kind {
        name: "NoVideo",
        what: "the program has no MPEG-2 video",
        place: Place::Nowhere,
        help: Help::Recode,
    },
    Kind {
        name: "PmtTooLong",
        what: "the program's PMT doesn't fit a packet",
        place: Place::Nowhere,
        help: Help::Drop,
    },
    Kind {
        name: "BadStart",
        what: "no start code of a program stream stands there",
        place: Place::File,
        help: Help::Packets,
    },
    Kind {
        name: "BadPack",
        what: "a pack header isn't one of MPEG-2, as those of MPEG-1, which begin with the bits `0010` in place of `01`, aren't",
        place: Place::File,
        help: Help::Recode,
    },
    Kind {
        name: "BadPrefix",
        what: "a PES packet has no start code",
        place: Place::File,
        help: Help::Rewrite,
    },
    Kind {
        name: "Short",
        what: "a PES packet is shorter than its header",
        place: Place::File,
        help: Help::Rewrite,
    },
    Kind {
        name: "BadMarker",
        what: "the header of a PES packet is wrong",
        place: Place::File,
        help: Help::Rewrite,
    },
    Kind {
        name: "BadLength",
        what: "a PES packet isn't as long as it states",
        place: Place::File,
        help: Help::Rewrite,
    },
    Kind {
        name: "NoSequence",
        what: "no whole picture stands behind a sequence header",
        place: Place::Nowhere,
        help: Help::Broken,
    },
    Kind {
        name: "NotMpeg2",
        what: "the video is MPEG-1",
        place: Place::Video,
        help: Help::Recode,
    },
    Kind {
        name: "Profile",
        what: "the video isn't of Main profile at Main level",
        place: Place::Video,
        help: Help::Recode,
    },
    Kind {
        name: "LowDelay",
        what: "the video is coded for low delay",
        place: Place::Video,
        help: Help::Recode,
    },
    Kind {
        name: "Size",
        what: "the pictures are larger than 720x576, or of another frame rate",
        place: Place::Video,
        help: Help::Recode,
    },
    Kind {
        name: "BadHeader",
        what: "a header of the video breaks its rules, such as a buffer over 1,835,008 bits",
        place: Place::Video,
        help: Help::Recode,
    },
    Kind {
        name: "NoCode",
        what: "a picture has bits that are no code",
        place: Place::Video,
        help: Help::Broken,
    },
    Kind {
        name: "TooMany",
        what: "a block of a picture has too many coefficients",
        place: Place::Video,
        help: Help::Broken,
    },
    Kind {
        name: "BadEscape",
        what: "a picture has a forbidden coefficient",
        place: Place::Video,
        help: Help::Broken,
    },
    Kind {
        name: "BadType",
        what: "a macroblock of a picture has no type that may stand there",
        place: Place::Video,
        help: Help::Broken,
    },
    Kind {
        name: "BadAddress",
        what: "a macroblock of a picture has no address that may stand there",
        place: Place::Video,
        help: Help::Broken,
    },
    Kind {
        name: "BadPattern",
        what: "a macroblock of a picture has no pattern of blocks",
        place: Place::Video,
        help: Help::Broken,
    },
    Kind {
        name: "End",
        what: "a picture breaks off",
        place: Place::Video,
        help: Help::Broken,
    },
    Kind {
        name: "Uncovered",
        what: "a picture lacks macroblocks",
        place: Place::Video,
        help: Help::Broken,
    },
    Kind {
        name: "FieldPair",
        what: "a first field has no second one of the other parity",
        place: Place::Video,
        help: Help::CutFrame,
    },
    Kind {
        name: "NoTime",
        what: "the first picture has no time",
        place: Place::Video,
        help: Help::Times,
    },
    Kind {
        name: "TimeOrder",
        what: "a picture or audio frame isn't later than the one before",
        place: Place::Stream,
        help: Help::Times,
    },
    Kind {
        name: "NotLayer2",
        what: "an audio stream isn't MPEG audio of Layer II, or has no packets",
        place: Place::Audio,
        help: Help::RecodeAudio,
    },
    Kind {
        name: "AudioSync",
        what: "an audio stream breaks off",
        place: Place::Audio,
        help: Help::RecodeAudio,
    },
    Kind {
        name: "NoAudioTime",
        what: "the first audio frame has no time",
        place: Place::Audio,
        help: Help::RecodeAudio,
    },
    Kind {
        name: "NoPcr",
        what: "the program has no clock reference",
        place: Place::Nowhere,
        help: Help::Rewrite,
    },
    Kind {
        name: "ProgramLimit",
        what: "the program is larger or longer than is taken",
        place: Place::Nowhere,
        help: Help::Shorter,
    },
];

/// Those of which something else is said where the file is a program stream.
static PROGRAM_STREAM_KINDS: [Kind; 3] = [
    Kind {
        name: "ShortFile",
        what: "the file is shorter than a pack header",
        place: Place::Nowhere,
        help: Help::Packets,
    },
    Kind {
        name: "NoProgram",
        what: "a program stream has one program, of number 1",
        place: Place::Nowhere,
        help: Help::NumberOne,
    },
    Kind {
        name: "BadLength",
        what: "a PES packet isn't as long as it states, or states no length",
        place: Place::File,
        help: Help::Packets,
    },
];

/// The kind of a name, as lines have it, for a file of a form.
pub(crate) fn kind_of(name: &str, form: Form) -> Option<&'static Kind> {
    match form {
        Form::Ts => kind_among(&KINDS, name),
        Form::Ps => match kind_among(&PROGRAM_STREAM_KINDS, name) {
            Some(kind) => Some(kind),
            None => kind_among(&KINDS, name),
        },
    }
}

fn kind_among(kinds: &'static [Kind], name: &str) -> Option<&'static Kind> {
    for kind in kinds {
        if kind.name == name {
            return Some(kind);
        }
    }
    None
}

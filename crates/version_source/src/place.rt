//! Where a stream stands among those of programs.
ghost use Rattle.std.specs.Prelude.{MatchOption, ◌≤◌, length};
ghost use Rattle.version_source.specs.Private.Place.{Covers, IsNoPlace, IsPlace};

use program_reader::Program;

/// A stream of a program.
#[derive(Clone, Copy)]
pub struct Place<'a> {
    /// The number of the program.
    pub program: usize,
    /// The number of the stream within it: 0 is the video, and behind it stand the audio streams.
    pub stream: usize,
    /// The numbers of the versions of its units and of those of the programs behind it.
    pub choice: &'a [u8],
}

/// The place of the stream that has this number over all programs; none where there are fewer streams.
pub fn place_of<'a>(programs: &[Program], choice: &'a [u8], stream: usize) -> Option<Place<'a>>
    requires { Covers programs.now choice.now }
    ensures { MatchOption result (IsNoPlace programs.now choice.now stream) (IsPlace programs.now choice.now stream) }
{
    let mut left = stream;
    let mut rest = choice;
    for k in 0..programs.len() {
        let program = &programs[k];
        let audios = program.audios.len();
        if left <= audios {
            return Some(Place {
                program: k,
                stream: left,
                choice: rest,
            });
        }
        left = left - audios - 1;
        let (_, behind) = rest.split_at(program.units.len());
        rest = behind;
    }
    None
}

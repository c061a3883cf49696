ghost use Rattle.std.specs.Prelude.{◌≡◌, ◌<◌, ℕ, List, [], ◌∷◌, All, length, take, drop, replicate, Some, IfOk, IsErrOf};
ghost use Rattle.bit_lists.specs.Fields.{AreBytes};
ghost use Rattle.version_maker.specs.declared.version.UnitVersion.{UnitVersion};
ghost use Rattle.mux_writer.specs.Pieces.{HasPayloadSize, IsFilledWith};
ghost use Rattle.version_source.specs.Pieces.{HasPiece, pieces_of, stream_items};
ghost use Rattle.version_source.specs.Sendable.{IsSendable};
ghost use Rattle.version_source.specs.Versions.{AreAllVersions, NamesVersions, ratios_of};
ghost use Rattle.version_source.specs.Private.Kept.{AreKept, nothing};
ghost use Rattle.version_source.specs.Private.Made.{HaveVersions, one-made};
ghost use Rattle.version_source.specs.Source.{told_of, HasIt};

use crate::packet::audio_piece;
use crate::place::{Place, place_of};
use crate::sent_video::{SentVideo, Video};
use job_report::ProgramJob;
use list_types::OutOfMemory;
use mux_writer::{Filled, PieceSource};
use program_reader::Program;
use program_reader::laws::see_bytes;
use shelf_io::Fault;
use std::alloc::Global;
use std::marker::Model;
use stream_constants::packets::PAYLOAD_BYTES;

/// Programs in chosen versions.
#[derive(Drop)]
struct Chosen<'a> {
    programs: &'a [Program],
    /// How coarse the versions of each program are.
    jobs: &'a [ProgramJob],
    /// The number of the version of each unit.
    choice: &'a [u8],
    /// All their versions, of which there is one list.
    ghost made: { HaveVersions programs.now (ratios_of jobs.now) } by { one-made programs.now (ratios_of jobs.now) },
}

/// The pieces of programs in chosen versions. Versions are made as they are asked for: of each video one PES packet and the
/// state before its unit are kept.
#[derive(Drop)]
pub struct VersionSource<'a> {
    alloc: Global,
    chosen: Chosen<'a>,
    /// What is kept of the video of each program.
    sent: Vec<SentVideo>,
}

impl<'a> Model for VersionSource<'a> {
    ghost use Rattle.std.specs.Prelude.{List};
    ghost use Rattle.bit_lists.specs.Payload.{Payload};
    ghost use Rattle.version_source.specs.Private.SourceFields.{IsSource, items_of};

    ghost Value = { List (List (List Payload)) };

    ghost view = { items_of };

    ghost invariant = { IsSource };
}

impl<'a> VersionSource<'a> {
    /// The pieces of these programs, each with the ratios that the job says, in the versions that the choice names.
    pub fn new(
        alloc: Global,
        programs: &'a [Program],
        jobs: &'a [ProgramJob],
        choice: &'a [u8],
    ) -> Result<VersionSource<'a>, OutOfMemory>
        requires as_many { length jobs.now ≡ length programs.now }
        requires sendable { All IsSendable programs.now }
        requires names { NamesVersions programs.now (ratios_of jobs.now) choice.now }
        ensures told { IfOk result (λ source. (versions : List (List (List UnitVersion))) → AreAllVersions programs.now (ratios_of jobs.now) versions
            → told_of source ≡ Some (pieces_of (stream_items programs.now versions choice.now))) }
        ensures has { IfOk result (λ source. (versions : List (List (List UnitVersion))) → AreAllVersions programs.now (ratios_of jobs.now) versions
            → (stream item piece : ℕ) → HasPiece (stream_items programs.now versions choice.now) stream item piece → HasIt source stream item piece) }
    {
        let sent = nothing_sent(alloc, programs)?;
        let chosen = Chosen::new(programs, jobs, choice);
        Ok(VersionSource {
            alloc,
            chosen,
            sent,
        })
    }
}

impl<'a> Chosen<'a> {
    /// The programs with the ratios that the job says, in the versions that the choice names.
    fn new(programs: &'a [Program], jobs: &'a [ProgramJob], choice: &'a [u8]) -> Chosen<'a>
        requires as_many { length jobs.now ≡ length programs.now }
        requires sendable { All IsSendable programs.now }
        requires bytes { All (λ program. AreBytes program.video) programs.now }
        ensures programs { result.programs.now ≡ programs.now }
        ensures jobs { result.jobs.now ≡ jobs.now }
        ensures choice { result.choice.now ≡ choice.now }
    {
        Chosen {
            programs,
            jobs,
            choice,
        }
    }
}

impl<'a> PieceSource for VersionSource<'a> {
    ghost use Rattle.std.specs.Prelude.{◌≡◌, Some};
    ghost use Rattle.version_source.specs.Source.{told_of, HasIt};
    ghost use Rattle.std.proofs.Common.{rules};

    ghost told = { told_of };

    ghost has = { HasIt };

    ghost faults = { λ _. 0 };

    ghost keeps = { λ _ _. Unit {0} };

    ghost keeps_itself = { Prim.search rules };

    ghost keeps_on = { Prim.search rules };

    fn piece(
        &mut self,
        stream: u32,
        item: u32,
        piece: u32,
        into: &mut [u8; PAYLOAD_BYTES],
    ) -> Result<Filled, Fault> {
        piece_of_stream(
            self.alloc,
            self.chosen.programs,
            self.chosen.jobs,
            self.chosen.choice,
            self.sent.as_mut_slice(),
            stream,
            item,
            piece,
            into,
        )
    }
}

/// Puts a piece of a stream of the programs into the front of `into`. The error is want of memory.
fn piece_of_stream(
    alloc: Global,
    programs: &[Program],
    jobs: &[ProgramJob],
    choice: &[u8],
    sent: &mut [SentVideo],
    stream: u32,
    item: u32,
    piece: u32,
    into: &mut [u8; PAYLOAD_BYTES],
) -> Result<Filled, Fault>
    requires as_many { length jobs.now ≡ length programs.now }
    requires sendable { All IsSendable programs.now }
    requires names { NamesVersions programs.now (ratios_of jobs.now) choice.now }
    requires made { HaveVersions programs.now (ratios_of jobs.now) }
    requires kept { AreKept programs.now (ratios_of jobs.now) choice.now sent.old }
    requires piece { (versions : List (List (List UnitVersion))) → AreAllVersions programs.now (ratios_of jobs.now) versions
        → HasPiece (stream_items programs.now versions choice.now) stream item piece }
    ensures kept { AreKept programs.now (ratios_of jobs.now) choice.now sent.new }
    ensures size { IfOk result (λ filled. HasPayloadSize filled.bytes) }
    ensures piece { IfOk result (λ filled. (versions : List (List (List UnitVersion))) → AreAllVersions programs.now (ratios_of jobs.now) versions
        → IsFilledWith (pieces_of (stream_items programs.now versions choice.now) stream item piece) filled into.new) }
    ensures not_failed { ¬ IsErrOf result Fault.Failed }
    ensures not_missing { ¬ IsErrOf result Fault.Missing }
{
    match place_of(programs, choice, stream as usize) {
        Some(place) => {
            let program = &programs[place.program];
            if place.stream > 0 {
                let audio = &program.audios.as_slice()[place.stream - 1];
                let part = &audio.pieces.as_slice()[item as usize];
                return Ok(audio_piece(audio.bytes.as_slice(), part, into));
            }
            let video = Video {
                es: program.video.as_slice(),
                units: program.units.as_slice(),
                coarser: jobs[place.program].coarser.as_slice(),
                choice: &place.choice[..program.units.len()],
            };
            match sent[place.program].piece(alloc, &video, item as usize, piece, into) {
                Ok(filled) => Ok(filled),
                Err(OutOfMemory) => Err(Fault::OutOfMemory),
            }
        }
        None => unreachable!(),
    }
}

/// Nothing is sent yet of the videos of programs, which are bytes.
fn nothing_sent(alloc: Global, programs: &[Program]) -> Result<Vec<SentVideo>, OutOfMemory>
    ensures sent { IfOk result (λ sent. sent.items ≡ replicate (length programs.now) nothing) }
    ensures bytes { IfOk result (λ _. All (λ program. AreBytes program.video) programs.now) }
{
    let mut sent = Vec::with_capacity(alloc, programs.len())?;
    for program in programs {
        see_bytes(program.video.as_slice());
        sent.push(SentVideo::new())?;
    }
    Ok(sent)
}

//! The first limit that a line of a text breaks.

ghost use Rattle.std.specs.Prelude.{◌≡◌, ◌+◌, ◌*◌, [], ◌∷◌, ◌&&◌, nat_le, nat_lt, count_by, List};
ghost use Rattle.std.specs.List.{flat_map};
ghost use Rattle.version_table.specs.Order.{last_line};
ghost use Rattle.version_table.specs.Limits.{is_in_range, first_failing, test, version_tests, versions_tests, unit_tests, first_limit, is_program, audios_here, time_most, is_due_later, packet_due, packet_gone};
ghost use Rattle.version_table.specs.Private.Draft.{Allows, IsDraft, lines_of_draft};

use crate::draft::{Draft, greatest_distortion};
use crate::fault::Limit;
use crate::limits::*;
use crate::line::{Line, Stage, StatedVersion};
use crate::table::AudioPacket;
use stream_constants::main_level::VBV_MOST;
use stream_constants::packets::PAYLOAD_BYTES;

impl Draft {
    /// The first limit that a line breaks behind those of the draft, in reading order.
    #[tactic(auto, unfolding(crate::specs::Limits::tests_of))]
    pub fn first_limit(&self, stage: Stage, line: &Line) -> Option<Limit>
        requires draft { IsDraft stage self.now }
        requires stands { Allows stage line.now }
        ensures { result ≡ first_limit (lines_of_draft stage self.now) line.now }
    {
        match line {
            Line::Title => None,
            Line::Slot(ticks) => unless(
                is_in_range(SLOT_LEAST as u64, SLOT_MOST as u64, *ticks),
                Limit::Slot,
            ),
            Line::Nodes(n) => unless(is_in_range(1, NODES_MOST as u64, *n), Limit::Nodes),
            Line::Evaluations(n) => unless(*n <= EVALUATIONS_MOST as u64, Limit::Evaluations),
            Line::Program(vbv) => self.program_limit(stage, *vbv),
            Line::Unit { due, versions } => self.unit_limit(*due, versions.as_slice()),
            Line::Audio => unless(self.audio_count(stage) < AUDIOS_MOST, Limit::Audios),
            Line::Packet { due, gone, bytes } => self.packet_limit(*due, *gone, *bytes),
        }
    }

    /// The first limit that the line of a program breaks.
    #[tactic(auto, unfolding(crate::specs::Limits::tests_of))]
    fn program_limit(&self, stage: Stage, vbv: u64) -> Option<Limit>
        requires draft { IsDraft stage self.now }
        requires stands { Allows stage (Line.Program vbv) }
        ensures { result ≡ first_limit (lines_of_draft stage self.now) (Line.Program vbv) }
    {
        if self.program_count(stage) >= PROGRAMS_MOST {
            return Some(Limit::Programs);
        }
        unless(is_in_range(1, VBV_MOST as u64, vbv), Limit::Vbv)
    }

    /// The first limit that a unit breaks in the open program.
    #[tactic(auto, unfolding(crate::specs::Limits::tests_of))]
    fn unit_limit(&self, due: u64, versions: &[StatedVersion]) -> Option<Limit>
        requires { IsDraft Stage.Units self.now }
        ensures { result ≡ first_failing (unit_tests (lines_of_draft Stage.Units self.now) due versions.now) }
    {
        if self.unit_count >= UNITS_MOST {
            return Some(Limit::Units);
        }
        if due > self.time_most() || !self.is_due_later(due) {
            return Some(Limit::Due);
        }
        self.versions_limit(versions)
    }

    /// The first limit that the versions of a unit break in the open program.
    fn versions_limit(&self, versions: &[StatedVersion]) -> Option<Limit>
        requires { IsDraft Stage.Units self.now }
        ensures { result ≡ first_failing (versions_tests (lines_of_draft Stage.Units self.now) versions.now) }
    {
        match limit_of_versions(versions) {
            Some(limit) => Some(limit),
            None => {
                let room = DISTORTIONS_LIMIT - self.distortions;
                unless(greatest_distortion(versions) < room, Limit::Distortions)
            }
        }
    }

    /// The first limit that a packet breaks in the open audio stream.
    #[tactic(auto, unfolding(crate::specs::Limits::tests_of))]
    fn packet_limit(&self, due: u64, gone: u64, bytes: u64) -> Option<Limit>
        requires { IsDraft Stage.Packets self.now }
        ensures { result ≡ first_limit (lines_of_draft Stage.Packets self.now) (Line.Packet due gone bytes) }
    {
        if self.packet_count >= TEXT_AUDIO_PACKETS_MOST {
            return Some(Limit::Packets);
        }
        let last = self.last_packet();
        let most = self.time_most();
        if !is_in_range(last.due, most, due) {
            return Some(Limit::Due);
        }
        if !is_in_range(due, most, gone) || gone < last.gone {
            return Some(Limit::Gone);
        }
        unless(is_in_range(1, PAYLOAD_BYTES as u64, bytes), Limit::Bytes)
    }

    /// Whether a due time is greater than that of the last unit of the open program.
    fn is_due_later(&self, due: u64) -> bool
        requires { IsDraft Stage.Units self.now }
        ensures { result ≡ is_due_later (last_line (lines_of_draft Stage.Units self.now)) due }
    {
        match self.units.as_slice().last() {
            Some(unit) => unit.due < due,
            None => true,
        }
    }

    /// The last packet of the open audio stream; one of no bytes at time 0 where there is none.
    fn last_packet(&self) -> AudioPacket
        ensures due { result.due ≡ packet_due (last_line (lines_of_draft Stage.Packets self.now)) }
        ensures gone { result.gone ≡ packet_gone (last_line (lines_of_draft Stage.Packets self.now)) }
    {
        match self.packets.as_slice().last() {
            Some(packet) => *packet,
            None => AudioPacket::default(),
        }
    }

    /// The ticks that no due or gone time passes.
    fn time_most(&self) -> u64
        ensures units { result ≡ time_most (lines_of_draft Stage.Units self.now) }
        ensures packets { result ≡ time_most (lines_of_draft Stage.Packets self.now) }
    {
        TIME_SLOTS_MOST * u64::from(self.slot)
    }

    /// How many programs there are.
    fn program_count(&self, stage: Stage) -> usize
        requires draft { IsDraft stage self.now }
        requires stands { Allows stage (Line.Program 0) }
        ensures { result ≡ count_by is_program (lines_of_draft stage self.now) }
    {
        match stage {
            Stage::Programs => self.programs.len(),
            _ => self.programs.as_slice().len() + 1,
        }
    }

    /// How many audio streams the open program has.
    fn audio_count(&self, stage: Stage) -> usize
        requires draft { IsDraft stage self.now }
        requires stands { Allows stage Line.Audio }
        ensures { result ≡ audios_here (lines_of_draft stage self.now) }
    {
        match stage {
            Stage::Packets => self.audios.as_slice().len() + 1,
            _ => self.audios.len(),
        }
    }
}

/// The first limit that the versions of a unit break, each by itself.
fn limit_of_versions(versions: &[StatedVersion]) -> Option<Limit>
    ensures { result ≡ first_failing (flat_map version_tests versions.now) }
{
    for version in versions {
        if !is_in_range(1, VERSION_BYTES_MOST as u64, version.bytes) {
            return Some(Limit::Bytes);
        }
        if version.distortion >= DISTORTION_LIMIT {
            return Some(Limit::Distortion);
        }
    }
    None
}

fn unless(kept: bool, limit: Limit) -> Option<Limit>
    ensures { result ≡ first_failing (test limit kept ∷ []) }
{
    if kept { None } else { Some(limit) }
}

fn is_in_range(low: u64, high: u64, n: u64) -> bool
    ensures { result ≡ is_in_range low high n }
{
    low <= n && n <= high
}

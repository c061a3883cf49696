ghost use Rattle.std.specs.Prelude.{◌≡◌, ◌≤◌, [], ◌∷◌, ◌++◌, List, length, Err, IfNone, IfSome, IfErr};
ghost use Rattle.bit_lists.specs.Payload.{Payload};
ghost use Rattle.psi_tables.specs.Sections.{sections_of};

use crate::section::{Section, SectionFault};
use crate::section_front::SectionFront;
use std::marker::Model;
use std::mem;
use stream_constants::packets::PAYLOAD_BYTES;

/// Reads the sections in the payloads of one PID (ISO/IEC 13818-1, 2.4.4), in order.
///
/// Contracts see it as a list of payloads: those that give the sections that it still gives. So, whatever payloads
/// follow, the sections of all payloads that were fed are those that were pulled and those of this list.
#[derive(Drop)]
pub struct SectionBuilder {
    /// The section that is read.
    front: SectionFront,
    /// Sections wait in these bytes behind it, from `at` to `end`.
    waiting: [u8; PAYLOAD_BYTES],
    at: usize,
    end: usize,
    /// A pointer past its payload is what waits.
    points_past: bool,
}

impl Model for SectionBuilder {
    ghost use Rattle.std.specs.Prelude.{List};
    ghost use Rattle.std.specs.Coded.{coded_list};
    ghost use Rattle.bit_lists.specs.Payload.{Payload, payload_code};

    ghost Value = { List Payload };

    ghost coded = { coded_list payload_code };

    ghost use Rattle.psi_tables.specs.SectionBuilder.{payloads_held, IsInOrder};

    ghost view = { payloads_held };

    ghost invariant = { IsInOrder };
}

impl SectionBuilder {
    ghost use Rattle.psi_tables.specs.SectionBuilder.{found_of};

    /// A builder that was fed nothing.
    pub fn new() -> Self
        ensures empty { result ≡ [] }
        ensures nothing_waits { sections_of result ≡ [] }
    {
        SectionBuilder {
            front: SectionFront::new(),
            waiting: [0; PAYLOAD_BYTES],
            at: 0,
            end: 0,
            points_past: false,
        }
    }

    /// Takes a payload, with its packet's `payload_unit_start_indicator`. It needs that no section waits, as after
    /// `pull` answered None, and a payload of at most `PAYLOAD_BYTES`.
    pub fn feed(&mut self, start: bool, payload: &[u8])
        requires pulled { sections_of self.old ≡ [] }
        requires size { length payload.now ≤ PAYLOAD_BYTES }
        ensures { (later : List Payload) →
            sections_of (self.new ++ later) ≡ sections_of (self.old ++ record { start = start; bytes = payload.now } ∷ later) }
    {
        if !start || payload.is_empty() {
            self.front.go_on(payload);
            return;
        }
        let pointed = 1 + payload[0] as usize;
        if payload.len() <= pointed {
            self.front.clear();
            self.points_past = true;
            return;
        }
        self.front.go_on(&payload[1..pointed]);
        let behind = &payload[pointed..];
        self.waiting[..behind.len()].copy_from_slice(behind);
        self.end = behind.len();
        self.at = 0;
        if !self.front.is_settled() {
            self.front.clear();
            self.at = self.front.begin(behind);
        }
    }

    /// The next section, or why it is none; None where no whole one waits. BadSection: the pointer of a payload is past
    /// it, or a PAT or PMT section has a `section_length` below 9 or above 1,021. BadCrc: the CRC over such a section isn't
    /// 0. After an error the builder is as new.
    pub fn pull(&mut self) -> Option<Result<Section, SectionFault>>
        ensures none { IfNone result (sections_of self.old ≡ []) }
        ensures unchanged { IfNone result (self.new ≡ self.old) }
        ensures found { IfSome result (λ found. (later : List Payload) →
            sections_of (self.old ++ later) ≡ found_of found ∷ sections_of (self.new ++ later)) }
        ensures anew { IfSome result (λ found. IfErr found (λ _. self.new ≡ [])) }
    {
        if self.points_past {
            return Some(self.fail(SectionFault::BadSection));
        }
        if !self.front.is_settled() {
            return None;
        }
        if let Some(fault) = self.front.fault() {
            return Some(self.fail(fault));
        }
        let front = mem::replace(&mut self.front, SectionFront::new());
        let waiting: &[u8] = &self.waiting;
        self.at += self.front.begin(&waiting[self.at..self.end]);
        let SectionFront { section, passed: _ } = front;
        Some(Ok(section))
    }

    /// Gives the fault, and is as new.
    fn fail(&mut self, fault: SectionFault) -> Result<Section, SectionFault>
        ensures fault { result ≡ Err fault }
        ensures anew { self.new ≡ [] }
    {
        *self = Self::new();
        Err(fault)
    }
}

ghost use Rattle.std.specs.Prelude.{◌≡◌, ℕ, true, false, ◌+◌, ◌^◌, ◌<◌, ◌≤◌, nat_le, ◌++◌, [], ◌∷◌, length, take, not, ◌&&◌, Ok, Err, MatchOption};
ghost use Rattle.psi_tables.specs.Section.{section_length};
ghost use Rattle.psi_tables.specs.Sections.{length_end, is_read, has_bad_length, section_size, found_at};
ghost use Rattle.psi_tables.specs.Private.SectionFront.{front_bytes, is_settled, is_bad, missing_bytes, IsSound, IsHeld, IsLike, TakesIn, GoesOn, ReadsOn};

use crate::crc::crc32;
use crate::section::{
    LENGTH_HIGH, PAT_TABLE, PMT_TABLE, SECTION_LENGTH_LEAST, SECTION_LENGTH_MOST, Section,
    SectionFault, UNCOUNTED_BYTES,
};

/// The byte that stands behind the last section of a payload.
const STUFFING_BYTE: u8 = 0xFF;

/// The bytes of a section so far.
#[derive(Drop)]
pub struct SectionFront {
    /// Its bytes, or only those of its header where it is passed over.
    pub section: Section,
    /// How many bytes have been passed over behind that header.
    pub passed: usize,
}

impl SectionFront {
    /// No byte of any section.
    pub fn new() -> Self
        ensures bytes { front_bytes result ≡ [] }
        ensures held { IsHeld result }
    {
        SectionFront {
            section: Section::new(),
            passed: 0,
        }
    }

    /// Drops all bytes.
    pub fn clear(&mut self)
        ensures bytes { front_bytes self.new ≡ [] }
        ensures held { IsHeld self.new }
    {
        self.section.clear();
        self.passed = 0;
    }

    /// Takes bytes that go on with a section, where there is one, up to its end.
    pub fn go_on(&mut self, bytes: &[u8])
        requires held { IsHeld self.old }
        requires unsettled { is_settled (front_bytes self.old) ≡ false }
        ensures { GoesOn (front_bytes self.old) bytes.now self.new }
    {
        if self.section.is_empty() {
            return;
        }
        let _taken = self.take_in(bytes);
        if self.is_passed_over() {
            self.clear();
        }
    }

    /// Takes the bytes of the next section that begins in these and is read, or what there is of it. Gives the number
    /// of bytes that are done with.
    pub fn begin(&mut self, bytes: &[u8]) -> usize
        requires held { IsHeld self.old }
        requires empty { front_bytes self.old ≡ [] }
        ensures { ReadsOn bytes.now result self.new }
    {
        let mut at = 0;
        while at < bytes.len() && bytes[at] != STUFFING_BYTE {
            at += self.take_in(&bytes[at..]);
            if !self.is_passed_over() {
                return at;
            }
            self.clear();
        }
        bytes.len()
    }

    /// True where nothing more belongs to the section: its length is bad, or all its bytes are there.
    #[tactic(auto, using(crate::proofs::Bytes::fronts))]
    pub fn is_settled(&self) -> bool
        requires { IsSound self.now }
        ensures { result ≡ is_settled (front_bytes self.now) }
    {
        self.has_header() && (self.is_bad() || self.size() <= self.len())
    }

    /// What is wrong with a settled section that is read.
    pub fn fault(&self) -> Option<SectionFault>
        requires held { IsHeld self.now }
        requires settled { is_settled (front_bytes self.now) ≡ true }
        ensures { MatchOption result (found_at (front_bytes self.now) ≡ Ok self.now.section.items ∷ [])
            (λ fault. found_at (front_bytes self.now) ≡ Err fault ∷ []) }
    {
        if self.is_bad() {
            return Some(SectionFault::BadSection);
        }
        if crc32(&self.section) != 0 {
            return Some(SectionFault::BadCrc);
        }
        None
    }

    /// Takes bytes up to the section's end, and gives their number.
    fn take_in(&mut self, bytes: &[u8]) -> usize
        requires sound { IsSound self.old }
        requires unsettled { is_settled (front_bytes self.old) ≡ false }
        ensures taken { TakesIn (front_bytes self.old) bytes.now result (front_bytes self.new) }
        ensures sound { IsSound self.new }
    {
        let header = self.take_header(bytes);
        let taken = header + self.missing().min(bytes.len() - header);
        if header < taken {
            self.add(&bytes[header..taken]);
        }
        taken
    }

    /// Takes bytes of the header, and gives their number.
    #[tactic(auto, using(crate::proofs::Bytes::fronts))]
    fn take_header(&mut self, bytes: &[u8]) -> usize
        requires { IsSound self.old }
        ensures bound { result ≤ length bytes.now }
        ensures bytes { front_bytes self.new ≡ front_bytes self.old ++ take result bytes.now }
        ensures sound { IsSound self.new }
        ensures all { length (front_bytes self.new) < length_end → result ≡ length bytes.now }
        ensures no_more { 0 < result → length (front_bytes self.new) ≤ length_end }
    {
        if self.has_header() {
            return 0;
        }
        let taken = (UNCOUNTED_BYTES - self.section.len()).min(bytes.len());
        let _fits = self.section.try_extend_from_slice(&bytes[..taken]);
        taken
    }

    /// Adds bytes behind the header.
    #[tactic(auto, using(crate::proofs::Bytes::fronts))]
    fn add(&mut self, bytes: &[u8])
        requires sound { IsSound self.old }
        requires header { length_end ≤ length (front_bytes self.old) }
        requires good { is_bad (front_bytes self.old) ≡ false }
        requires room { length (front_bytes self.old) + length bytes.now ≤ section_size (front_bytes self.old) }
        ensures like { IsLike (front_bytes self.new) (front_bytes self.old ++ bytes.now) }
        ensures sound { IsSound self.new }
    {
        if is_read(&self.section) {
            let _fits = self.section.try_extend_from_slice(bytes);
        } else {
            self.passed += bytes.len();
        }
    }

    /// How many bytes are still to come, as far as the header says.
    #[tactic(auto, using(crate::proofs::Bytes::fronts))]
    fn missing(&self) -> usize
        requires { IsSound self.now }
        ensures { result ≡ missing_bytes (front_bytes self.now) }
    {
        if !self.has_header() || self.is_bad() {
            return 0;
        }
        self.size().saturating_sub(self.len())
    }

    /// True where the section is of another table and all its bytes are there.
    #[tactic(auto, using(crate::proofs::Bytes::fronts))]
    fn is_passed_over(&self) -> bool
        requires { IsSound self.now }
        ensures { result ≡ (is_settled (front_bytes self.now) && not (is_read (front_bytes self.now))) }
    {
        self.is_settled() && !is_read(&self.section)
    }

    /// True where the header's bytes up to `section_length` are there.
    fn has_header(&self) -> bool
        requires { IsSound self.now }
        ensures value { result ≡ nat_le length_end (length (front_bytes self.now)) }
        ensures kept { result ≡ nat_le length_end (length self.now.section.items) }
    {
        UNCOUNTED_BYTES <= self.section.len()
    }

    fn len(&self) -> usize
        requires { IsSound self.now }
        ensures { result ≡ length (front_bytes self.now) }
    {
        self.section.len() + self.passed
    }

    #[tactic(auto, using(crate::proofs::Bytes::fronts))]
    fn size(&self) -> usize
        requires { length_end ≤ length self.now.section.items }
        ensures { result ≡ section_size (front_bytes self.now) }
    {
        UNCOUNTED_BYTES + section_length(&self.section)
    }

    #[tactic(auto, using(crate::proofs::Bytes::fronts))]
    fn is_bad(&self) -> bool
        requires { length_end ≤ length self.now.section.items }
        ensures { result ≡ is_bad (front_bytes self.now) }
    {
        is_read(&self.section) && has_bad_length(&self.section)
    }
}

/// True where the section is of a table that is read.
#[tactic(auto, using(crate::proofs::Elements::elements))]
fn is_read(section: &[u8]) -> bool
    requires { length_end ≤ length section.now }
    ensures { result ≡ is_read section.now }
{
    section[0] == PAT_TABLE || section[0] == PMT_TABLE
}

/// True where the section is shorter or longer than a PAT or PMT section may be.
fn has_bad_length(section: &[u8]) -> bool
    requires { length_end ≤ length section.now }
    ensures { result ≡ has_bad_length section.now }
{
    let length = section_length(section);
    length < SECTION_LENGTH_LEAST || SECTION_LENGTH_MOST < length
}

/// `section_length`.
#[tactic(auto, using(crate::proofs::Elements::elements))]
fn section_length(section: &[u8]) -> usize
    requires { length_end ≤ length section.now }
    ensures value { result ≡ section_length section.now }
    ensures bound { result < 2 ^ 12 }
{
    u16::from_be_bytes([section[1] & LENGTH_HIGH, section[2]]) as usize
}

//! Laws of the definitions, each the contract of a function that does nothing.

ghost use Rattle.std.specs.Prelude.{◌≡◌, ℕ, ◌<◌, ◌↔◌, List, [], ◌∷◌, ◌++◌, ◌+◌, length, map, replicate, true, Some, Ok};
ghost use Rattle.std.specs.List.{concat};
ghost use Rattle.psi_tables.specs.declared.program_map.ProgramMap.{ProgramMap};
ghost use Rattle.psi_tables.specs.Crc.{IsCrcOf, HasRightCrc};
ghost use Rattle.bit_lists.specs.Payload.{Payload};
ghost use Rattle.psi_tables.specs.Pmt.{IsPmt, HasRoom};
ghost use Rattle.psi_tables.specs.Pat.{IsPat};
ghost use Rattle.psi_tables.specs.PatOf.{pat_of};
ghost use Rattle.psi_tables.specs.PmtOf.{pmt_of};
ghost use Rattle.psi_tables.specs.Sections.{Found, added, crc_over, found_at, going, sections_of, stuffing_byte, GivesInTurn};

/// The CRC by long division, of which sections are made, is the one that the division of polynomials leaves.
pub fn crc_by_long_division()
    ensures crc { (bytes : List ℕ) (crc : ℕ) → IsCrcOf crc bytes ↔ (crc ≡ crc_over bytes) }
    ensures right { (bytes : List ℕ) → (crc_over bytes ≡ 0) ↔ HasRightCrc bytes }
{}

/// How `SectionBuilder` is read in turn: it starts with nothing, and each `feed` and each `pull` that gives keeps what
/// was given in step with what was fed. Where nothing more waits, all sections were given. After each one that is given
/// fewer wait, by which a loop of pulls ends.
pub fn sections_in_turn()
    ensures start { GivesInTurn [] [] [] }
    ensures fed { (fed : List Payload) (given : List Found) (held now : List Payload) (payload : Payload) →
        GivesInTurn fed given held →
        ((later : List Payload) → sections_of (now ++ later) ≡ sections_of (held ++ payload ∷ later)) →
        GivesInTurn (fed ++ payload ∷ []) given now }
    ensures pulled { (fed : List Payload) (given : List Found) (held now : List Payload) (found : Found) →
        GivesInTurn fed given held →
        ((later : List Payload) → sections_of (held ++ later) ≡ found ∷ sections_of (now ++ later)) →
        GivesInTurn fed (given ++ found ∷ []) now }
    ensures all { (fed : List Payload) (given : List Found) (held : List Payload) →
        GivesInTurn fed given held → sections_of held ≡ [] → given ≡ sections_of fed }
    ensures fewer { (held now : List Payload) (found : Found) →
        ((later : List Payload) → sections_of (held ++ later) ≡ found ∷ sections_of (now ++ later)) →
        length (sections_of held) ≡ length (sections_of now) + 1 }
{}

/// Bytes that are one section, with a right length and a right CRC, are read however they are cut, and what follows is
/// read as if they weren't there: alone in a payload with stuffing behind them, or in pieces over payloads of which only
/// the first one has the start flag.
pub fn a_section_in_any_pieces()
    ensures alone { (section : List ℕ) (n : ℕ) (later : List Payload) → found_at section ≡ Ok section ∷ [] →
        sections_of (record { start = true; bytes = 0 ∷ (section ++ replicate n stuffing_byte) } ∷ later) ≡ Ok section ∷ sections_of later }
    ensures pieces { (section first : List ℕ) (pieces : List (List ℕ)) (later : List Payload) →
        section ≡ first ++ concat pieces → 0 < length first → found_at section ≡ Ok section ∷ [] →
        sections_of (record { start = true; bytes = 0 ∷ first } ∷ (map going pieces ++ later)) ≡ Ok section ∷ sections_of later }
{}

/// What payloads give stays what is given first, whatever follows: so each payload adds to the sections of those before.
pub fn each_payload_adds()
    ensures { (before : List Payload) (payload : Payload) → sections_of (before ++ payload ∷ []) ≡ sections_of before ++ added before payload }
{}

/// What a section says of a program, as a relation and as a function: bytes are a current PMT section of the program, with room
/// for what is kept of it, exactly where the function has it.
pub fn pmt_by_function()
    ensures { (section : List ℕ) (program : ProgramMap) → (pmt_of section ≡ Some program) ↔ (IsPmt program section × HasRoom program) }
{}

/// What a PAT section says, as a relation and as a function: bytes are a current PAT section of these programs exactly where the
/// function has them.
pub fn pat_by_function()
    ensures { (section : List ℕ) (programs : List (ℕ × ℕ)) → (pat_of section ≡ Some programs) ↔ IsPat programs section }
{}

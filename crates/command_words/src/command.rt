ghost use Rattle.std.specs.Prelude.{◌≡◌, ◌≢◌, ◌≤◌, ◌<◌, ◌⊎◌, ◌↔◌, ◌∷◌, [], map, length, get_or, IsTrue};
ghost use Rattle.std.specs.String.{string_bytes};
ghost use Rattle.command_words.specs.Command.{IsCheckCommand, IsCheckPlanCommand, IsFitCommand, IsImpossibleCommand, IsPlanCommand, IsRunCommand, IsSaid};
ghost use Rattle.command_words.specs.Decimal.{IsDecimal};
ghost use Rattle.command_words.specs.Parsed.{command_of};
ghost use Rattle.command_words.specs.Private.Parsed.{IsAuditSaid, IsDecimalWithin, IsGenSaid, IsProbeSaid};

use job_report::limits::NUMBER_MOST;
use program_maker::PICTURES_MOST;
use version_table::limits::{SLOT_LEAST, SLOT_MOST};

/// A command as its words say it.
#[derive(Clone, Copy)]
pub enum Parsed<'a> {
    Plan(PlanFiles<'a>),
    Gen(GenWords<'a>),
    Run(RunFiles<'a>),
    Check(CheckFiles<'a>),
    Probe(ProbeWords<'a>),
    CheckPlan(CheckPlanFiles<'a>),
    Impossible(ImpossibleFiles<'a>),
    Fit(FitFiles<'a>),
    Audit(AuditWords<'a>),
}

/// The file names of `plan TABLE CERT`.
#[derive(Clone, Copy)]
pub struct PlanFiles<'a> {
    /// The table text.
    pub table: &'a str,
    /// The certificate to write.
    pub certificate: &'a str,
}

/// The words of `gen SEED PICTURES OUT`.
#[derive(Clone, Copy)]
pub struct GenWords<'a> {
    /// The state before the first draw.
    pub seed: u64,
    /// How many pictures, 1 to 4,096.
    pub pictures: u32,
    /// The stream to write.
    pub out: &'a str,
}

/// The file names of `run JOB OUT CERT`.
#[derive(Clone, Copy)]
pub struct RunFiles<'a> {
    /// The job text.
    pub job: &'a str,
    /// The stream to write.
    pub out: &'a str,
    /// The certificate to write.
    pub certificate: &'a str,
}

/// The file names of `check JOB CERT`.
#[derive(Clone, Copy)]
pub struct CheckFiles<'a> {
    /// The job text.
    pub job: &'a str,
    /// The certificate to check.
    pub certificate: &'a str,
}

/// The file names of `check-plan TABLE CERT`.
#[derive(Clone, Copy)]
pub struct CheckPlanFiles<'a> {
    /// The table text.
    pub table: &'a str,
    /// The certificate to check.
    pub certificate: &'a str,
}

/// The words of `probe FILE PROGRAM TABLE`.
#[derive(Clone, Copy)]
pub struct ProbeWords<'a> {
    /// The transport stream.
    pub file: &'a str,
    /// The program_number of the program that is probed, at least 1.
    pub program: u16,
    /// The table text to write.
    pub table: &'a str,
}

/// The file name of `impossible TABLE`.
#[derive(Clone, Copy)]
pub struct ImpossibleFiles<'a> {
    /// The table text.
    pub table: &'a str,
}

/// The file names of `fit JOB LIST`.
#[derive(Clone, Copy)]
pub struct FitFiles<'a> {
    /// The job text.
    pub job: &'a str,
    /// The list of slots.
    pub list: &'a str,
}

/// The words of `audit FILE PROGRAM SLOT`.
#[derive(Clone, Copy)]
pub struct AuditWords<'a> {
    /// The transport stream.
    pub file: &'a str,
    /// The program_number of the program that is judged, at least 1.
    pub program: u16,
    /// Ticks of a packet slot, 1,016 to 40,000.
    pub slot: u32,
}

/// The command that words say; none where they are those of no command.
pub fn parse(words: &[String]) -> Option<Parsed<'_>>
    ensures { IsSaid (map string_bytes words.now) (command_of result) }
{
    match words {
        [verb, name] => parse_one(verb.as_str(), name.as_str()),
        [verb, first, second] => parse_pair(verb.as_str(), first.as_str(), second.as_str()),
        [verb, first, second, third] => parse_three(
            verb.as_str(),
            first.as_str(),
            second.as_str(),
            third.as_str(),
        ),
        _ => None,
    }
}

/// The command that a verb and a word say.
fn parse_one<'a>(verb: &str, name: &'a str) -> Option<Parsed<'a>>
    ensures { IsSaid (verb.now ∷ name.now ∷ []) (command_of result) }
{
    if is_impossible(verb, name) {
        return Some(Parsed::Impossible(ImpossibleFiles { table: name }));
    }
    None
}

/// Whether two words are `impossible TABLE`.
fn is_impossible(verb: &str, table: &str) -> bool
    ensures { IsTrue result ↔ IsImpossibleCommand (verb.now ∷ table.now ∷ []) table.now }
{
    !table.is_empty() && verb == "impossible"
}

/// The command that a verb and two words say.
fn parse_pair<'a>(verb: &str, first: &'a str, second: &'a str) -> Option<Parsed<'a>>
    ensures { IsSaid (verb.now ∷ first.now ∷ second.now ∷ []) (command_of result) }
{
    if is_plan(verb, first, second) {
        return Some(Parsed::Plan(PlanFiles {
            table: first,
            certificate: second,
        }));
    }
    if is_check(verb, first, second) {
        return Some(Parsed::Check(CheckFiles {
            job: first,
            certificate: second,
        }));
    }
    if is_check_plan(verb, first, second) {
        return Some(Parsed::CheckPlan(CheckPlanFiles {
            table: first,
            certificate: second,
        }));
    }
    if is_fit(verb, first, second) {
        return Some(Parsed::Fit(FitFiles {
            job: first,
            list: second,
        }));
    }
    None
}

/// Whether three words are `check JOB CERT`.
fn is_check(verb: &str, job: &str, certificate: &str) -> bool
    ensures { IsTrue result ↔ IsCheckCommand (verb.now ∷ job.now ∷ certificate.now ∷ []) job.now certificate.now }
{
    verb == "check" && !job.is_empty() && !certificate.is_empty() && job != certificate
}

/// Whether three words are `check-plan TABLE CERT`.
fn is_check_plan(verb: &str, table: &str, certificate: &str) -> bool
    ensures { IsTrue result ↔ IsCheckPlanCommand (verb.now ∷ table.now ∷ certificate.now ∷ []) table.now certificate.now }
{
    verb == "check-plan" && !table.is_empty() && !certificate.is_empty() && table != certificate
}

/// Whether three words are `fit JOB LIST`.
fn is_fit(verb: &str, job: &str, list: &str) -> bool
    ensures { IsTrue result ↔ IsFitCommand (verb.now ∷ job.now ∷ list.now ∷ []) job.now list.now }
{
    verb == "fit" && !job.is_empty() && !list.is_empty() && job != list
}

/// The command that a verb and three words say.
fn parse_three<'a>(
    verb: &str,
    first: &'a str,
    second: &'a str,
    third: &'a str,
) -> Option<Parsed<'a>>
    ensures { IsSaid (verb.now ∷ first.now ∷ second.now ∷ third.now ∷ []) (command_of result) }
{
    if is_run(verb, first, second, third) {
        return Some(Parsed::Run(RunFiles {
            job: first,
            out: second,
            certificate: third,
        }));
    }
    match parse_gen(verb, first, second, third) {
        Some(words) => Some(Parsed::Gen(words)),
        None => match parse_probe(verb, first, second, third) {
            Some(words) => Some(Parsed::Probe(words)),
            None => match parse_audit(verb, first, second, third) {
                Some(words) => Some(Parsed::Audit(words)),
                None => None,
            },
        },
    }
}

/// Whether four words are `run JOB OUT CERT`.
fn is_run(verb: &str, job: &str, out: &str, certificate: &str) -> bool
    ensures { IsTrue result ↔ IsRunCommand (verb.now ∷ job.now ∷ out.now ∷ certificate.now ∷ []) job.now out.now certificate.now }
{
    verb == "run" && are_named(job, out, certificate) && are_apart(job, out, certificate)
}

/// Whether none of three names is empty.
fn are_named(first: &str, second: &str, third: &str) -> bool
    ensures { IsTrue result ↔ (first.now ≢ []) × (second.now ≢ []) × (third.now ≢ []) }
{
    !first.is_empty() && !second.is_empty() && !third.is_empty()
}

/// Whether three names are different.
fn are_apart(first: &str, second: &str, third: &str) -> bool
    ensures { IsTrue result ↔ (first.now ≢ second.now) × (first.now ≢ third.now) × (second.now ≢ third.now) }
{
    first != second && first != third && second != third
}

/// Whether three words are `plan TABLE CERT`.
fn is_plan(verb: &str, table: &str, certificate: &str) -> bool
    ensures { IsTrue result ↔ IsPlanCommand (verb.now ∷ table.now ∷ certificate.now ∷ []) table.now certificate.now }
{
    verb == "plan" && !table.is_empty() && !certificate.is_empty() && table != certificate
}

/// The words `gen SEED PICTURES OUT`, where four words are these.
fn parse_gen<'a>(verb: &str, seed: &str, pictures: &str, out: &'a str) -> Option<GenWords<'a>>
    ensures { IsGenSaid (verb.now ∷ seed.now ∷ pictures.now ∷ out.now ∷ []) result }
{
    if verb != "gen" || out.is_empty() {
        return None;
    }
    let seed = decimal_number(seed)?;
    let pictures = decimal_number(pictures)?;
    if pictures < 1 || pictures > PICTURES_MOST as u64 {
        return None;
    }
    let pictures = pictures as u32;
    Some(GenWords {
        seed,
        pictures,
        out,
    })
}

/// The words `probe FILE PROGRAM TABLE`, where four words are these.
fn parse_probe<'a>(
    verb: &str,
    file: &'a str,
    program: &str,
    table: &'a str,
) -> Option<ProbeWords<'a>>
    ensures { IsProbeSaid (verb.now ∷ file.now ∷ program.now ∷ table.now ∷ []) result }
{
    if verb != "probe" || !are_two_names(file, table) {
        return None;
    }
    let program = decimal_number(program)?;
    if program < 1 || program > NUMBER_MOST as u64 {
        return None;
    }
    let program = program as u16;
    Some(ProbeWords {
        file,
        program,
        table,
    })
}

/// The words `audit FILE PROGRAM SLOT`, where four words are these.
fn parse_audit<'a>(verb: &str, file: &'a str, program: &str, slot: &str) -> Option<AuditWords<'a>>
    ensures { IsAuditSaid (verb.now ∷ file.now ∷ program.now ∷ slot.now ∷ []) result }
{
    if verb != "audit" || file.is_empty() {
        return None;
    }
    let program = decimal_within(program, 1, NUMBER_MOST as u64)?;
    let slot = decimal_within(slot, SLOT_LEAST as u64, SLOT_MOST as u64)?;
    Some(AuditWords {
        file,
        program: program as u16,
        slot: slot as u32,
    })
}

/// Whether two names are different, and none of them is empty.
fn are_two_names(first: &str, second: &str) -> bool
    ensures { IsTrue result ↔ (first.now ≢ []) × (second.now ≢ []) × (first.now ≢ second.now) }
{
    !first.is_empty() && !second.is_empty() && first != second
}

/// The number from `least` to `most` that a word is in decimal, without sign or needless leading zero.
fn decimal_within(word: &str, least: u64, most: u64) -> Option<u64>
    ensures { IsDecimalWithin word.now least most result }
{
    let n = decimal_number(word)?;
    if n < least || n > most {
        return None;
    }
    Some(n)
}

/// The number below 2^64 that a word is in decimal, without sign or needless leading zero.
pub fn decimal_number(word: &str) -> Option<u64>
    ensures { IsDecimal word.now result }
{
    if !begins_plainly(word.as_bytes()) {
        return None;
    }
    match word.parse::<u64>() {
        Ok(n) => Some(n),
        Err(_) => None,
    }
}

/// Whether a word begins with neither a sign nor a needless zero.
fn begins_plainly(word: &[u8]) -> bool
    ensures { IsTrue result ↔ (get_or word.now 0 0 ≢ 43) × (get_or word.now 0 0 ≡ 48 → length word.now ≡ 1) }
{
    match word {
        [b'+', ..] => false,
        [b'0', _, ..] => false,
        _ => true,
    }
}

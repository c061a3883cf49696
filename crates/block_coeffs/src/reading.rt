ghost use Rattle.std.specs.Prelude.{◌≡◌, ◌≤◌, ◌<◌, ◌+◌, IfOk, IfErr, OnOk, OnErr, IfSome, IsErrOf, IsNone, IsTrue, MatchResult, List, [], ℕ, false, length};
ghost use Rattle.shelf_io.specs.Counts.{Rose};
ghost use Rattle.bit_cursor.specs.BitReader.{bits_left, bits_held, place, faults_of, absences_of, KeepsSource};
ghost use Rattle.syntax_types.specs.declared.block.Block.{Block};
ghost use Rattle.picture_grammar.specs.Grammar.{many, optional};
ghost use Rattle.picture_grammar.specs.Block.{block, coefficient, coefficient_table, dc_coefficient};
ghost use Rattle.prefix_codes.specs.TableName.{is_coefficients, is_sizes};
ghost use Rattle.block_coeffs.specs.Private.Pairs.{IsBehind, ReadsOn, RefusesOn};
ghost use Rattle.block_coeffs.specs.Private.Standing.{StandsNext};
ghost use Rattle.block_coeffs.specs.Private.DcStanding.{dc_by};
ghost use Rattle.grammar_reading.specs.Window.{ShowsFront};
ghost use Rattle.grammar_reading.specs.BitsRead.{Advances, AnswersSpelling, BeginsWith, Explains, Reads};
ghost use Rattle.block_coeffs.specs.BlockFault.{refusal_told};

use crate::dc_standing::{DcStanding, what_dc};
use crate::fault::BlockFault;
use crate::short_codes::{PAIR_WORDS, SHORT_BITS, length_in, level_in, run_in, short_word};
use crate::standing::{Standing, what_stands, what_stands_whole};
use arrayvec::ArrayVec;
use bit_cursor::BitReader;
use grammar_reading::{held_window, whole_window};
use picture_grammar::stands::size_table;
use prefix_codes::{TableName, WINDOW_BITS};
use shelf_io::{Fault, Source};
use syntax_types::{BLOCK_PLACES, Block, BlockWay, Dc, RunLevel};

/// The block that the next bits spell (6.2.6): the DC coefficient of an intra block, then runs and levels up to the end
/// of block. The answer is the kind and the place of the refusal where they spell none, and Outside where the source
/// failed. After an answer that isn't Ok the next bits are still the source's in order, behind some that were taken.
pub fn read_block<S: Source>(
    from: &mut BitReader<'_, S>,
    way: BlockWay,
) -> Result<Block, BlockFault>
    ensures ok { IfOk result (λ b. Reads (block way) b from.old from.new) }
    ensures exact { AnswersSpelling (block way) refusal_told result from.old from.new }
    ensures refused { IfErr result (λ fault. Explains (block way) from.old (refusal_told fault)) }
    ensures advances { Advances from.old from.new }

    ensures failed { IsErrOf result (BlockFault.Outside Fault.Failed) → Rose (faults_of from.old) (faults_of from.new) }
    ensures missing { IsErrOf result (BlockFault.Outside Fault.Missing) → Rose (absences_of from.old) (absences_of from.new) }
    ensures keeps { KeepsSource from.old from.new }
{
    let mut block = Block::default();
    read_block_into(from, way, &mut block)?;
    Ok(block)
}

/// The same into a block that is lent, whatever it holds. After an answer that isn't Ok it may hold anything.
#[inline(always)]
pub fn read_block_into<S: Source>(
    from: &mut BitReader<'_, S>,
    way: BlockWay,
    into: &mut Block,
) -> Result<(), BlockFault>
    ensures ok { OnOk result (Reads (block way) into.new from.old from.new) }
    ensures exact { (b : Block) (rest : List ℕ) → BeginsWith (block way) b from.old rest →
        MatchResult result (λ _. (into.new ≡ b) × (bits_left from.new ≡ Some rest)) (λ fault. IsNone (refusal_told fault)) }
    ensures refused { IfErr result (λ fault. Explains (block way) from.old (refusal_told fault)) }
    ensures advances { Advances from.old from.new }

    ensures failed { IsErrOf result (BlockFault.Outside Fault.Failed) → Rose (faults_of from.old) (faults_of from.new) }
    ensures missing { IsErrOf result (BlockFault.Outside Fault.Missing) → Rose (absences_of from.old) (absences_of from.new) }
    ensures keeps { KeepsSource from.old from.new }
{
    into.dc = read_first(from, way)?;
    into.pairs.clear();
    read_pairs(from, way, &mut into.pairs)
}

/// The DC coefficient of an intra block, and None of another one.
#[inline(always)]
fn read_first<S: Source>(
    from: &mut BitReader<'_, S>,
    way: BlockWay,
) -> Result<Option<Dc>, BlockFault>
    ensures ok { IfOk result (λ dc. Reads (optional way.intra (dc_coefficient way)) dc from.old from.new) }
    ensures refused { IfErr result (λ fault. Explains (optional way.intra (dc_coefficient way)) from.old (refusal_told fault)) }
    ensures kept { OnErr result (bits_left from.new ≡ bits_left from.old) }
    ensures kept_place { OnErr result (place from.new ≡ place from.old) }

    ensures failed { IsErrOf result (BlockFault.Outside Fault.Failed) → Rose (faults_of from.old) (faults_of from.new) }
    ensures missing { IsErrOf result (BlockFault.Outside Fault.Missing) → Rose (absences_of from.old) (absences_of from.new) }
    ensures keeps { KeepsSource from.old from.new }
{
    if way.intra {
        let dc = read_dc(from, size_table(way))?;
        Ok(Some(dc))
    } else {
        Ok(None)
    }
}

/// The DC coefficient that stands next, by a table of sizes. It takes no bit where none stands there.
fn read_dc<S: Source>(from: &mut BitReader<'_, S>, table: TableName) -> Result<Dc, BlockFault>
    requires { IsTrue (is_sizes table) }
    ensures ok { IfOk result (λ dc. Reads (dc_by table) dc from.old from.new) }
    ensures refused { IfErr result (λ fault. Explains (dc_by table) from.old (refusal_told fault)) }
    ensures kept { OnErr result (bits_left from.new ≡ bits_left from.old) }
    ensures kept_place { OnErr result (place from.new ≡ place from.old) }

    ensures failed { IsErrOf result (BlockFault.Outside Fault.Failed) → Rose (faults_of from.old) (faults_of from.new) }
    ensures missing { IsErrOf result (BlockFault.Outside Fault.Missing) → Rose (absences_of from.old) (absences_of from.new) }
    ensures keeps { KeepsSource from.old from.new }
{
    from.hold_ahead(WINDOW_BITS)?;
    match what_dc(table, held_window(from)) {
        DcStanding::Coefficient { dc, len } => {
            from.skip(len);
            Ok(dc)
        }
        DcStanding::Refused { why, behind } => Err(why.at(from.place() + u64::from(behind))),
    }
}

/// The coefficients up to the end of block, behind none. The table of all but the first one is a constant in each of the
/// loops that come of this.
#[inline(always)]
fn read_pairs<S: Source>(
    from: &mut BitReader<'_, S>,
    way: BlockWay,
    into: &mut ArrayVec<RunLevel, BLOCK_PLACES>,
) -> Result<(), BlockFault>
    requires { into.old.items ≡ [] }
    ensures ok { OnOk result (Reads (many (coefficient way)) (into.new.items, tt) from.old from.new) }
    ensures refused { IfErr result (λ fault. Explains (many (coefficient way)) from.old (refusal_told fault)) }
    ensures advances { OnErr result (Advances from.old from.new) }

    ensures failed { IsErrOf result (BlockFault.Outside Fault.Failed) → Rose (faults_of from.old) (faults_of from.new) }
    ensures missing { IsErrOf result (BlockFault.Outside Fault.Missing) → Rose (absences_of from.old) (absences_of from.new) }
    ensures keeps { KeepsSource from.old from.new }
{
    if !way.intra {
        return read_from_first(from, way, into);
    }
    if way.vlc_one {
        read_others(from, way, TableName::CoeffOne, 1, into)
    } else {
        read_others(from, way, TableName::CoeffZero, 1, into)
    }
}

/// The coefficients of a non-intra block: the first one has a table of its own (7.2.2.1).
#[inline(always)]
fn read_from_first<S: Source>(
    from: &mut BitReader<'_, S>,
    way: BlockWay,
    into: &mut ArrayVec<RunLevel, BLOCK_PLACES>,
) -> Result<(), BlockFault>
    requires way { way.intra ≡ false }
    requires none { into.old.items ≡ [] }
    ensures ok { OnOk result (Reads (many (coefficient way)) (into.new.items, tt) from.old from.new) }
    ensures refused { IfErr result (λ fault. Explains (many (coefficient way)) from.old (refusal_told fault)) }
    ensures advances { OnErr result (Advances from.old from.new) }

    ensures failed { IsErrOf result (BlockFault.Outside Fault.Failed) → Rose (faults_of from.old) (faults_of from.new) }
    ensures missing { IsErrOf result (BlockFault.Outside Fault.Missing) → Rose (absences_of from.old) (absences_of from.new) }
    ensures keeps { KeepsSource from.old from.new }
{
    let standing = stands_next(from, TableName::CoeffFirst, 0)?;
    match standing {
        Standing::EndOfBlock { len } => {
            from.skip(len);
            Ok(())
        }
        Standing::Pair { word, next } => {
            from.skip(length_in(word));
            into.push(RunLevel {
                run: run_in(word) as u8,
                level: level_in(word),
            });
            read_others(from, way, TableName::CoeffZero, next, into)
        }
        Standing::Refused { why, behind } => Err(why.at(from.place() + u64::from(behind))),
    }
}

/// The coefficients from a place behind the first one up to the end of block, behind others that were read.
#[inline(always)]
fn read_others<S: Source>(
    from: &mut BitReader<'_, S>,
    way: BlockWay,
    table: TableName,
    first: u32,
    into: &mut ArrayVec<RunLevel, BLOCK_PLACES>,
) -> Result<(), BlockFault>
    requires table { table ≡ coefficient_table way 1 }
    requires coefficients { IsTrue (is_coefficients table) }
    requires behind { 0 < first }
    requires place { IsBehind way first into.old.items }
    ensures ok { ReadsOn way into.old.items into.new.items result from.old from.new }
    ensures refused { RefusesOn way into.old.items result from.old }
    ensures advances { OnErr result (Advances from.old from.new) }

    ensures failed { IsErrOf result (BlockFault.Outside Fault.Failed) → Rose (faults_of from.old) (faults_of from.new) }
    ensures missing { IsErrOf result (BlockFault.Outside Fault.Missing) → Rose (absences_of from.old) (absences_of from.new) }
    ensures keeps { KeepsSource from.old from.new }
{
    let mut index = first;
    'coefficients: loop {
        let standing = stands_next(from, table, index)?;
        match standing {
            Standing::EndOfBlock { len } => {
                from.skip(len);
                return Ok(());
            }
            Standing::Pair { word, next } => {
                from.skip(length_in(word));
                into.push(RunLevel {
                    run: run_in(word) as u8,
                    level: level_in(word),
                });
                index = next;
            }
            Standing::Refused { why, behind } => {
                return Err(why.at(from.place() + u64::from(behind)));
            }
        }
    }
}

/// What stands next, by a table of coefficients at an index of the block, and held with it. The word of the first bits tells most coefficients
/// and the end of block, so that no more bits are asked for; the table tells all others.
#[inline(always)]
fn stands_next<S: Source>(
    from: &mut BitReader<'_, S>,
    table: TableName,
    index: u32,
) -> Result<Standing, Fault>
    requires table { IsTrue (is_coefficients table) }
    requires index { index ≤ BLOCK_PLACES }
    ensures found { IfOk result (StandsNext table index (bits_left from.new) (bits_held from.new)) }
    ensures left { bits_left from.new ≡ bits_left from.old }
    ensures stays { place from.new ≡ place from.old }

    ensures failed { IsErrOf result Fault.Failed → Rose (faults_of from.old) (faults_of from.new) }
    ensures missing { IsErrOf result Fault.Missing → Rose (absences_of from.old) (absences_of from.new) }
    ensures keeps { KeepsSource from.old from.new }
{
    if from.hold_ahead(SHORT_BITS)? {
        let word = short_word(table, from.held_front(SHORT_BITS));
        if word >= PAIR_WORDS {
            let next = index + run_in(word) + 1;
            if next <= BLOCK_PLACES as u32 {
                return Ok(Standing::Pair { word, next });
            }
        } else if word > 0 {
            return Ok(Standing::EndOfBlock {
                len: length_in(word),
            });
        }
    }
    stands_by_table(from, table, index)
}

/// The same by the table itself: by a whole window, or by all bits that are left.
#[inline(always)]
fn stands_by_table<S: Source>(
    from: &mut BitReader<'_, S>,
    table: TableName,
    index: u32,
) -> Result<Standing, Fault>
    requires table { IsTrue (is_coefficients table) }
    requires index { index ≤ BLOCK_PLACES }
    ensures found { IfOk result (StandsNext table index (bits_left from.new) (bits_held from.new)) }
    ensures left { bits_left from.new ≡ bits_left from.old }
    ensures stays { place from.new ≡ place from.old }

    ensures failed { IsErrOf result Fault.Failed → Rose (faults_of from.old) (faults_of from.new) }
    ensures missing { IsErrOf result Fault.Missing → Rose (absences_of from.old) (absences_of from.new) }
    ensures keeps { KeepsSource from.old from.new }
{
    if from.hold_ahead(WINDOW_BITS)? {
        return Ok(what_stands_whole(table, index, whole_window(from)));
    }
    Ok(what_stands(table, index, held_window(from)))
}

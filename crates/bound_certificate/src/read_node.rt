ghost use Rattle.std.specs.Prelude.{◌≡◌, ◌⊎◌, ◌↔◌, IsTrue, ◌+◌, ◌*◌, ◌≤◌, ◌++◌, ◌∷◌, length, take, drop, IfOk, IfErr, MatchOption};
ghost use Rattle.std.specs.List.{flat_map, AllByRecursion};
ghost use Rattle.std.specs.Int.{w16, w32, to_be_bytes, from_be_bytes};
ghost use Rattle.buffer_windows.specs.declared.constants.TheConstants.{BUFFER_WINDOWS_MOST};
ghost use Rattle.bound_certificate.specs.Cert.{IsStatedBufferWindow, IsStatedMultiplier, IsStatedWindow, NodeMayStand};
ghost use Rattle.bound_certificate.specs.Private.Texts.{AreCounted, AreLongCounted, IsBody, IsCount, IsLongCount, IsKind, IsNode, IsOneOf, IsOfKind, IsStop, code_of};
ghost use Rattle.bound_certificate.specs.Spelling.{bytes_of_buffer_window, bytes_of_multiplier, bytes_of_node, bytes_of_window};

use crate::cert::Node;
use crate::cursor::{Cursor, number_at};
use crate::fault::Stop;
use crate::priced::Priced;
use crate::read::last_most;
use buffer_windows::{BufferWindow, BufferWindows};
use dual_bounds::constants::WINDOWS_MOST;
use dual_bounds::{Multiplier, Window};
use list_types::{ListOf, OutOfMemory};
use std::alloc::Global;

/// Bytes of a multiplier: its due time and its lambda.
pub(crate) const MULTIPLIER_BYTES: usize = 16;
/// Bytes of a window: where it begins, its due time and its lambda.
pub(crate) const WINDOW_BYTES: usize = 24;
/// Bytes of a window that sees the buffers: its first slot, due time, programs, tail slot and lambda.
pub(crate) const BUFFER_WINDOW_BYTES: usize = 25;

/// The kind of a node, which is its first byte.
#[derive(Clone, Copy)]
pub(crate) enum Kind {
    Branch,
    Dual,
    Run,
    Open,
    Window,
    BufferWindow,
}

/// The next node, of a certificate of this version.
pub(crate) fn read_node(alloc: Global, cursor: &mut Cursor<'_>, version: u8) -> Result<Node, Stop>
    ensures stands { IfOk result (NodeMayStand version) }
    ensures bytes { IfOk result (λ node. cursor.old ≡ bytes_of_node node ++ cursor.new) }
    ensures stop { IfErr result (IsStop (IsNode version) cursor.old) }
{
    let kind = read_kind(cursor, version)?;
    read_body(alloc, cursor, kind)
}

/// The next byte, a kind of node of this version.
fn read_kind(cursor: &mut Cursor<'_>, version: u8) -> Result<Kind, Stop>
    ensures next { IfOk result (λ kind. cursor.old ≡ code_of kind ∷ cursor.new) }
    ensures kind { IfOk result (λ kind. IsKind version (code_of kind)) }
    ensures stop { IfErr result (IsStop (IsOneOf (IsKind version)) cursor.old) }
{
    let left = cursor.left();
    let byte = cursor.byte(0, u8::MAX)?;
    match kind_of(byte, version) {
        Some(kind) => Ok(kind),
        None => Err(Stop::At { left }),
    }
}

/// The kind of node of this version that a byte stands for.
fn kind_of(byte: u8, version: u8) -> Option<Kind>
    ensures { MatchOption result (IsKind version byte → ⊥) (λ kind. IsKind version byte × (code_of kind ≡ byte)) }
{
    match byte {
        1 => Some(Kind::Branch),
        2 => { if version == 1 { Some(Kind::Dual) } else { None } }
        3 => Some(Kind::Run),
        4 => Some(Kind::Open),
        5 => {
            if has_windows(version) {
                Some(Kind::Window)
            } else {
                None
            }
        }
        6 => {
            if has_buffer_windows(version) {
                Some(Kind::BufferWindow)
            } else {
                None
            }
        }
        _ => None,
    }
}

/// Whether windows stand in certificates of this version.
fn has_windows(version: u8) -> bool
    ensures { IsTrue result ↔ ((version ≡ 2) ⊎ (version ≡ 3)) }
{
    version == 2 || version == 3
}

/// Whether windows that see the buffers stand in certificates of this version.
fn has_buffer_windows(version: u8) -> bool
    ensures { IsTrue result ↔ (version ≡ 3) }
{
    version == 3
}

/// The node of this kind, without its first byte.
#[tactic(auto, unfolding(crate::specs::Spelling::bytes_of_node))]
fn read_body(alloc: Global, cursor: &mut Cursor<'_>, kind: Kind) -> Result<Node, Stop>
    ensures kind { IfOk result (IsOfKind kind) }
    ensures bytes { IfOk result (λ node. code_of kind ∷ cursor.old ≡ bytes_of_node node ++ cursor.new) }
    ensures stop { IfErr result (IsStop (IsBody (code_of kind)) cursor.old) }
{
    match kind {
        Kind::Branch => {
            let block = cursor.block(4)?;
            Ok(Node::Branch {
                unit: short_number(block),
            })
        }
        Kind::Dual => Ok(Node::Dual {
            with: read_multipliers(alloc, cursor)?,
        }),
        Kind::Run => {
            let flag = cursor.byte(0, 1)?;
            Ok(Node::Run {
                scheduled: flag == 1,
            })
        }
        Kind::Open => Ok(Node::Open),
        Kind::Window => Ok(Node::Window {
            with: read_windows(alloc, cursor)?,
        }),
        Kind::BufferWindow => Ok(Node::BufferWindow {
            with: read_buffer_windows(alloc, cursor)?,
        }),
    }
}

/// A count of up to 64 in the next two bytes.
fn read_count(cursor: &mut Cursor<'_>) -> Result<usize, Stop>
    ensures next { IfOk result (λ count. cursor.old ≡ 0 ∷ count ∷ cursor.new) }
    ensures few { IfOk result (λ count. count ≤ WINDOWS_MOST) }
    ensures stop { IfErr result (IsStop IsCount cursor.old) }
{
    cursor.byte(0, 0)?;
    let count = cursor.byte(0, WINDOWS_MOST as u8)?;
    Ok(count as usize)
}

/// Counted multipliers.
fn read_multipliers(alloc: Global, cursor: &mut Cursor<'_>) -> Result<Priced<Multiplier>, Stop>
    ensures few { IfOk result (λ priced. length priced.items ≤ WINDOWS_MOST) }
    ensures stated { IfOk result (λ priced. AllByRecursion IsStatedMultiplier priced.items) }
    ensures next { IfOk result (λ priced. cursor.old ≡ 0 ∷ length priced.items ∷ flat_map bytes_of_multiplier priced.items ++ cursor.new) }
    ensures stop { IfErr result (IsStop (AreCounted MULTIPLIER_BYTES) cursor.old) }
{
    let count = read_count(cursor)?;
    let block = cursor.block(MULTIPLIER_BYTES * count)?;
    Ok(multipliers_in(alloc, block, count)?)
}

/// The multipliers in these bytes.
fn multipliers_in(
    alloc: Global,
    block: &[u8],
    count: usize,
) -> Result<Priced<Multiplier>, OutOfMemory>
    requires size { length block.now ≡ MULTIPLIER_BYTES * count }
    requires few { count ≤ WINDOWS_MOST }
    ensures count { IfOk result (λ priced. length priced.items ≡ count) }
    ensures stated { IfOk result (λ priced. AllByRecursion IsStatedMultiplier priced.items) }
    ensures bytes { IfOk result (λ priced. flat_map bytes_of_multiplier priced.items ≡ block.now) }
{
    let mut multipliers = ListOf::from_vec(Vec::with_capacity(alloc, count)?);
    for i in 0..count {
        multipliers.push(multiplier_at(block, MULTIPLIER_BYTES * i))?;
    }
    Ok(Priced::from_list(multipliers))
}

/// The multiplier in the bytes from a place on.
fn multiplier_at(bytes: &[u8], place: usize) -> Multiplier
    requires { place + MULTIPLIER_BYTES ≤ length bytes.now }
    ensures stated { IsStatedMultiplier result }
    ensures bytes { bytes_of_multiplier result ≡ take MULTIPLIER_BYTES (drop place bytes.now) }
{
    Multiplier {
        due: number_at(bytes, place),
        lambda: number_at(bytes, place + 8),
    }
}

/// Counted windows.
fn read_windows(alloc: Global, cursor: &mut Cursor<'_>) -> Result<Priced<Window>, Stop>
    ensures few { IfOk result (λ priced. length priced.items ≤ WINDOWS_MOST) }
    ensures stated { IfOk result (λ priced. AllByRecursion IsStatedWindow priced.items) }
    ensures next { IfOk result (λ priced. cursor.old ≡ 0 ∷ length priced.items ∷ flat_map bytes_of_window priced.items ++ cursor.new) }
    ensures stop { IfErr result (IsStop (AreCounted WINDOW_BYTES) cursor.old) }
{
    let count = read_count(cursor)?;
    let block = cursor.block(WINDOW_BYTES * count)?;
    Ok(windows_in(alloc, block, count)?)
}

/// The windows in these bytes.
fn windows_in(alloc: Global, block: &[u8], count: usize) -> Result<Priced<Window>, OutOfMemory>
    requires size { length block.now ≡ WINDOW_BYTES * count }
    requires few { count ≤ WINDOWS_MOST }
    ensures count { IfOk result (λ priced. length priced.items ≡ count) }
    ensures stated { IfOk result (λ priced. AllByRecursion IsStatedWindow priced.items) }
    ensures bytes { IfOk result (λ priced. flat_map bytes_of_window priced.items ≡ block.now) }
{
    let mut windows = ListOf::from_vec(Vec::with_capacity(alloc, count)?);
    for i in 0..count {
        windows.push(window_at(block, WINDOW_BYTES * i))?;
    }
    Ok(Priced::from_list(windows))
}

/// The window in the bytes from a place on.
fn window_at(bytes: &[u8], place: usize) -> Window
    requires { place + WINDOW_BYTES ≤ length bytes.now }
    ensures stated { IsStatedWindow result }
    ensures bytes { bytes_of_window result ≡ take WINDOW_BYTES (drop place bytes.now) }
{
    Window {
        from: number_at(bytes, place),
        due: number_at(bytes, place + 8),
        lambda: number_at(bytes, place + 16),
    }
}

/// A count of up to 4,096 in the next two bytes.
fn read_long_count(cursor: &mut Cursor<'_>) -> Result<usize, Stop>
    ensures next { IfOk result (λ count. cursor.old ≡ to_be_bytes w16 count ++ cursor.new) }
    ensures few { IfOk result (λ count. count ≤ BUFFER_WINDOWS_MOST) }
    ensures stop { IfErr result (IsStop IsLongCount cursor.old) }
{
    let high = cursor.byte(0, 16)?;
    let most = last_most(high);
    let low = cursor.byte(0, most)?;
    Ok(usize::from(u16::from_be_bytes([high, low])))
}

/// Counted windows that see the buffers.
fn read_buffer_windows(alloc: Global, cursor: &mut Cursor<'_>) -> Result<BufferWindows, Stop>
    ensures few { IfOk result (λ priced. length priced ≤ BUFFER_WINDOWS_MOST) }
    ensures stated { IfOk result (AllByRecursion IsStatedBufferWindow) }
    ensures next { IfOk result (λ priced. cursor.old ≡ to_be_bytes w16 (length priced) ++ (flat_map bytes_of_buffer_window priced ++ cursor.new)) }
    ensures stop { IfErr result (IsStop (AreLongCounted BUFFER_WINDOW_BYTES) cursor.old) }
{
    let count = read_long_count(cursor)?;
    let block = cursor.block(BUFFER_WINDOW_BYTES * count)?;
    Ok(buffer_windows_in(alloc, block, count)?)
}

/// The windows that see the buffers in these bytes.
fn buffer_windows_in(
    alloc: Global,
    block: &[u8],
    count: usize,
) -> Result<BufferWindows, OutOfMemory>
    requires size { length block.now ≡ BUFFER_WINDOW_BYTES * count }
    requires few { count ≤ BUFFER_WINDOWS_MOST }
    ensures count { IfOk result (λ priced. length priced ≡ count) }
    ensures stated { IfOk result (AllByRecursion IsStatedBufferWindow) }
    ensures bytes { IfOk result (λ priced. flat_map bytes_of_buffer_window priced ≡ block.now) }
{
    let mut windows = BufferWindows::new(alloc);
    for i in 0..count {
        windows.push(buffer_window_at(block, BUFFER_WINDOW_BYTES * i))?;
    }
    Ok(windows)
}

/// The window that sees the buffers in the bytes from a place on.
fn buffer_window_at(bytes: &[u8], place: usize) -> BufferWindow
    requires { place + BUFFER_WINDOW_BYTES ≤ length bytes.now }
    ensures stated { IsStatedBufferWindow result }
    ensures bytes { bytes_of_buffer_window result ≡ take BUFFER_WINDOW_BYTES (drop place bytes.now) }
{
    BufferWindow {
        first: short_number_at(bytes, place),
        due: number_at(bytes, place + 4),
        programs: bytes[place + 12],
        tail: short_number_at(bytes, place + 13),
        lambda: number_at(bytes, place + 17),
    }
}

/// The number in 4 bytes from a place on.
fn short_number_at(bytes: &[u8], place: usize) -> u32
    requires { place + 4 ≤ length bytes.now }
    ensures { to_be_bytes w32 result ≡ take 4 (drop place bytes.now) }
{
    short_number(&bytes[place..place + 4])
}

/// The number in 4 bytes.
pub(crate) fn short_number(bytes: &[u8]) -> u32
    requires { length bytes.now ≡ 4 }
    ensures value { result ≡ from_be_bytes w32 bytes.now }
    ensures bytes { to_be_bytes w32 result ≡ bytes.now }
{
    u32::from_be_bytes([bytes[0], bytes[1], bytes[2], bytes[3]])
}

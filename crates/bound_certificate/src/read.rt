ghost use Rattle.std.specs.Prelude.{◌≡◌, ◌<◌, ◌≤◌, ◌^◌, ◌⊎◌, ◌++◌, length, IfOk, IfErr, OnOk};
ghost use Rattle.std.specs.List.{flat_map, AllByRecursion};
ghost use Rattle.std.specs.Int.{w32, to_be_bytes};
ghost use Rattle.bit_lists.specs.Fields.{AreBytes};
ghost use Rattle.bound_certificate.specs.Cert.{IsCert, NodeMayStand};
ghost use Rattle.bound_certificate.specs.Private.Texts.{AreTexts, IsChoice, IsMark, IsNode, IsNodeCount, IsStop, IsText, IsTree, IsWholeStop, last_least, last_most};
ghost use Rattle.bound_certificate.specs.Reading.{CertReading, Holds, IsFaultOf, IsCertRead, Says};
ghost use Rattle.bound_certificate.specs.Spelling.{bytes_of_node, mark, cert_spelling};

use crate::cert::{Cert, Node};
use crate::cursor::{Cursor, number_at};
use crate::fault::{CertFormat, Stop};
use crate::limits::CERT_BYTES_MOST;
use crate::read_node::{read_node, short_number};
use list_types::{ListOf, OutOfMemory};
use std::alloc::Global;
use version_table::Choice;
use version_table::limits::NODES_MOST;

/// The certificate that bytes spell, of version 1, 2 or 3, or the first byte that no certificate has there.
///
/// `CertSyntax` names that byte, counted from 0; where the bytes end too early it is their number. More than `CERT_BYTES_MOST`
/// bytes are refused at that place before all else. `OutOfMemory` may come at any time.
pub fn read_cert(alloc: Global, bytes: &[u8]) -> Result<Cert, CertFormat>
    // What is answered is so.
    ensures cert { IfOk result (λ cert. IsCertRead bytes.now (Holds cert)) }
    ensures refusal { IfErr result (IsFaultOf bytes.now) }

    // What is so is answered, unless memory is wanted.
    ensures only { (reading : CertReading) → IsCertRead bytes.now reading → Says result reading }
{
    if bytes.len() > CERT_BYTES_MOST {
        return Err(CertFormat::CertSyntax(CERT_BYTES_MOST as u64));
    }
    read_within(alloc, bytes)
}

/// Reads bytes that aren't too many.
fn read_within(alloc: Global, bytes: &[u8]) -> Result<Cert, CertFormat>
    requires { length bytes.now ≤ CERT_BYTES_MOST }
    ensures cert { IfOk result (λ cert. IsCertRead bytes.now (Holds cert)) }
    ensures refusal { IfErr result (IsFaultOf bytes.now) }
{
    match read_whole(alloc, bytes) {
        Ok(cert) => Ok(cert),
        Err(Stop::At { left }) => Err(CertFormat::CertSyntax(
            bytes.len().saturating_sub(left) as u64,
        )),
        Err(Stop::OutOfMemory) => Err(CertFormat::OutOfMemory),
    }
}

/// A certificate and nothing behind it.
fn read_whole(alloc: Global, bytes: &[u8]) -> Result<Cert, Stop>
    ensures cert { IfOk result (λ cert. AreBytes bytes.now → IsCert cert) }
    ensures bytes { IfOk result (λ cert. bytes.now ≡ cert_spelling cert) }
    ensures stop { IfErr result (IsWholeStop bytes.now) }
{
    let mut cursor = Cursor::new(bytes);
    let cert = read_text(alloc, &mut cursor)?;
    let left = cursor.left();
    if left > 0 {
        return Err(Stop::At { left });
    }
    Ok(cert)
}

/// A certificate.
#[tactic(auto, unfolding(crate::specs::Spelling::cert_spelling))]
fn read_text(alloc: Global, cursor: &mut Cursor<'_>) -> Result<Cert, Stop>
    ensures cert { IfOk result (λ cert. AreBytes cursor.old → IsCert cert) }
    ensures bytes { IfOk result (λ cert. cursor.old ≡ cert_spelling cert ++ cursor.new) }
    ensures stop { IfErr result (IsStop IsText cursor.old) }
{
    read_mark(cursor)?;
    let version = cursor.byte(1, 3)?;
    let numbers = cursor.block(16)?;
    let choice = read_choice(alloc, cursor)?;
    let nodes = read_tree(alloc, cursor, version)?;
    Ok(Cert {
        version,
        bound: number_at(numbers, 0),
        distortion: number_at(numbers, 8),
        choice,
        nodes,
    })
}

/// The mark at the front.
fn read_mark(cursor: &mut Cursor<'_>) -> Result<(), Stop>
    ensures next { OnOk result (cursor.old ≡ mark ++ cursor.new) }
    ensures stop { IfErr result (IsStop IsMark cursor.old) }
{
    cursor.byte(b'R', b'R')?;
    cursor.byte(b'M', b'M')?;
    cursor.byte(b'X', b'X')?;
    cursor.byte(b'C', b'C')?;
    Ok(())
}

/// How many units there are, and the version of each.
fn read_choice(alloc: Global, cursor: &mut Cursor<'_>) -> Result<Choice, Stop>
    ensures few { IfOk result (λ choice. length choice < 2 ^ 32) }
    ensures next { IfOk result (λ choice. cursor.old ≡ to_be_bytes w32 (length choice) ++ (choice ++ cursor.new)) }
    ensures stop { IfErr result (IsStop IsChoice cursor.old) }
{
    let count = short_number(cursor.block(4)?) as usize;
    let block = cursor.block(count)?;
    Ok(copy_of(alloc, block)?)
}

/// A copy of some bytes.
fn copy_of(alloc: Global, bytes: &[u8]) -> Result<ListOf<u8>, OutOfMemory>
    ensures { IfOk result (λ copy. copy ≡ bytes.now) }
{
    let mut copy = Vec::new(alloc);
    copy.extend_from_slice(bytes)?;
    Ok(ListOf::from_vec(copy))
}

/// How many nodes there are, and each of them.
fn read_tree(alloc: Global, cursor: &mut Cursor<'_>, version: u8) -> Result<ListOf<Node>, Stop>
    ensures some { IfOk result (λ nodes. 1 ≤ length nodes) }
    ensures few { IfOk result (λ nodes. length nodes ≤ NODES_MOST) }
    ensures stand { IfOk result (AllByRecursion (NodeMayStand version)) }
    ensures next { IfOk result (λ nodes. cursor.old ≡ to_be_bytes w32 (length nodes) ++ (flat_map bytes_of_node nodes ++ cursor.new)) }
    ensures stop { IfErr result (IsStop (IsTree version) cursor.old) }
{
    let count = read_node_count(cursor)?;
    read_nodes(alloc, cursor, version, count)
}

/// So many nodes.
fn read_nodes(
    alloc: Global,
    cursor: &mut Cursor<'_>,
    version: u8,
    count: u32,
) -> Result<ListOf<Node>, Stop>
    ensures count { IfOk result (λ nodes. length nodes ≡ count) }
    ensures stand { IfOk result (AllByRecursion (NodeMayStand version)) }
    ensures next { IfOk result (λ nodes. cursor.old ≡ flat_map bytes_of_node nodes ++ cursor.new) }
    ensures stop { IfErr result (IsStop (AreTexts count (IsNode version)) cursor.old) }
{
    let mut nodes = ListOf::new(alloc);
    for _read in 0..count {
        nodes.push(read_node(alloc, cursor, version)?)?;
    }
    Ok(nodes)
}

/// The number of nodes, from 1 to `NODES_MOST`, in 4 bytes.
fn read_node_count(cursor: &mut Cursor<'_>) -> Result<u32, Stop>
    ensures some { IfOk result (λ count. 1 ≤ count) }
    ensures few { IfOk result (λ count. count ≤ NODES_MOST) }
    ensures next { IfOk result (λ count. cursor.old ≡ to_be_bytes w32 count ++ cursor.new) }
    ensures stop { IfErr result (IsStop IsNodeCount cursor.old) }
{
    cursor.byte(0, 0)?;
    let second = cursor.byte(0, 16)?;
    let most = last_most(second);
    let third = cursor.byte(0, most)?;
    let least = last_least(second, third);
    let fourth = cursor.byte(least, most)?;
    Ok(u32::from_be_bytes([0, second, third, fourth]))
}

/// The greatest byte behind this one, where both are a number of up to 16 times 256.
pub(crate) fn last_most(second: u8) -> u8
    requires { second ≤ 16 }
    ensures { result ≡ last_most second }
{
    if second == 16 { 0 } else { u8::MAX }
}

/// The least last byte of the number of nodes.
fn last_least(second: u8, third: u8) -> u8
    ensures { result ≡ last_least second third }
{
    if second == 0 && third == 0 { 1 } else { 0 }
}

ghost use Rattle.std.specs.Prelude.{◌≡◌, ◌^◌, ◌<◌, ◌≤◌, ◌++◌, ◌∷◌, [], length, IfOk, OnOk};
ghost use Rattle.std.specs.List.{flat_map};
ghost use Rattle.std.specs.Int.{w16, w32, w64, to_be_bytes};
ghost use Rattle.bit_lists.specs.Fields.{flag};
ghost use Rattle.buffer_windows.specs.declared.constants.TheConstants.{BUFFER_WINDOWS_MOST};
ghost use Rattle.bound_certificate.specs.Cert.{IsCert};
ghost use Rattle.bound_certificate.specs.Reading.{Holds, IsCertRead, IsWritable};
ghost use Rattle.bound_certificate.specs.Spelling.{bytes_of_buffer_window, bytes_of_multiplier, bytes_of_node, bytes_of_window, cert_spelling};

use crate::cert::{Cert, Node};
use buffer_windows::BufferWindow;
use dual_bounds::constants::WINDOWS_MOST;
use dual_bounds::{Multiplier, Window};
use list_types::{ListOf, OutOfMemory};
use std::alloc::Global;

/// The bytes of a certificate, in its one spelling. Fails only for want of memory.
#[tactic(auto, unfolding(crate::specs::Spelling::cert_spelling))]
pub fn write_cert(alloc: Global, cert: &Cert) -> Result<ListOf<u8>, OutOfMemory>
    requires { IsWritable cert.now }
    ensures bytes { IfOk result (λ bytes. bytes ≡ cert_spelling cert.now) }
    // What is written is read as this certificate, whose numbers have room in their bytes by their types.
    ensures read { IfOk result (λ bytes. IsCert cert.now → IsCertRead bytes (Holds cert.now)) }
{
    let mut out = Vec::new(alloc);
    out.extend_from_slice(b"RMXC")?;
    out.push(cert.version)?;
    out.extend_from_slice(&cert.bound.to_be_bytes())?;
    out.extend_from_slice(&cert.distortion.to_be_bytes())?;
    push_choice(&mut out, cert.choice.as_slice())?;
    out.extend_from_slice(&(cert.nodes.len() as u32).to_be_bytes())?;
    push_nodes(&mut out, cert.nodes.as_slice())?;
    Ok(ListOf::from_vec(out))
}

fn push_choice(out: &mut Vec<u8>, choice: &[u8]) -> Result<(), OutOfMemory>
    requires few { length choice.now < 2 ^ 32 }
    ensures { OnOk result (out.new.items ≡ out.old.items ++ (to_be_bytes w32 (length choice.now) ++ choice.now)) }
{
    out.extend_from_slice(&(choice.len() as u32).to_be_bytes())?;
    out.extend_from_slice(choice)?;
    Ok(())
}

fn push_nodes(out: &mut Vec<u8>, nodes: &[Node]) -> Result<(), OutOfMemory>
    ensures { OnOk result (out.new.items ≡ out.old.items ++ flat_map bytes_of_node nodes.now) }
{
    for node in nodes {
        push_node(out, node)?;
    }
    Ok(())
}

#[tactic(auto, unfolding(crate::specs::Spelling::bytes_of_node))]
fn push_node(out: &mut Vec<u8>, node: &Node) -> Result<(), OutOfMemory>
    ensures { OnOk result (out.new.items ≡ out.old.items ++ bytes_of_node node.now) }
{
    match node {
        Node::Branch { unit } => push_branch(out, *unit),
        Node::Dual { with } => push_multipliers(out, with.as_slice()),
        Node::Run { scheduled } => push_run(out, *scheduled),
        Node::Open => push_open(out),
        Node::Window { with } => push_windows(out, with.as_slice()),
        Node::BufferWindow { with } => push_buffer_windows(out, with.as_slice()),
    }
}

fn push_branch(out: &mut Vec<u8>, unit: u32) -> Result<(), OutOfMemory>
    ensures { OnOk result (out.new.items ≡ out.old.items ++ 0x01 ∷ to_be_bytes w32 unit) }
{
    out.push(1)?;
    out.extend_from_slice(&unit.to_be_bytes())?;
    Ok(())
}

fn push_run(out: &mut Vec<u8>, scheduled: bool) -> Result<(), OutOfMemory>
    ensures { OnOk result (out.new.items ≡ out.old.items ++ 0x03 ∷ flag scheduled ∷ []) }
{
    out.push(3)?;
    out.push(u8::from(scheduled))?;
    Ok(())
}

fn push_open(out: &mut Vec<u8>) -> Result<(), OutOfMemory>
    ensures { OnOk result (out.new.items ≡ out.old.items ++ 0x04 ∷ []) }
{
    out.push(4)?;
    Ok(())
}

fn push_multipliers(out: &mut Vec<u8>, multipliers: &[Multiplier]) -> Result<(), OutOfMemory>
    requires { length multipliers.now ≤ WINDOWS_MOST }
    ensures { OnOk result (out.new.items ≡ out.old.items ++ 0x02 ∷ (to_be_bytes w16 (length multipliers.now) ++ flat_map bytes_of_multiplier multipliers.now)) }
{
    out.push(2)?;
    out.extend_from_slice(&(multipliers.len() as u16).to_be_bytes())?;
    push_each_multiplier(out, multipliers)
}

fn push_each_multiplier(out: &mut Vec<u8>, multipliers: &[Multiplier]) -> Result<(), OutOfMemory>
    ensures { OnOk result (out.new.items ≡ out.old.items ++ flat_map bytes_of_multiplier multipliers.now) }
{
    for multiplier in multipliers {
        push_multiplier(out, *multiplier)?;
    }
    Ok(())
}

fn push_multiplier(out: &mut Vec<u8>, multiplier: Multiplier) -> Result<(), OutOfMemory>
    ensures { OnOk result (out.new.items ≡ out.old.items ++ bytes_of_multiplier multiplier) }
{
    push_number(out, multiplier.due)?;
    push_number(out, multiplier.lambda)?;
    Ok(())
}

fn push_windows(out: &mut Vec<u8>, windows: &[Window]) -> Result<(), OutOfMemory>
    requires { length windows.now ≤ WINDOWS_MOST }
    ensures { OnOk result (out.new.items ≡ out.old.items ++ 0x05 ∷ (to_be_bytes w16 (length windows.now) ++ flat_map bytes_of_window windows.now)) }
{
    out.push(5)?;
    out.extend_from_slice(&(windows.len() as u16).to_be_bytes())?;
    push_each_window(out, windows)
}

fn push_each_window(out: &mut Vec<u8>, windows: &[Window]) -> Result<(), OutOfMemory>
    ensures { OnOk result (out.new.items ≡ out.old.items ++ flat_map bytes_of_window windows.now) }
{
    for window in windows {
        push_window(out, *window)?;
    }
    Ok(())
}

fn push_window(out: &mut Vec<u8>, window: Window) -> Result<(), OutOfMemory>
    ensures { OnOk result (out.new.items ≡ out.old.items ++ bytes_of_window window) }
{
    push_number(out, window.from)?;
    push_number(out, window.due)?;
    push_number(out, window.lambda)?;
    Ok(())
}

fn push_buffer_windows(out: &mut Vec<u8>, windows: &[BufferWindow]) -> Result<(), OutOfMemory>
    requires { length windows.now ≤ BUFFER_WINDOWS_MOST }
    ensures { OnOk result (out.new.items ≡ out.old.items ++ 0x06 ∷ (to_be_bytes w16 (length windows.now) ++ flat_map bytes_of_buffer_window windows.now)) }
{
    out.push(6)?;
    out.extend_from_slice(&(windows.len() as u16).to_be_bytes())?;
    push_each_buffer_window(out, windows)
}

fn push_each_buffer_window(out: &mut Vec<u8>, windows: &[BufferWindow]) -> Result<(), OutOfMemory>
    ensures { OnOk result (out.new.items ≡ out.old.items ++ flat_map bytes_of_buffer_window windows.now) }
{
    for window in windows {
        push_buffer_window(out, *window)?;
    }
    Ok(())
}

fn push_buffer_window(out: &mut Vec<u8>, window: BufferWindow) -> Result<(), OutOfMemory>
    ensures { OnOk result (out.new.items ≡ out.old.items ++ bytes_of_buffer_window window) }
{
    push_short_number(out, window.first)?;
    push_number(out, window.due)?;
    out.push(window.programs)?;
    push_short_number(out, window.tail)?;
    push_number(out, window.lambda)?;
    Ok(())
}

/// A number in 4 bytes.
fn push_short_number(out: &mut Vec<u8>, number: u32) -> Result<(), OutOfMemory>
    ensures { OnOk result (out.new.items ≡ out.old.items ++ to_be_bytes w32 number) }
{
    out.extend_from_slice(&number.to_be_bytes())?;
    Ok(())
}

/// A number in 8 bytes.
fn push_number(out: &mut Vec<u8>, number: u64) -> Result<(), OutOfMemory>
    ensures { OnOk result (out.new.items ≡ out.old.items ++ to_be_bytes w64 number) }
{
    out.extend_from_slice(&number.to_be_bytes())?;
    Ok(())
}

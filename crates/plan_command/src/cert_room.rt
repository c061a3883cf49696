//! What is known of a certificate's numbers by their types: that they have room in its bytes.

ghost use Rattle.std.specs.Prelude.{◌^◌, ◌<◌, length};
ghost use Rattle.std.specs.List.{AllByRecursion};
ghost use Rattle.bit_lists.specs.Fields.{AreBytes};
ghost use Rattle.bound_certificate.specs.Cert.{HasRoom, IsCert, IsStatedBufferWindow, IsStatedMultiplier, IsStatedWindow};
ghost use Rattle.bound_certificate.specs.Reading.{IsWritable};

use bound_certificate::{Cert, Node};
use buffer_windows::BufferWindow;
use dual_bounds::{Multiplier, Window};

/// A certificate that may be written is one that is read back. It only looks at the numbers.
pub(crate) fn look_at_cert(cert: &Cert)
    requires writable { IsWritable cert.now }
    requires few_units { length cert.now.choice < 2 ^ 32 }
    ensures { IsCert cert.now }
{
    look_at_number(cert.bound);
    look_at_number(cert.distortion);
    look_at_bytes(cert.choice.as_slice());
    look_at_nodes(cert.nodes.as_slice());
}

fn look_at_number(_number: u64)
    ensures { _number < 2 ^ 64 }
{}

fn look_at_bytes(bytes: &[u8])
    ensures { AreBytes bytes.now }
{
    let _count = bytes.len();
}

fn look_at_nodes(nodes: &[Node])
    ensures { AllByRecursion HasRoom nodes.now }
{
    for node in nodes {
        look_at_node(node);
    }
}

fn look_at_node(node: &Node)
    ensures { HasRoom node.now }
{
    match node {
        Node::Branch { unit } => {
            let _unit = *unit;
        }
        Node::Dual { with } => look_at_multipliers(with.as_slice()),
        Node::Run { scheduled: _ } => {}
        Node::Open => {}
        Node::Window { with } => look_at_windows(with.as_slice()),
        Node::BufferWindow { with } => look_at_buffer_windows(with.as_slice()),
    }
}

fn look_at_multipliers(multipliers: &[Multiplier])
    ensures { AllByRecursion IsStatedMultiplier multipliers.now }
{
    for multiplier in multipliers {
        look_at_multiplier(multiplier);
    }
}

fn look_at_multiplier(multiplier: &Multiplier)
    ensures { IsStatedMultiplier multiplier.now }
{
    look_at_number(multiplier.due);
    look_at_number(multiplier.lambda);
}

fn look_at_windows(windows: &[Window])
    ensures { AllByRecursion IsStatedWindow windows.now }
{
    for window in windows {
        look_at_window(window);
    }
}

fn look_at_window(window: &Window)
    ensures { IsStatedWindow window.now }
{
    look_at_number(window.from);
    look_at_number(window.due);
    look_at_number(window.lambda);
}

fn look_at_buffer_windows(windows: &[BufferWindow])
    ensures { AllByRecursion IsStatedBufferWindow windows.now }
{
    for window in windows {
        look_at_buffer_window(window);
    }
}

fn look_at_buffer_window(window: &BufferWindow)
    ensures { IsStatedBufferWindow window.now }
{
    look_at_short_number(window.first);
    look_at_number(window.due);
    look_at_byte(window.programs);
    look_at_short_number(window.tail);
    look_at_number(window.lambda);
}

fn look_at_short_number(_number: u32)
    ensures { _number < 2 ^ 32 }
{}

fn look_at_byte(_number: u8)
    ensures { _number < 2 ^ 8 }
{}

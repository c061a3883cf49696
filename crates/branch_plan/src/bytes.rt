ghost use Rattle.std.specs.Prelude.{◌≡◌, ◌+◌, ◌≤◌, true, false, length};
ghost use Rattle.version_table.specs.declared.limits.TheConstants.{UNITS_MOST, VERSIONS_MOST};
ghost use Rattle.version_table.specs.Table.{units_of};
ghost use Rattle.bound_certificate.specs.Spelling.{bytes_of_node};
ghost use Rattle.bound_certificate.specs.declared.limits.TheConstants.{CERT_BYTES_MOST};
ghost use Rattle.branch_plan.specs.declared.limits.TheConstants.{HEAD_BYTES, NODE_BYTES_MOST};
ghost use Rattle.branch_plan.specs.Private.Branching.{HasRoom, IsFull, IsLeafMost, tree_bytes};

use crate::branching::Growth;
use crate::limits::{BRANCH_BYTES, HEAD_BYTES};
use bound_certificate::Node;
use bound_certificate::limits::CERT_BYTES_MOST;
use buffer_windows::BufferWindows;
use dual_bounds::constants::WINDOWS_MOST;
use version_table::Table;

/// The bytes of a node in a certificate.
pub(crate) fn node_bytes(node: &Node) -> usize
    ensures is { result ≡ length (bytes_of_node node.now) }
    ensures most { result ≤ NODE_BYTES_MOST }
{
    match node {
        Node::Branch { unit: _ } => BRANCH_BYTES,
        Node::Dual { with } => 3 + 16 * with.as_slice().len(),
        Node::Run { scheduled: _ } => 2,
        Node::Open => 1,
        Node::Window { with } => 3 + 24 * with.as_slice().len(),
        Node::BufferWindow { with } => 3 + 25 * with.as_slice().len(),
    }
}

/// The bytes of some nodes in a certificate.
pub(crate) fn nodes_bytes(nodes: &[Node]) -> usize
    requires { tree_bytes nodes.now ≤ CERT_BYTES_MOST }
    ensures { result ≡ tree_bytes nodes.now }
{
    let mut bytes = 0;
    for node in nodes {
        bytes += node_bytes(node);
    }
    bytes
}

/// Whether a certificate surely has room for a branch of so many children at a leaf of a tree.
pub(crate) fn has_room(table: &Table, growth: &Growth, units: usize, versions: usize) -> bool
    requires units { units ≡ length (units_of table.now) }
    requires versions { versions ≤ VERSIONS_MOST }
    requires within { HEAD_BYTES + units + growth.now.bytes ≤ CERT_BYTES_MOST }
    ensures room { result ≡ true → HasRoom table.now growth.now versions }
    ensures full { result ≡ false → IsFull table.now growth.now versions }
{
    let leaf = leaf_bytes_most(&growth.found.buffers);
    HEAD_BYTES + units + growth.bytes + BRANCH_BYTES + versions * leaf <= CERT_BYTES_MOST
}

/// The bytes of a leaf, at most, in a search in which these windows that see the buffers were found.
fn leaf_bytes_most(buffers: &BufferWindows) -> usize
    ensures { IsLeafMost buffers.now result }
{
    let seen = buffers.as_slice().len();
    if seen > WINDOWS_MOST {
        3 + 25 * seen
    } else {
        3 + 25 * WINDOWS_MOST
    }
}

//! Limits of plans and of their trees.

use buffer_windows::constants::BUFFER_WINDOWS_MOST;
use version_table::limits::{UNITS_MOST, VERSIONS_MOST};

/// The first nodes get relaxations of their own: while units times the nodes before are so many at most.
pub const RELAXED_MOST: u64 = 128_000;
/// Windows of each kind, at most, times the nodes that are allowed, where these have room for the whole tree: so that each leaf can
/// have its own copy.
pub const WINDOWS_IN_ALL: usize = 2_190_000;
/// Bytes of a tree whose leaves share windows out so, at most.
pub const SHARED_BYTES_MOST: usize = 60_000_000;
/// Bytes of a certificate without its choice and its nodes.
pub const HEAD_BYTES: usize = 29;
/// Bytes of a branch in a certificate.
pub const BRANCH_BYTES: usize = 5;
/// Bytes of a node in a certificate, at most: of as many windows that see the buffers as one can have.
pub const NODE_BYTES_MOST: usize = 3 + 25 * BUFFER_WINDOWS_MOST;
/// Single changes of a choice, at most: each unit of a table to each of its versions.
pub const CHANGES_MOST: usize = UNITS_MOST * VERSIONS_MOST;

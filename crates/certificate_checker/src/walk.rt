ghost use Rattle.std.specs.Prelude.{◌≡◌, ◌^◌, ◌<◌, ◌≤◌, [], length, drop, IfOk, IfErr, OnOk};
ghost use Rattle.version_table.specs.Table.{IsValidTable};
ghost use Rattle.buffer_windows.specs.declared.constants.TheConstants.{BUFFER_WINDOWS_MOST};
ghost use Rattle.buffer_windows.specs.Bounds.{bound_of_buffer_windows};
ghost use Rattle.bound_certificate.specs.declared.cert.Node.TheVariants as nodes;
ghost use Rattle.certificate_checker.specs.Faults.{AreRight, AreRightBufferWindows, IsFirstOfBranch, IsFirstOfBufferWindows, IsFirstOfNode, IsFirstOfRun, IsFirstOfWindows};
ghost use Rattle.certificate_checker.specs.Shown.{bound_of_windows, lesser, unfixed};
ghost use Rattle.certificate_checker.specs.Walk.{Shows, Walks};
ghost use Rattle.certificate_checker.specs.Private.Paths.{IsClosed, IsClosing, IsFaultIn, IsPath, IsTaken, KeepsRoom};
ghost use Rattle.certificate_checker.specs.Private.Tallies.{IsTold, KeepsTallyRoom};

use crate::buffer_faults::fault_of_buffer_windows;
use crate::costs::bound_of_windows;
use crate::faults::{bound_of_run, fault_of_branch, fault_of_run, fault_of_windows};
use crate::path::{Next, OpenBranch, Path, versions_of};
use crate::tally::Tally;
use crate::why::{CertFault, Why};
use bound_certificate::Node;
use buffer_windows::{BufferWindow, bound_of_windows as bound_of_buffer_windows};
use dual_bounds::constants::WINDOWS_MOST;
use dual_bounds::{Window, windows_of};
use version_table::Table;

/// What the tree that nodes begin with shows.
#[derive(Clone, Copy)]
pub(crate) struct Tree {
    /// Its bound; none where no choice is scheduled.
    pub bound: Option<u128>,
    /// How many nodes it has.
    pub nodes: usize,
}

/// What comes of a branch, once a child of it has shown a bound.
#[derive(Clone, Copy)]
pub(crate) enum Closing {
    /// Its next child is needed.
    NextChild,
    /// The child was its last one, and this is the branch's bound.
    Shown(Option<u128>),
}

/// The tree that some nodes begin with, or its first fault. The path has nothing fixed.
pub(crate) fn walk(
    table: &Table,
    nodes: &[Node],
    path: &mut Path,
    tally: &mut Tally,
) -> Result<Tree, CertFault>
    requires valid { IsValidTable table.now }
    requires path { IsPath table.now path.old }
    requires tally { IsTold table.now path.old tally.old }
    requires fresh { path.old.fixed.items ≡ unfixed table.now }
    requires none { path.old.branches.items ≡ [] }
    requires few { length nodes.now < 2 ^ 32 }
    ensures path { IsPath table.now path.new }
    ensures room { KeepsRoom path.old path.new }
    ensures tally { IsTold table.now path.new tally.new }
    ensures tally_room { KeepsTallyRoom tally.old tally.new }
    ensures within { IfOk result (λ tree. tree.nodes ≤ length nodes.now) }
    ensures shown { IfOk result (λ tree. Walks table.now (unfixed table.now) nodes.now (Shows tree.bound (drop tree.nodes nodes.now))) }
    ensures fault { IfErr result (IsFaultIn table.now nodes.now) }
{
    for (at, node) in nodes.iter().enumerate() {
        match take_node(table, node, path, tally) {
            Ok(Next::Needed) => {}
            Ok(Next::Whole(bound)) => return Ok(Tree {
                bound,
                nodes: at + 1,
            }),
            Err(why) => return Err(CertFault {
                node: at as u32,
                why,
            }),
        }
    }
    Err(CertFault {
        node: nodes.len() as u32,
        why: Why::NoNode,
    })
}

/// Takes the next node, or names what is wrong with it first.
fn take_node(table: &Table, node: &Node, path: &mut Path, tally: &mut Tally) -> Result<Next, Why>
    requires valid { IsValidTable table.now }
    requires path { IsPath table.now path.old }
    requires tally { IsTold table.now path.old tally.old }
    ensures path { IsPath table.now path.new }
    ensures room { KeepsRoom path.old path.new }
    ensures tally { IsTold table.now path.new tally.new }
    ensures tally_room { KeepsTallyRoom tally.old tally.new }
    ensures next { IfOk result (IsTaken table.now path.old path.new node.now) }
    ensures wrong { IfErr result (IsFirstOfNode table.now path.old.fixed.items node.now) }
{
    match node {
        Node::Branch { unit } => take_branch(table, *unit, path, tally),
        Node::Dual { with } => take_windows(
            table,
            windows_of(with.as_slice()).as_slice(),
            path,
            tally,
        ),
        Node::Run { scheduled } => take_run(table, *scheduled, path, tally),
        Node::Open => take_windows(table, &[], path, tally),
        Node::Window { with } => take_windows(table, with.as_slice(), path, tally),
        Node::BufferWindow { with } => take_buffer_windows(table, with.as_slice(), path, tally),
    }
}

/// Takes a branch.
fn take_branch(table: &Table, unit: u32, path: &mut Path, tally: &mut Tally) -> Result<Next, Why>
    requires valid { IsValidTable table.now }
    requires path { IsPath table.now path.old }
    requires tally { IsTold table.now path.old tally.old }
    ensures path { IsPath table.now path.new }
    ensures room { KeepsRoom path.old path.new }
    ensures tally { IsTold table.now path.new tally.new }
    ensures tally_room { KeepsTallyRoom tally.old tally.new }
    ensures next { IfOk result (IsTaken table.now path.old path.new (nodes.Branch unit)) }
    ensures wrong { IfErr result (IsFirstOfBranch table.now path.old.fixed.items unit) }
{
    match fault_of_branch(unit, path) {
        Some(why) => Err(why),
        None => {
            path.enter(unit);
            tally.fix_first(table, unit);
            Ok(Next::Needed)
        }
    }
}

/// Takes a node that these windows bound.
fn take_windows(
    table: &Table,
    windows: &[Window],
    path: &mut Path,
    tally: &mut Tally,
) -> Result<Next, Why>
    requires valid { IsValidTable table.now }
    requires path { IsPath table.now path.old }
    requires tally { IsTold table.now path.old tally.old }
    requires few { length windows.now ≤ WINDOWS_MOST }
    ensures path { IsPath table.now path.new }
    ensures room { KeepsRoom path.old path.new }
    ensures tally { IsTold table.now path.new tally.new }
    ensures tally_room { KeepsTallyRoom tally.old tally.new }
    ensures right { OnOk result (AreRight windows.now) }
    ensures closed { IfOk result (IsClosed table.now path.old path.new (bound_of_windows table.now path.old.fixed.items windows.now)) }
    ensures wrong { IfErr result (IsFirstOfWindows windows.now) }
{
    match fault_of_windows(windows) {
        Some(why) => Err(why),
        None => {
            let bound = bound_of_windows(table, tally, path.fixed.as_slice(), windows);
            Ok(close(table, Some(bound), path, tally))
        }
    }
}

/// Takes a node that these windows that see the buffers bound.
fn take_buffer_windows(
    table: &Table,
    windows: &[BufferWindow],
    path: &mut Path,
    tally: &mut Tally,
) -> Result<Next, Why>
    requires valid { IsValidTable table.now }
    requires path { IsPath table.now path.old }
    requires tally { IsTold table.now path.old tally.old }
    requires few { length windows.now ≤ BUFFER_WINDOWS_MOST }
    ensures path { IsPath table.now path.new }
    ensures room { KeepsRoom path.old path.new }
    ensures tally { IsTold table.now path.new tally.new }
    ensures tally_room { KeepsTallyRoom tally.old tally.new }
    ensures right { OnOk result (AreRightBufferWindows table.now windows.now) }
    ensures closed { IfOk result (IsClosed table.now path.old path.new (bound_of_buffer_windows table.now path.old.fixed.items windows.now)) }
    ensures wrong { IfErr result (IsFirstOfBufferWindows table.now windows.now) }
{
    match fault_of_buffer_windows(table, windows) {
        Some(why) => Err(why),
        None => {
            let bound = bound_of_buffer_windows(table, path.fixed.as_slice(), windows);
            Ok(close(table, bound, path, tally))
        }
    }
}

/// Takes a choice that was tried.
fn take_run(table: &Table, scheduled: bool, path: &mut Path, tally: &mut Tally) -> Result<Next, Why>
    requires valid { IsValidTable table.now }
    requires path { IsPath table.now path.old }
    requires tally { IsTold table.now path.old tally.old }
    ensures path { IsPath table.now path.new }
    ensures room { KeepsRoom path.old path.new }
    ensures tally { IsTold table.now path.new tally.new }
    ensures tally_room { KeepsTallyRoom tally.old tally.new }
    ensures next { IfOk result (IsTaken table.now path.old path.new (nodes.Run scheduled)) }
    ensures wrong { IfErr result (IsFirstOfRun table.now path.old.fixed.items scheduled) }
{
    match fault_of_run(table, scheduled, path) {
        Some(why) => Err(why),
        None => {
            let bound = bound_of_run(
                table,
                tally.order.as_slice(),
                scheduled,
                path.choice.as_slice(),
            );
            Ok(close(table, bound, path, tally))
        }
    }
}

/// Closes the tree in hand, which shows a bound, and each branch of which it is the last child.
fn close(table: &Table, bound: Option<u128>, path: &mut Path, tally: &mut Tally) -> Next
    requires valid { IsValidTable table.now }
    requires path { IsPath table.now path.old }
    requires tally { IsTold table.now path.old tally.old }
    ensures path { IsPath table.now path.new }
    ensures room { KeepsRoom path.old path.new }
    ensures tally { IsTold table.now path.new tally.new }
    ensures tally_room { KeepsTallyRoom tally.old tally.new }
    ensures next { IsClosed table.now path.old path.new bound result }
{
    let mut bound = bound;
    while !path.branches.is_empty() {
        match close_child(table, bound, path, tally) {
            Closing::NextChild => return Next::Needed,
            Closing::Shown(least) => bound = least,
        }
    }
    Next::Whole(bound)
}

/// Closes a child of the innermost branch, which shows a bound.
fn close_child(table: &Table, bound: Option<u128>, path: &mut Path, tally: &mut Tally) -> Closing
    requires valid { IsValidTable table.now }
    requires path { IsPath table.now path.old }
    requires tally { IsTold table.now path.old tally.old }
    requires some { 0 < length path.old.branches.items }
    ensures path { IsPath table.now path.new }
    ensures room { KeepsRoom path.old path.new }
    ensures tally { IsTold table.now path.new tally.new }
    ensures tally_room { KeepsTallyRoom tally.old tally.new }
    ensures next { IsClosing table.now path.old path.new bound result }
{
    let Some(branch) = path.branches.pop() else {
        unreachable!();
    };
    let least = lesser(branch.least, bound);
    let next = path.version(branch.unit).unwrap_or(0) + 1;
    if usize::from(next) < versions_of(table, branch.unit as usize) {
        tally.fix_next(table, branch.unit, next);
        path.fix(branch.unit, next);
        path.keep(OpenBranch {
            unit: branch.unit,
            least,
        });
        return Closing::NextChild;
    }
    tally.set_free(table, branch.unit);
    path.unfix(branch.unit);
    Closing::Shown(least)
}

/// The lesser of two bounds, where there are two.
fn lesser(a: Option<u128>, b: Option<u128>) -> Option<u128>
    ensures { result ≡ lesser a b }
{
    match (a, b) {
        (None, b) => b,
        (Some(a), None) => Some(a),
        (Some(a), Some(b)) => Some(a.min(b)),
    }
}

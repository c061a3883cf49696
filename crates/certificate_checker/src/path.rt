ghost use Rattle.std.specs.Prelude.{◌≡◌, ◌<◌, [], ◌∷◌, ◌++◌, length, slice_index_or, None, vec_capacity};
ghost use Rattle.certificate_checker.specs.Shown.{choice_left, fix, versions_of};
ghost use Rattle.certificate_checker.specs.Private.Paths.{KeepsRoom, unfix};

use version_table::Table;

/// A branch whose children aren't all read.
#[derive(Clone, Copy)]
pub(crate) struct OpenBranch {
    /// Its unit. The version that is fixed of it is that of the child in hand.
    pub unit: u32,
    /// The least bound of its children so far.
    pub least: Option<u128>,
}

/// What is to come in a tree.
#[derive(Clone, Copy)]
pub(crate) enum Next {
    /// A node is needed.
    Needed,
    /// Nothing: the tree is whole, and this is its bound.
    Whole(Option<u128>),
}

/// The way to the next node.
#[derive(Drop)]
pub(crate) struct Path {
    /// The versions that are fixed on it.
    pub fixed: Vec<Option<u8>>,
    /// The choice that takes these versions, and version 0 of all other units.
    pub choice: Vec<u8>,
    /// The branches on it, the root first.
    pub branches: Vec<OpenBranch>,
}

impl Path {
    /// Fixes a version of a unit.
    pub(crate) fn fix(&mut self, unit: u32, k: u8)
        requires within { unit < length self.old.fixed.items }
        requires choice { self.old.choice.items ≡ choice_left self.old.fixed.items }
        ensures fixed { self.new.fixed.items ≡ fix unit k self.old.fixed.items }
        ensures choice { self.new.choice.items ≡ choice_left self.new.fixed.items }
        ensures branches { self.new.branches ≡ self.old.branches }
        ensures room { KeepsRoom self.old self.new }
    {
        self.fixed[unit as usize] = Some(k);
        self.choice[unit as usize] = k;
    }

    /// The version that is fixed of a unit; none where each may be.
    pub(crate) fn version(&self, unit: u32) -> Option<u8>
        requires within { unit < length self.now.fixed.items }
        ensures { result ≡ slice_index_or self.now.fixed.items unit None }
    {
        self.fixed[unit as usize]
    }

    /// Goes to the first child of a branch on a unit.
    pub(crate) fn enter(&mut self, unit: u32)
        requires within { unit < length self.old.fixed.items }
        requires choice { self.old.choice.items ≡ choice_left self.old.fixed.items }
        requires room { length self.old.branches.items < vec_capacity self.old.branches }
        ensures fixed { self.new.fixed.items ≡ fix unit 0 self.old.fixed.items }
        ensures choice { self.new.choice.items ≡ choice_left self.new.fixed.items }
        ensures branches { self.new.branches.items ≡ self.old.branches.items ++ record { unit = unit; least = None } ∷ [] }
        ensures room { KeepsRoom self.old self.new }
    {
        self.fix(unit, 0);
        self.keep(OpenBranch { unit, least: None });
    }

    /// Keeps an open branch, for which there is room.
    pub(crate) fn keep(&mut self, branch: OpenBranch)
        requires room { length self.old.branches.items < vec_capacity self.old.branches }
        ensures fixed { self.new.fixed.items ≡ self.old.fixed.items }
        ensures choice { self.new.choice.items ≡ self.old.choice.items }
        ensures branches { self.new.branches.items ≡ self.old.branches.items ++ branch ∷ [] }
        ensures room { KeepsRoom self.old self.new }
    {
        self.branches.push_reserved(branch);
    }

    /// Fixes no version of a unit any more.
    pub(crate) fn unfix(&mut self, unit: u32)
        requires within { unit < length self.old.fixed.items }
        requires choice { self.old.choice.items ≡ choice_left self.old.fixed.items }
        ensures fixed { self.new.fixed.items ≡ unfix unit self.old.fixed.items }
        ensures choice { self.new.choice.items ≡ choice_left self.new.fixed.items }
        ensures branches { self.new.branches ≡ self.old.branches }
        ensures room { KeepsRoom self.old self.new }
    {
        self.fixed[unit as usize] = None;
        self.choice[unit as usize] = 0;
    }
}

/// How many versions a unit has, numbered over all programs in order. One that there isn't has none.
pub(crate) fn versions_of(table: &Table, unit: usize) -> usize
    ensures { result ≡ versions_of table.now unit }
{
    let mut rest = unit;
    for program in table.programs.as_slice() {
        let units = program.units.as_slice();
        if rest < units.len() {
            return units[rest].versions.len();
        }
        rest -= units.len();
    }
    0
}

use list_types::OutOfMemory;

/// Why a text is no list of slots.
#[derive(Clone, Copy, Debug, PartialEq, Eq)]
pub enum ListFault {
    /// The first line, from 1, that no list has there; 0 where the text is too long.
    ListSyntax(u64),
    /// Memory was wanted and not there.
    OutOfMemory,
}

impl From<OutOfMemory> for ListFault {
    ghost use Rattle.std.specs.Prelude.{◌≡◌};
    ghost use Rattle.fit_command.specs.declared.list_fault.ListFault.TheVariants as faults;

    ghost from_gives = { λ _ fault. fault ≡ faults.OutOfMemory };

    fn from(_e: OutOfMemory) -> ListFault {
        ListFault::OutOfMemory
    }
}

ghost use Rattle.std.specs.Prelude.{◌≡◌, ℕ, ◌<◌, ◌≤◌, None, length};
ghost use Rattle.version_table.specs.declared.limits.TheConstants.{SLOT_LEAST, SLOT_MOST, PROGRAMS_MOST, TIME_SLOTS_MOST};
ghost use Rattle.version_table.specs.Table.{IsValidTable};
ghost use Rattle.slot_rule.specs.declared.constants.TheConstants.{PERIOD_TICKS};
ghost use Rattle.slot_rule.specs.Timetable.{period, reserved};

use crate::constants::PERIOD_TICKS;
use crate::sent::Sent;
use version_table::Table;

/// Which slots are reserved.
#[derive(Clone, Copy)]
pub struct Timetable {
    /// Ticks of a slot.
    pub slot: u32,
    /// The number of programs.
    pub programs: u8,
}

impl Timetable {
    /// What slot `n` is reserved for; none where it is free.
    pub fn at(&self, n: u32) -> Option<Sent>
        requires least { SLOT_LEAST ≤ self.now.slot }
        requires most { self.now.slot ≤ SLOT_MOST }
        requires programs { self.now.programs ≤ PROGRAMS_MOST }
        ensures { result ≡ reserved self.now.slot self.now.programs n }
    {
        let offset = n % self.period();
        let programs = u32::from(self.programs);
        if offset == 0 {
            Some(Sent::Pat)
        } else if offset <= programs {
            Some(Sent::Pmt((offset - 1) as u8))
        } else if offset <= 2 * programs {
            Some(Sent::Pcr((offset - programs - 1) as u8))
        } else {
            None
        }
    }

    /// The slot in which the timetable begins again after slot `n`; up to it all slots are free where slot `n` is.
    pub(crate) fn free_until(&self, n: u32) -> u32
        requires least { SLOT_LEAST ≤ self.now.slot }
        requires most { self.now.slot ≤ SLOT_MOST }
        requires slot { n < TIME_SLOTS_MOST }
        ensures later { n < result }
        ensures free { (m : ℕ) → n ≤ m → m < result → reserved self.now.slot self.now.programs n ≡ None
            → reserved self.now.slot self.now.programs m ≡ None }
    {
        let period = self.period();
        (n / period + 1) * period
    }

    /// The timetable of a table.
    pub(crate) fn of(table: &Table) -> Timetable
        requires { IsValidTable table.now }
        ensures slot { result.slot ≡ table.now.slot }
        ensures programs { result.programs ≡ length table.now.programs }
    {
        Timetable {
            slot: table.slot,
            programs: table.programs.len() as u8,
        }
    }

    /// Slots after which the timetable begins again.
    pub(crate) fn period(&self) -> u32
        requires least { SLOT_LEAST ≤ self.now.slot }
        requires most { self.now.slot ≤ SLOT_MOST }
        ensures value { result ≡ period self.now.slot }
        ensures some { 1 ≤ result }
        ensures few { result ≤ PERIOD_TICKS }
    {
        PERIOD_TICKS / self.slot
    }
}

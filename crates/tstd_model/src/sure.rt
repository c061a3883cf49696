ghost use Rattle.std.specs.Prelude.{IsTrue};
ghost use Rattle.tstd_model.specs.Private.Sure.{AreBoth, IsJudged, IsNothing};

use crate::decoder_input::BufferKind;

/// Which faults a decoder surely has not.
#[derive(Clone, Copy)]
pub struct Sure {
    /// TB is never over its size.
    pub tb: bool,
    /// The buffer behind TB is never over its size.
    pub main: bool,
    /// Each removal finds what it takes.
    pub found: bool,
    /// No byte is held past the limit.
    pub held: bool,
}

impl Sure {
    /// None of them.
    pub fn nothing() -> Self
        ensures { IsNothing result }
    {
        Sure {
            tb: false,
            main: false,
            found: false,
            held: false,
        }
    }

    /// What may be sure of a decoder: of sections, TB alone.
    pub fn of(kind: BufferKind) -> Self
        ensures main { IsTrue result.main → IsJudged kind }
        ensures found { IsTrue result.found → IsJudged kind }
        ensures held { IsTrue result.held → IsJudged kind }
    {
        match kind {
            BufferKind::Video { vbv: _ } | BufferKind::Audio => Sure {
                tb: true,
                main: true,
                found: true,
                held: true,
            },
            BufferKind::System => Sure {
                tb: true,
                ..Sure::nothing()
            },
        }
    }

    /// What both say.
    pub fn and(self, other: Sure) -> Self
        ensures { AreBoth self other result }
    {
        Sure {
            tb: self.tb && other.tb,
            main: self.main && other.main,
            found: self.found && other.found,
            held: self.held && other.held,
        }
    }

    /// Whether there is no fault at all.
    pub fn is_all(self) -> bool
        ensures { IsTrue result → IsTrue self.tb × IsTrue self.main × IsTrue self.found × IsTrue self.held }
    {
        self.tb && self.main && self.found && self.held
    }
}

/// Whether both hold.
pub fn both(one: bool, other: bool) -> bool
    ensures { IsTrue result → IsTrue one × IsTrue other }
{
    one && other
}

//! Whether slices hold all macroblocks of a picture in order, each once (6.1.2.2).
ghost use Rattle.std.specs.Prelude.{◌≡◌, ◌↔◌, ◌+◌, ◌*◌, ◌^◌, ◌<◌, ◌≤◌, ℕ, List, [], ◌∷◌, ◌++◌, true};
ghost use Rattle.std.specs.List.{flat_map, range_with_len};
ghost use Rattle.syntax_types.specs.declared.slice.Slice.{Slice};
ghost use Rattle.syntax_types.specs.declared.picture.SeqState.{SeqState};
ghost use Rattle.picture_grammar.specs.Picture.{addresses};
ghost use Rattle.picture_grammar.specs.Slice.{columns as columns_of};
ghost use Rattle.picture_reader.specs.Coverage.{Covers, IsSpan};
ghost use Rattle.picture_reader.specs.Coverage.{IsSpanSoFar};
ghost use Rattle.syntax_types.specs.declared.macroblock.Macroblock.{Macroblock};

/// The columns of its row that a slice holds, from the first one to behind the last one.
#[derive(Clone, Copy)]
pub struct Span {
    pub first: usize,
    pub end: usize,
}

impl Span {
    /// Before the first macroblock of a slice.
    pub fn new() -> Span
        ensures so_far { IsSpanSoFar [] result }
        ensures end { result.end ≡ 0 }
    {
        Span { first: 0, end: 0 }
    }

    /// Behind one more macroblock, with so many skipped ones before it.
    pub fn with(self, skipped_before: u16) -> Span
        requires { self.end + skipped_before < 4096 }
        ensures so_far { (before : List Macroblock) (m : Macroblock) → IsSpanSoFar before self → m.skipped_before ≡ skipped_before → IsSpan (before ++ m ∷ []) result }
        ensures end { result.end ≡ self.end + (skipped_before + 1) }
    {
        let skipped = usize::from(skipped_before);
        Span {
            first: if self.end == 0 { skipped } else { self.first },
            end: self.end + (skipped + 1),
        }
    }
}

/// How far slices have come that hold macroblocks in order.
#[derive(Clone, Copy)]
pub struct Coverage {
    /// The address of the next macroblock.
    next: usize,
    /// A slice began elsewhere.
    is_broken: bool,
}

impl Coverage {
    /// Before the first slice.
    pub fn new() -> Coverage
        ensures { (seq : SeqState) → Covers seq [] result }
    {
        Coverage {
            next: 0,
            is_broken: false,
        }
    }

    /// Behind one more slice of this row, where a row has so many columns.
    pub fn with(self, row: u8, columns: usize, span: Span) -> Coverage
        requires columns { columns ≤ 4096 }
        requires some { span.first < span.end }
        requires end { span.end ≤ 4096 }
        ensures { (seq : SeqState) (slices : List Slice) (s : Slice) → Covers seq slices self → columns ≡ columns_of seq → s.row ≡ row → IsSpan s.macroblocks span
            → Covers seq (slices ++ s ∷ []) result }
    {
        let start = row_start(row, columns);
        if self.is_broken {
            return self;
        }
        if start + span.first != self.next {
            return Coverage {
                next: self.next,
                is_broken: true,
            };
        }
        Coverage {
            next: start + span.end,
            is_broken: false,
        }
    }

    /// Whether they hold this many, which are all.
    pub fn is_whole(self, count: usize) -> bool
        ensures { (seq : SeqState) (slices : List Slice) → Covers seq slices self →
            (result ≡ true) ↔ (flat_map (addresses seq) slices ≡ range_with_len 0 count) }
    {
        if self.is_broken {
            return false;
        }
        self.next == count
    }
}

/// The address of the first macroblock of a row.
fn row_start(row: u8, columns: usize) -> usize
    requires { columns ≤ 4096 }
    ensures value { result ≡ row * columns }
    ensures few { result ≤ 2 ^ 20 }
{
    usize::from(row) * columns
}

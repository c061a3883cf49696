ghost use Rattle.std.specs.Prelude.{◌≡◌, ◌<◌, ◌≤◌, List, length, IfOk, IfErr, IfNone, OnOk};
ghost use Rattle.version_table.specs.Private.Draft.{Allows, IsDraft};
ghost use Rattle.version_table.specs.Text.{IsTableRead, IsFaultOf, Says, TextReading, Holds};
ghost use Rattle.version_table.specs.Private.Reader.{TakesLine, KeepsLine, Finishes};

use crate::draft::Draft;
use crate::fault::{Limit, TableFault, limit_fault};
use crate::limits::TABLE_TEXT_MOST;
use crate::line::{Line, Stage};
use crate::reading::line_at;
use crate::table::Table;
use list_types::OutOfMemory;
use std::alloc::Global;

/// The table that a text holds, or the first refusal of the text.
///
/// `TableSyntax` names the first line, counted from 1, that no table has there. `TableLimit` names the first limit
/// that a text of the right form breaks, in reading order; a text of more than `TABLE_TEXT_MOST` bytes is refused for
/// its `bytes` before all else. `OutOfMemory` may come at any time.
pub fn read_table(alloc: Global, text: &[u8]) -> Result<Table, TableFault>
    // What is answered is so.
    ensures table { IfOk result (λ table. IsTableRead text.now (Holds table)) }
    ensures refusal { IfErr result (IsFaultOf text.now) }

    // What is so is answered, unless memory is wanted.
    ensures only { (reading : TextReading) → IsTableRead text.now reading → Says result reading }
{
    if text.len() > TABLE_TEXT_MOST {
        return Err(limit_fault(Limit::Bytes));
    }
    read_lines(alloc, text)
}

/// Reads a text that isn't too long.
fn read_lines(alloc: Global, text: &[u8]) -> Result<Table, TableFault>
    requires { length text.now ≤ TABLE_TEXT_MOST }
    ensures table { IfOk result (λ table. IsTableRead text.now (Holds table)) }
    ensures refusal { IfErr result (IsFaultOf text.now) }
{
    let mut reader = Reader::new(alloc);
    let mut rest = text;
    while !rest.is_empty() {
        let Some((line, behind)) = line_at(reader.stage, rest) else {
            return Err(TableFault::TableSyntax(reader.lines + 1));
        };
        reader.take(alloc, &line)?;
        rest = behind;
    }
    reader.finish(alloc)
}

/// What is known of a text by the lines that were read.
#[derive(Drop)]
struct Reader {
    /// How many lines were read.
    lines: u64,
    /// Which lines may come next.
    stage: Stage,
    /// The first limit that is broken.
    limit: Option<Limit>,
    /// The table so far, until a limit is broken.
    draft: Draft,
}

impl Reader {
    fn new(alloc: Global) -> Reader
        ensures lines { result.lines ≡ 0 }
        ensures stage { result.stage ≡ Stage.Title }
        ensures limit { result.limit ≡ None }
        ensures draft { IsDraft Stage.Title result.draft }
    {
        Reader {
            lines: 0,
            stage: Stage::Title,
            limit: None,
            draft: Draft::new(alloc),
        }
    }

    /// Takes the next line.
    fn take(&mut self, alloc: Global, line: &Line) -> Result<(), OutOfMemory>
        requires stands { Allows self.old.stage line.now }
        requires drafted { IfNone self.old.limit (IsDraft self.old.stage self.old.draft) }
        requires few { self.old.lines < TABLE_TEXT_MOST }
        ensures { OnOk result (TakesLine self.old line.now self.new) }
    {
        self.keep(alloc, line)?;
        self.stage = line.next_stage();
        self.lines += 1;
        Ok(())
    }

    /// Adds a line to the table, unless it is the first that breaks a limit, or one broke a limit before.
    fn keep(&mut self, alloc: Global, line: &Line) -> Result<(), OutOfMemory>
        requires stands { Allows self.old.stage line.now }
        requires drafted { IfNone self.old.limit (IsDraft self.old.stage self.old.draft) }
        ensures { OnOk result (KeepsLine self.old line.now self.new) }
    {
        if self.limit.is_some() {
            return Ok(());
        }
        match self.draft.first_limit(self.stage, line) {
            Some(limit) => self.limit = Some(limit),
            None => self.draft.add(alloc, self.stage, line)?,
        }
        Ok(())
    }

    /// What the text is, once it ends.
    fn finish(self, alloc: Global) -> Result<Table, TableFault>
        requires drafted { IfNone self.limit (IsDraft self.stage self.draft) }
        requires few { self.lines ≤ TABLE_TEXT_MOST }
        ensures { Finishes self result }
    {
        let Reader {
            lines,
            stage,
            limit,
            draft,
        } = self;
        if !stage.is_whole() {
            return Err(TableFault::TableSyntax(lines + 1));
        }
        match limit {
            Some(limit) => Err(limit_fault(limit)),
            None => Ok(draft.finish(alloc, stage)?),
        }
    }
}

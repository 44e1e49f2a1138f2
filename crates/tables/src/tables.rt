ghost use Rattle.std.specs.Prelude.{◌*◌, ◌≤◌, length};

use crate::add::add;
use crate::draft::Draft;
use crate::reach::item_reach;
use lent::index::{Index, bucket};
use lent::table::Table;
use library::faults::{BadLine, LineFault};
use library::types::{Item, LibraryId};
use rows::row::Row;
use text::reader::Span;
use text::words::slice;

// A library has at most so many cells.
const MAX_CELLS: usize = 65535;

// Libraries and their parts, a row for each; room for `rows` rows in each table. The parts of a library stand in a row.
// Five tables of three types: one generic struct of a library's five parts would not hold them.
#[derive(Drop)]
pub struct Tables<'t, 'a> {
    pub text: &'t [u8],
    pub rows: usize,
    pub libs: Table<'a, 13>,
    pub needs: Table<'a, 2>,
    pub defs: Table<'a, 6>,
    pub inits: Table<'a, 1>,
    pub finis: Table<'a, 1>,
    pub cells: Table<'a, 6>,
    ghost libs_wide: { 13 * rows ≤ length libs.words.now },
    ghost needs_wide: { 2 * rows ≤ length needs.words.now },
    ghost defs_wide: { 6 * rows ≤ length defs.words.now },
    ghost inits_wide: { rows ≤ length inits.words.now },
    ghost finis_wide: { rows ≤ length finis.words.now },
    ghost cells_wide: { 6 * rows ≤ length cells.words.now },
}

impl<'t, 'a> Tables<'t, 'a> {
    ghost use Rattle.std.specs.Prelude.{◌≡◌, true, false, MatchOption, None, Some, slice_get, Ok, Err, MatchResult, cond};
    ghost use Rattle.std.specs.Option.{option_map};
    ghost use Rattle.base.specs.Choices.{on_some, opt};
    ghost use Rattle.base.specs.Names.{same};
    ghost use Rattle.text.specs.Readers.{bytes};
    ghost use Rattle.library.specs.Library.{Library, find_library};
    ghost use Rattle.library.specs.Text.{new_draft, checked, sized};
    ghost use Rattle.lines.specs.Items.{item_of};
    ghost use Rattle.libraries.specs.Looks.{HasName};
    ghost use Rattle.tables.specs.Store.{store, library_from, draft_of, libraries, Sound, Starts, Room, Named};
    ghost use Rattle.tables.specs.Steps.{Put, Closed};

    // A library begins.
    pub fn begin(&self, name: Span) -> Draft
        ensures draft { draft_of (store self.now) result ≡ new_draft (bytes self.now.text.now name) }
        ensures starts { Starts (store self.now) result }
    {
        Draft {
            name,
            inward: false,
            needs: self.needs.len,
            defs: self.defs.len,
            inits: self.inits.len,
            finis: self.finis.len,
            cells: self.cells.len,
            top: 0,
            line: 0,
        }
    }

    // Puts what a line says to the library that is being read.
    pub fn put(&mut self, line: usize, draft: Draft, item: Item<Span>) -> Draft
        requires room { Room self.old 0 1 }
        requires sound { Sound (store self.old) }
        requires starts { Starts (store self.old) draft }
        ensures { Put self.old self.new line draft result (item_of (bytes self.old.text.now) item) }
    {
        let raised = draft.raised(line, item_reach(item));
        match item {
            Item::Inward => {
                return Draft {
                    inward: true,
                    ..raised
                };
            }
            Item::Needs(name) => add(&mut self.needs, name),
            Item::Define(definition) => add(&mut self.defs, definition),
            Item::Init(cell) => add(&mut self.inits, cell),
            Item::Fini(cell) => add(&mut self.finis, cell),
            Item::Cell(cell) => add(&mut self.cells, cell),
        }
        raised
    }

    // Whether the library that is being read has not too many cells.
    pub fn sized(&self, line: usize, draft: Draft) -> Result<(), BadLine>
        ensures { MatchResult result (λ _. sized line (draft_of (store self.now) draft) ≡ Ok (draft_of (store self.now) draft)) (λ e. sized line (draft_of (store self.now) draft) ≡ Err e) }
    {
        if self.cells.len.saturating_sub(draft.cells) <= MAX_CELLS {
            return Ok(());
        }
        Err(BadLine {
            line,
            fault: LineFault::TooManyCells,
        })
    }

    // Whether the library that is being read has the cells that its lines name.
    pub fn checked(&self, draft: Draft) -> Result<(), BadLine>
        ensures { MatchResult result (λ _. checked (draft_of (store self.now) draft) ≡ Ok (library_from (store self.now) draft)) (λ e. checked (draft_of (store self.now) draft) ≡ Err e) }
    {
        if draft.top <= self.cells.len.saturating_sub(draft.cells) as u64 {
            return Ok(());
        }
        Err(BadLine {
            line: draft.line,
            fault: LineFault::NoSuchCell,
        })
    }

    // The library that was being read is done.
    pub fn close(&mut self, draft: Draft)
        requires room { Room self.old 1 0 }
        requires sound { Sound (store self.old) }
        requires starts { Starts (store self.old) draft }
        ensures { Closed self.old self.new draft }
    {
        let row = [
            draft.name.start as u64,
            draft.name.end as u64,
            u64::from(draft.inward),
            draft.needs as u64,
            self.needs.len as u64,
            draft.defs as u64,
            self.defs.len as u64,
            draft.inits as u64,
            self.inits.len as u64,
            draft.finis as u64,
            self.finis.len as u64,
            draft.cells as u64,
            self.cells.len as u64,
        ];
        self.libs.push(&row).unwrap();
    }

    // The name of library i.
    pub fn name(&self, i: usize) -> Option<&'t [u8]>
        ensures { (option_map (λ x. x.now) result) ≡ on_some (slice_get (libraries self.now) i) (λ (l : Library). Some l.name) }
    {
        let row = self.libs.row(i)?;
        Some(slice(self.text, Span::decode(row)))
    }

    fn is_named(&self, i: usize, name: &[u8]) -> bool
        ensures { result ≡ opt (slice_get (libraries self.now) i) false (λ l. same l.name name.now) }
    {
        self.name(i).is_some_and(|bytes| bytes == name)
    }

    // The library of a name. A loop by hand: an iterator over a bucket ends only by the facts of the whole index.
    pub fn find(&self, names: &Index, name: &[u8]) -> Option<LibraryId>
        requires named { Named self.now names.now }
        ensures { MatchOption result (find_library (libraries self.now) name.now ≡ None) (λ k. HasName (libraries self.now) k.0 name.now) }
    {
        let mut at = names.first(bucket(name, names.heads.len()));
        while let Some(k) = at {
            if self.is_named(k, name) {
                return Some(LibraryId(k));
            }
            at = names.older(k);
        }
        None
    }
}

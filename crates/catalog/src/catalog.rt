ghost use Rattle.library.specs.Distinct.{NamedOnce};
ghost use Rattle.tables.specs.Store.{libraries};

use crate::count::count;
use lent::table::Table;
use libraries::{Libraries, Sizes};
use library::faults::ReadFault;
use library::types::{Cell, CellNo, Definition, LibraryId};
use reading::parts::Parts;
use rows::row::Row;
use text::reader::Span;
use text::words::slice;

// Words of a library's row that have the bounds of its parts, each with the word behind it. Such a row is read word by word, and not
// as one value: an accessor wants two of its thirteen words.
const NEEDS: usize = 3;

const DEFINITIONS: usize = 5;

const INITIALIZERS: usize = 7;

const FINALIZERS: usize = 9;

const CELLS: usize = 11;

// The libraries of a text.
#[derive(Drop)]
pub struct Catalog<'t, 'a> {
    pub(crate) parts: Parts<'t, 'a>,
    ghost distinct: { ∥ NamedOnce (libraries parts.tables) ∥₁ },
}

impl<'t, 'a> Catalog<'t, 'a> {
    ghost use Rattle.std.specs.Prelude.{◌≡◌, ◌<◌, ℕ, List, [], length, map, Ok, MatchOption, MatchResult};
    ghost use Rattle.std.specs.Option.{option_map};
    ghost use Rattle.library.specs.Text.{read};
    ghost use Rattle.lent.specs.Tables.{rows_in};
    ghost use Rattle.tables.specs.Store.{libraries};
    ghost use Rattle.reading.specs.Steps.{Failed};
    ghost use Rattle.catalog.specs.Looks.{part_in};

    // Reads a text into lent words.
    #[tactic(auto, using(crate::proofs::Naming::distinct))]
    pub fn read(text: &'t [u8], work: &'a mut [u64]) -> Result<Catalog<'t, 'a>, ReadFault>
        ensures { MatchResult result (λ c. read text.now ≡ Ok (libraries c.parts.tables)) (Failed text.now (length work.old)) }
    {
        let parts = Parts::read(text, work)?;
        Ok(Catalog { parts })
    }

    // Reads a text, whatever it is: its libraries, or a catalog without libraries, and the fault.
    pub fn read_or_empty(
        text: &'t [u8],
        work: &'a mut [u64],
    ) -> (Catalog<'t, 'a>, Option<ReadFault>)
        ensures { MatchOption result.1 (read text.now ≡ Ok (libraries result.0.parts.tables)) (λ e. (libraries result.0.parts.tables ≡ []) × Failed text.now (length work.old) e) }
    {
        match Catalog::read(text, work) {
            Ok(catalog) => (catalog, None),
            Err(fault) => (Catalog::empty(text), Some(fault)),
        }
    }

    // No libraries.
    #[tactic(auto, using(crate::proofs::Naming::distinct_none, reading::proofs::Going::no_libraries))]
    fn empty(text: &'t [u8]) -> Catalog<'t, 'a>
        ensures { libraries result.parts.tables ≡ [] }
    {
        let parts = Parts::new(text, &mut []);
        Catalog { parts }
    }

    // Part j of a library, of those in the table, whose bounds stand in words `at` and `at + 1` of the library's row.
    fn part<R: Row<W>, const W: usize>(
        &self,
        id: LibraryId,
        at: usize,
        table: &Table<W>,
        j: usize,
    ) -> Option<R>
        requires { at < 12 }
        ensures { (t : List ℕ) → option_map (R.part t) result ≡ part_in (rows_in 13 self.now.parts.tables.libs) id.0 at (map (R.at t) (rows_in W table.now)) j }
    {
        let row = self.parts.tables.libs.row(id.0)?;
        let start = row[at] as usize;
        let end = row[at + 1] as usize;
        if j >= end.saturating_sub(start) {
            return None;
        }
        Some(R::decode(table.row(start + j)?))
    }
}

impl<'t, 'a> Libraries<'t> for Catalog<'t, 'a> {
    ghost use Rattle.tables.specs.Store.{libraries};

    ghost libs = { λ c. libraries c.parts.tables };

    fn len(&self) -> usize {
        self.parts.tables.libs.len
    }

    #[tactic(auto, using(crate::proofs::Naming::number_is))]
    fn find(&self, name: &[u8]) -> Option<LibraryId> {
        self.parts.tables.find(&self.parts.names, name)
    }

    fn name(&self, id: LibraryId) -> Option<&'t [u8]> {
        self.parts.tables.name(id.0)
    }

    fn inward(&self, id: LibraryId) -> Option<bool> {
        let row = self.parts.tables.libs.row(id.0)?;
        Some(row[2] == 1)
    }

    fn sizes(&self, id: LibraryId) -> Option<Sizes> {
        let row = self.parts.tables.libs.row(id.0)?;
        Some(Sizes {
            needs: count(row[NEEDS], row[NEEDS + 1], self.parts.tables.needs.len),
            definitions: count(
                row[DEFINITIONS],
                row[DEFINITIONS + 1],
                self.parts.tables.defs.len,
            ),
            initializers: count(
                row[INITIALIZERS],
                row[INITIALIZERS + 1],
                self.parts.tables.inits.len,
            ),
            finalizers: count(
                row[FINALIZERS],
                row[FINALIZERS + 1],
                self.parts.tables.finis.len,
            ),
            cells: count(row[CELLS], row[CELLS + 1], self.parts.tables.cells.len),
        })
    }

    fn need(&self, id: LibraryId, j: usize) -> Option<&'t [u8]> {
        let name: Span = self.part(id, NEEDS, &self.parts.tables.needs, j)?;
        Some(slice(self.parts.tables.text, name))
    }

    fn definition(&self, id: LibraryId, j: usize) -> Option<Definition<&'t [u8]>> {
        let definition: Definition<Span> = self.part(id, DEFINITIONS, &self.parts.tables.defs, j)?;
        Some(definition.map(|name| slice(self.parts.tables.text, name)))
    }

    fn initializer(&self, id: LibraryId, j: usize) -> Option<CellNo> {
        self.part(id, INITIALIZERS, &self.parts.tables.inits, j)
    }

    fn finalizer(&self, id: LibraryId, j: usize) -> Option<CellNo> {
        self.part(id, FINALIZERS, &self.parts.tables.finis, j)
    }

    fn cell(&self, id: LibraryId, j: usize) -> Option<Cell<&'t [u8]>> {
        let cell: Cell<Span> = self.part(id, CELLS, &self.parts.tables.cells, j)?;
        Some(cell.map(|name| slice(self.parts.tables.text, name)))
    }
}

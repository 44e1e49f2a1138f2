// The libraries of a text as all that links them sees them: one by one, by number.
#![tactic(auto)]

ghost use Rattle.std.specs.Prelude.{◌≡◌, List, length};
ghost use Rattle.std.specs.Option.{option_map};
ghost use Rattle.library.specs.Library.{Library};
ghost use Rattle.library.specs.Views.{cell_no, definition_of, cell_of};
ghost use Rattle.libraries.specs.Looks.{library_no, number_of, part_at, field_at, sizes_of};

use library::types::{Cell, CellNo, Definition, LibraryId};

pub mod sizes;

pub use sizes::Sizes;

// Names are parts of the text, which lives for 't.
pub trait Libraries<'t> {
    ghost libs: { Self → List Library };

    // How many libraries there are.
    fn len(&self) -> usize
        ensures { result ≡ length (libs self.now) };

    // The first library of a name.
    fn find(&self, name: &[u8]) -> Option<LibraryId>
        ensures { option_map library_no result ≡ number_of (libs self.now) name.now };

    // The name of a library.
    fn name(&self, id: LibraryId) -> Option<&'t [u8]>
        ensures { (option_map (λ x. x.now) result) ≡ field_at (libs self.now) id.0 (λ l. l.name) };

    // Whether a library looks in itself first.
    fn inward(&self, id: LibraryId) -> Option<bool>
        ensures { result ≡ field_at (libs self.now) id.0 (λ l. l.inward) };

    // How many parts a library has.
    fn sizes(&self, id: LibraryId) -> Option<Sizes>
        ensures { result ≡ field_at (libs self.now) id.0 sizes_of };

    // Name j of those that a library needs.
    fn need(&self, id: LibraryId, j: usize) -> Option<&'t [u8]>
        ensures { (option_map (λ x. x.now) result) ≡ part_at (libs self.now) id.0 (λ l. l.needs) j };

    // Definition j of a library.
    fn definition(&self, id: LibraryId, j: usize) -> Option<Definition<&'t [u8]>>
        ensures { option_map (definition_of (λ x. x.now)) result ≡ part_at (libs self.now) id.0 (λ l. l.defs) j };

    // The cell of initializer j of a library.
    fn initializer(&self, id: LibraryId, j: usize) -> Option<CellNo>
        ensures { option_map cell_no result ≡ part_at (libs self.now) id.0 (λ l. l.inits) j };

    // The cell of finalizer j of a library.
    fn finalizer(&self, id: LibraryId, j: usize) -> Option<CellNo>
        ensures { option_map cell_no result ≡ part_at (libs self.now) id.0 (λ l. l.finis) j };

    // Cell j of a library.
    fn cell(&self, id: LibraryId, j: usize) -> Option<Cell<&'t [u8]>>
        ensures { option_map (cell_of (λ x. x.now)) result ≡ part_at (libs self.now) id.0 (λ l. l.cells) j };
}

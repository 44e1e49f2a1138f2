// The live module of a library, found without a search.
ghost use Rattle.std.specs.Prelude.{◌≡◌, ℕ, List, Some, eqb};
ghost use Rattle.std.specs.Option.{option_eq};
ghost use Rattle.base.specs.Names.{Name};
ghost use Rattle.library.specs.Library.{Library};
ghost use Rattle.library.specs.Distinct.{NamedOnce};
ghost use Rattle.libraries.specs.Looks.{number_of};
ghost use Rattle.links.specs.Load.{find_loaded};
ghost use Rattle.linkage.specs.Tables.{links_of};
ghost use Rattle.linkage.specs.Loaded.{Known, serves};

use crate::tables::Tables;
use library::types::LibraryId;
use rows::fields::word;

impl Tables<'_> {
    // The live module of a library.
    pub fn live_module_of(&self, library: LibraryId) -> Option<usize>
        ensures live { (i : ℕ) → option_eq eqb result (Some i) ≡ serves self.now library.0 i }
        ensures named { (ls : List Library) (x : Name) → NamedOnce ls → Known ls self.now → number_of ls x ≡ Some library.0 → result ≡ find_loaded (links_of ls self.now).modules 0 x }
    {
        let module = word(self.loaded, library.0).checked_sub(1)? as usize;
        self.live_module(module)
            .filter(|found| found.load.library == library)?;
        Some(module)
    }
}

ghost use Rattle.std.specs.Prelude.{◌≡◌, ◌≢◌, ℕ, ◌+◌, ◌*◌, ◌&&◌, List, [], ◌∷◌, ◌++◌, length, is_ok, nat_le, nat_lt, MatchResult, OnOk};
ghost use Rattle.library.specs.Library.{Library};
ghost use Rattle.links.specs.Links.{with_modules};
ghost use Rattle.linkage.specs.Tables.{links_of};
ghost use Rattle.loads.specs.Adding.{IsAbsent, new_module};

use lent::refusals::Full;
use linkage::tables::Tables;
use linkage::types::Load;
use rows::row::Row;

// A module of a library is put behind the others; nothing changes where there is no room for it.
pub fn add_module(tables: &mut Tables, load: Load) -> Result<usize, Full>
    ensures room { is_ok result ≡ (nat_lt load.library.0 (length tables.old.loaded.now) && nat_le (3 * tables.old.modules.len + 3) (length tables.old.modules.words.now)) }
    ensures number { MatchResult result (λ i. i ≡ tables.old.modules.len) (λ _. tables.new ≡ tables.old) }
    ensures rest { (tables.new.groups ≡ tables.old.groups) × (tables.new.bindings ≡ tables.old.bindings) × (tables.new.members ≡ tables.old.members) × (tables.new.order ≡ tables.old.order) × (tables.new.used ≡ tables.old.used) }
    ensures size { (length tables.new.modules.words.now ≡ length tables.old.modules.words.now) × (length tables.new.loaded.now ≡ length tables.old.loaded.now) }
    ensures len { OnOk result (tables.new.modules.len ≡ tables.old.modules.len + 1) }
    ensures absent { (k : ℕ) → k ≢ load.library.0 → IsAbsent tables.old k → IsAbsent tables.new k }
    ensures added { (ls : List Library) → OnOk result (IsAbsent tables.old load.library.0 → links_of ls tables.new ≡ with_modules (links_of ls tables.old) ((links_of ls tables.old).modules ++ new_module ls tables.old load ∷ [])) }
{
    let library = load.library.0;
    if library >= tables.loaded.len() {
        return Err(Full);
    }
    let number = tables.modules.len;
    tables.modules.push(&load.encode())?;
    tables.loaded[library] = number as u64 + 1;
    Ok(number)
}

ghost use Rattle.std.specs.Prelude.{◌≡◌, ℕ, min, List, [], map, length, slice_index_or, is_ok, nat_le, IfOk};
ghost use Rattle.std.specs.List.{between};
ghost use Rattle.std.specs.Option.{option_map};
ghost use Rattle.library.specs.Library.{Library};
ghost use Rattle.lent.specs.Numbers.{numbers};
ghost use Rattle.lent.specs.Tables.{rows_in};
ghost use Rattle.links.specs.Close.{open_members, hosts};
ghost use Rattle.linkage.specs.Rows.{binding_at};
ghost use Rattle.linkage.specs.Tables.{links_of, library_at, number_in, bindings_from};
ghost use Rattle.closes.specs.Staying.{bound_of_one, open_at, none_or_one, Added, Stays};

use crate::refusals::TooFewWords;
use lent::once::Once;
use libraries::Libraries;
use library::types::LibraryId;
use linkage::counts::count_cells;
use linkage::tables::{Tables, number};

// The number is put behind the others, where there is one; one that is no module's is skipped.
fn keep(member: Option<usize>, stays: &mut Once)
    ensures { Added stays.old stays.new (none_or_one member) }
{
    if let Some(member) = member {
        let _ = stays.add(member);
    }
}

// Members from a row on, to before another, are put behind the others.
fn keep_members(tables: &Tables, first: usize, end: usize, stays: &mut Once)
    ensures { Added stays.old stays.new (map number_in (between first end (rows_in 1 tables.now.members))) }
{
    for row in first..end.min(tables.members.len) {
        keep(number(&tables.members, row), stays);
    }
}

// The members of a group are put behind the others, if it is open.
fn keep_group(tables: &Tables, group: usize, stays: &mut Once)
    ensures { (ls : List Library) → Added stays.old stays.new (open_at (links_of ls tables.now).groups group) }
{
    let Some(found) = tables.group(group) else {
        return;
    };
    if found.opened {
        keep_members(tables, found.first, found.end, stays);
    }
}

// The members of open groups are put behind the others.
fn keep_open(tables: &Tables, stays: &mut Once)
    ensures { (ls : List Library) → Added stays.old stays.new (open_members (links_of ls tables.now).groups) }
{
    for group in 0..tables.groups.len {
        keep_group(tables, group, stays);
    }
}

// The module that the cell at a word is bound to.
fn host_at(tables: &Tables, address: usize) -> Option<usize>
    ensures { result ≡ option_map (λ p. p.host) (binding_at (slice_index_or (rows_in 2 tables.now.bindings) address [])) }
{
    let place = tables.bound_at(address)?;
    Some(place.module)
}

// What so many cells from a word on are bound to is put behind the others.
fn keep_hosts(tables: &Tables, base: usize, cells: usize, stays: &mut Once)
    ensures { Added stays.old stays.new (hosts (bindings_from (rows_in 2 tables.now.bindings) base cells)) }
{
    let end = base.saturating_add(cells).min(tables.bindings.len);
    for address in base..end {
        keep(host_at(tables, address), stays);
    }
}

// What a module is bound to is put behind the others, unless the module went.
fn keep_bound<'t, L: Libraries<'t>>(libraries: &L, tables: &Tables, kept: usize, stays: &mut Once)
    ensures { Added stays.old stays.new (bound_of_one (links_of (L.libs libraries.now) tables.now).modules kept) }
{
    let Some(module) = tables.module(kept) else {
        return;
    };
    if module.live {
        let load = module.load;
        let cells = count_cells(libraries, load.library);
        keep_hosts(tables, load.base, cells, stays);
    }
}

// The modules that stay: members of open groups, and what those that stay are bound to.
pub fn retained<'t, 'w, L: Libraries<'t>>(
    libraries: &L,
    tables: &Tables,
    words: &'w mut [u64],
    marks: &'w mut [u64],
) -> Result<Once<'w>, TooFewWords>
    ensures room { is_ok result ≡ nat_le tables.now.modules.len (min (length words.old) (length marks.old)) }
    ensures stays { IfOk result (λ o. Stays (links_of (L.libs libraries.now) tables.now) (numbers o)) }
{
    let count = tables.modules.len;
    if words.len() < count || marks.len() < count {
        return Err(TooFewWords);
    }
    let mut stays = Once::new(words, &mut marks[..count]);
    keep_open(tables, &mut stays);
    while let Some(kept) = stays.take() {
        keep_bound(libraries, tables, kept, &mut stays);
    }
    Ok(stays)
}

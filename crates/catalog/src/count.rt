ghost use Rattle.std.specs.Prelude.{◌≡◌, ◌-◌, min};

// How many rows stand from start to before end, of so many.
pub(crate) fn count(start: u64, end: u64, rows: usize) -> usize
    ensures { result ≡ min end rows - start }
{
    (end as usize).min(rows).saturating_sub(start as usize)
}

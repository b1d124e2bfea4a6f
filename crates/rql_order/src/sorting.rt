//! A stable sort.
ghost use Rattle.std.specs.Prelude.{◌≡◌, IfOk};
ghost use Rattle.std.specs.Cmp.Lexicographic.{slice_cmp};
ghost use Rattle.spec_query.specs.Sorting.{sorted};

use raven_base::NoMemory;

/// The items in the order of the lists beside them. Items with equal lists stay in the order in which they were.
pub fn by_lists<V: Ord + Drop, T: Drop>(
    mut items: Vec<(Vec<V>, T)>,
) -> Result<Vec<(Vec<V>, T)>, NoMemory>
    ensures { IfOk result (λ sorts. sorts.items ≡ sorted (λ a b. slice_cmp V.cmp a.0.items b.0.items) items.items) }
{
    items.sort_by(|a, b| a.0.as_slice().cmp(b.0.as_slice()))?;
    Ok(items)
}

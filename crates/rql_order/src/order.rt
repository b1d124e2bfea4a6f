//! Rows in the order of a query.
ghost use Rattle.std.specs.Prelude.{◌≡◌, IfOk, map};
ghost use Rattle.spec_query.specs.Sorting.{keys_order, sorted};
ghost use Rattle.rql_order.specs.Values.{sort_values, with_values as spec_with_values};

use crate::sorting::by_lists;
use crate::value::{SortValue, value_in};
use map_stage::Entry;
use raven_base::NoMemory;
use rql_plan::SortKey;
use std::alloc::Global;

fn values_in(alloc: Global, keys: &[SortKey], entry: &Entry) -> Result<Vec<SortValue>, NoMemory>
    ensures { IfOk result (λ values. values.items ≡ sort_values keys.now entry.now) }
{
    let mut values = Vec::with_capacity(alloc, keys.len())?;
    for key in keys {
        values.push(value_in(alloc, key, entry)?)?;
    }
    Ok(values)
}

/// Each row with what the keys compare of it.
fn with_values<'e, K: Drop>(
    alloc: Global,
    keys: &[SortKey],
    rows: Vec<(K, &'e Entry)>,
) -> Result<Vec<(Vec<SortValue>, (K, &'e Entry))>, NoMemory>
    ensures { IfOk result (λ all. map (λ p. (p.0.items, p.1)) all.items ≡ map (spec_with_values keys.now) rows.entry.items) }
{
    let mut all = Vec::with_capacity(alloc, rows.len())?;
    for row in rows {
        let values = values_in(alloc, keys, row.1)?;
        all.push((values, row))?;
    }
    Ok(all)
}

/// The rows without the values beside them.
fn without_values<'e, K: Drop>(
    alloc: Global,
    ranked: Vec<(Vec<SortValue>, (K, &'e Entry))>,
) -> Result<Vec<(K, &'e Entry)>, NoMemory>
    ensures { IfOk result (λ rows. rows.items ≡ map (λ p. p.1) ranked.entry.items) }
{
    let mut rows = Vec::with_capacity(alloc, ranked.len())?;
    for rank in ranked {
        let (_values, row) = rank;
        rows.push(row)?;
    }
    Ok(rows)
}

/// The rows in the order of the keys, of which the first counts most. Rows that are equal for all keys stay in the order in which
/// they come.
///
/// What the keys compare is taken from each row once. It takes memory for that, and time that grows with the number of rows times
/// its logarithm.
pub fn in_order<'e, K: Drop>(
    alloc: Global,
    keys: &[SortKey],
    rows: Vec<(K, &'e Entry)>,
) -> Result<Vec<(K, &'e Entry)>, NoMemory>
    ensures { IfOk result (λ ordered. ordered.items ≡ sorted (λ a b. keys_order keys.now a.1.now b.1.now) rows.entry.items) }
{
    let ranked = with_values(alloc, keys, rows)?;
    let ordered = by_lists(ranked)?;
    Ok(without_values(alloc, ordered)?)
}

//! Documents as they are shown, under their ids.
ghost use Rattle.std.specs.Prelude.{◌≡◌, [], IfOk, map};
ghost use Rattle.spec_data.specs.Data.{Data};
ghost use Rattle.spec_data.specs.Rows as is;
ghost use Rattle.rql_results.specs.Documents.{found_in};
ghost use Rattle.rql_results.specs.Led.{with_all};

use crate::documents::Found;
use crate::show::Show;
use raven_base::NoMemory;
use raven_json::ShownMembers;
use raven_value::Text;
use std::alloc::Global;

/// The id as the row of a document spells it.
fn id_of<'r>(found: &Found<'r>) -> &'r Text
    ensures { result.now ≡ (found_in found.now).0.id }
{
    let row = found.row;
    row.id.text()
}

/// The documents in order of their ids. Those of one id stay in the order in which they were, so the same one counts.
fn in_order_of_ids(mut found: Vec<Found<'_>>) -> Result<Vec<Found<'_>>, NoMemory>
    ensures { IfOk result (λ ordered. (show : is.Row → Data → Data) → with_all show (map found_in ordered.items) [] ≡ with_all show (map found_in found.entry.items) []) }
{
    found.sort_by(|a, b| id_of(a).cmp(id_of(b)))?;
    Ok(found)
}

fn shown_in_turn<W: Show>(
    alloc: Global,
    show: &W,
    documents: &[Found],
) -> Result<ShownMembers, NoMemory>
    ensures { IfOk result (λ members. members ≡ with_all (W.shown show.now) (map found_in documents.now) []) }
{
    let mut members = ShownMembers::new(alloc);
    for found in documents {
        let row = found.row;
        let shown = show.show(alloc, row, found.document)?;
        members.put(row.id.text().clone()?, shown)?;
    }
    Ok(members)
}

/// Each document as it is shown, under the id as its row spells it; of two under one id the later one counts.
pub fn shown_under_ids<W: Show>(
    alloc: Global,
    show: &W,
    found: Vec<Found<'_>>,
) -> Result<ShownMembers, NoMemory>
    ensures { IfOk result (λ members. members ≡ with_all (W.shown show.now) (map found_in found.entry.items) []) }
{
    // In order, since members are looked for from their end.
    let ordered = in_order_of_ids(found)?;
    shown_in_turn(alloc, show, &ordered)
}

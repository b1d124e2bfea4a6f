//! The terms of an index, as what its map gives changes.
ghost use Rattle.std.specs.Prelude.{◌≡◌, ℕ, List, [], IfOk, IsTrue, false, map, if◌then◌else◌};
ghost use Rattle.std.specs.BTreeMap.{is_at};
ghost use Rattle.std.specs.FinMap.{get};
ghost use Rattle.std.specs.List.{list_any};
ghost use Rattle.std.specs.Map.{lookup};
ghost use Rattle.spec_data.specs.Folding.{folded, same_key};
ghost use Rattle.index_definition.specs.Reading.{fields as spec_fields};
ghost use Rattle.map_stage.specs.FieldView.{field_view};
ghost use Rattle.term_index.specs.Columns.{no_values};
ghost use Rattle.reference_track.specs.Folded.{by_folded};
ghost use Rattle.reference_track.specs.Sets.{AreInOrder, id_cmp};
ghost use Rattle.index_version.specs.Termed.{HaveTerms, given_fields, names_of};

use crate::results::Results;
use index_definition::{Definition, fields};
use raven_base::NoMemory;
use raven_value::{Id, Names, Scalar, Text};
use std::alloc::Global;
use term_index::Terms;

/// No terms, of the fields of a definition. If it has a reduce, there are terms of no field: a query on it reads its rows.
pub fn no_terms(alloc: Global, definition: &Definition, has_reduce: bool) -> Result<Terms, NoMemory>
    ensures { IfOk result (λ terms. terms ≡ no_values (if has_reduce then [] else spec_fields definition.now.body)) }
{
    if has_reduce {
        return Terms::new(alloc, &Names::new(alloc));
    }
    let names = fields(alloc, definition)?;
    Terms::new(alloc, &names)
}

/// The fields of the entry of an id, none if it has no entry.
fn fields_at<'a>(all: &'a Results, id: &Id) -> &'a [(Text, Scalar)]
    ensures { map field_view result.now ≡ given_fields (lookup (is_at (id_cmp id.now)) all.now) }
{
    match all.get(id) {
        Some(given) => given.get().fields(),
        None => &[],
    }
}

/// The terms once what is given for these ids has changed, and for no others.
///
/// For each field whose value changes it takes time and memory that grow with the logarithm of the number of ids. If the definition has
/// a reduce, there are no terms to change.
pub fn retermed(
    alloc: Global,
    terms: &Terms,
    has_reduce: bool,
    before: &Results,
    after: &Results,
    ids: &[Id],
) -> Result<Terms, NoMemory>
    requires once { AreInOrder ids.now }
    requires others { (q : List ℕ) → list_any (same_key q) (map folded ids.now) ≡ false → get (by_folded after.now) q ≡ get (by_folded before.now) q }
    requires terms { HaveTerms (by_folded before.now) terms.now }
    requires reduce { IsTrue has_reduce → names_of terms.now ≡ [] }
    ensures names { IfOk result (λ new. names_of new ≡ names_of terms.now) }
    ensures terms { IfOk result (λ new. HaveTerms (by_folded after.now) new) }
{
    if has_reduce {
        return Ok(terms.clone()?);
    }
    let mut new = terms.clone()?;
    for id in ids {
        new = new.replace(alloc, id, fields_at(before, id), fields_at(after, id))?;
    }
    Ok(new)
}

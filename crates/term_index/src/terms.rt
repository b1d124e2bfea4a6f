//! The values of all fields.
ghost use Rattle.std.specs.Prelude.{◌≡◌, ℕ, List, IfOk, IfSome, false, map, option_map};
ghost use Rattle.std.specs.Map.{lookup};
ghost use Rattle.std.specs.Option.{option_copied, option_map_or};
ghost use Rattle.std.specs.Str.{bytes_eq};
ghost use Rattle.spec_data.specs.Folding.{folded};
ghost use Rattle.spec_data.specs.Scalars.{Is};
ghost use Rattle.raven_value.specs.ScalarView.{scalar_view, test_view};
ghost use Rattle.reference_track.specs.Sets.{AreInOrder, is_one_of};
ghost use Rattle.term_index.specs.Columns.{HasFields, fields_of, no_values, value_at, value_of, with_fields};
ghost use Rattle.term_index.specs.Decided.{Decide};
ghost use Rattle.term_index.specs.Held.{IsCountOf, passes};

use crate::column::Column;
use crate::counting::ValueCondition;
use raven_base::{NoMemory, Shared};
use raven_value::{Id, Ids, Names, Scalar, Test, Text};
use std::alloc::{AllocError, Global};
use std::marker::Model;

/// The values that ids have in some fields, seen by contracts as a map from folded ids to values for each field.
///
/// Of each field it keeps the terms, pairs of a value and an id, in shared pages, ordered by the kind of the value, its number, its
/// folded text and the folded id. So the ids whose values meet a test are found between two terms, and those of one value are in
/// order. A clone shares all pages, and a change copies only pages that others have too; a field whose value is unchanged stays as it is.
pub struct Terms {
    columns: Vec<(Shared<Text>, Column)>,
}

// Opaque drop: see raven_base.
impl Drop for Terms {
    fn drop(self) {
        let Terms { columns: _columns } = self;
    }
}

impl Model for Terms {
    ghost use Rattle.term_index.specs.Columns.{Columns, columns_code};

    ghost Value = { Columns };

    ghost coded = { columns_code };

    ghost view = { λ a. a.columns.items };
}

/// The value of the field of that name, if there is one.
fn value_of<'a>(fields: &'a [(Text, Scalar)], name: &str) -> Option<&'a Scalar>
    ensures { option_map (λ v. scalar_view v.now) result ≡ value_of name.now (fields_of fields.now) }
{
    for field in fields {
        if name == field.0.as_str() {
            return Some(&field.1);
        }
    }
    None
}

impl Terms {
    /// No values in these fields.
    pub fn new(alloc: Global, fields: &Names) -> Result<Terms, NoMemory>
        ensures { IfOk result (λ terms. terms ≡ no_values fields.now) }
    {
        let mut columns = Vec::new(alloc);
        for name in fields.as_slice() {
            columns.push((Shared::of(alloc, name.clone()?)?, Column::new(alloc)?))?;
        }
        Ok(Terms { columns })
    }

    /// The terms with the new fields of an id in place of the old ones. An id without an entry has no fields.
    ///
    /// For each field whose value changes it takes time and memory that grow with the logarithm of the number of ids. If it runs out of
    /// memory, these terms are gone, and their clones stay.
    pub fn replace(
        self,
        alloc: Global,
        id: &Id,
        old: &[(Text, Scalar)],
        new: &[(Text, Scalar)],
    ) -> Result<Terms, NoMemory>
        requires { HasFields (folded id.now) (fields_of old.now) self }
        ensures { IfOk result (λ terms. terms ≡ with_fields (folded id.now) (fields_of new.now) self) }
    {
        let Terms { columns: all } = self;
        let id = Shared::of(alloc, id.clone()?)?;
        let mut columns = Vec::with_capacity(alloc, all.len())?;
        for column in all {
            let (name, values) = column;
            let before = value_of(old, name.get().as_str());
            let after = value_of(new, name.get().as_str());
            let values = values.replace(alloc, &id, before, after)?;
            columns.push((name, values))?;
        }
        Ok(Terms { columns })
    }

    pub(crate) fn column(&self, field: &str) -> Option<&Column>
        ensures { option_copied result ≡ lookup (bytes_eq field.now) self.now }
    {
        for column in &self.columns {
            if field == column.0.get().as_str() {
                return Some(&column.1);
            }
        }
        None
    }

    /// The ids that have this value in a field, in order.
    ///
    /// It takes a search, and then time that grows with the number of ids found and the logarithm of the number of all. If texts
    /// are compared exactly, ids with other spellings of the text are read too.
    pub fn equal(
        &self,
        alloc: Global,
        field: &str,
        value: &Scalar,
        exact: bool,
    ) -> Result<Ids, NoMemory>
        ensures members { IfOk result (λ ids. (q : List ℕ) → is_one_of q ids ≡ passes (Is (scalar_view value.now)) exact (value_at field.now (folded q) self.now)) }
        ensures order { IfOk result (λ ids. AreInOrder ids) }
    {
        match self.column(field) {
            Some(column) => column.equal(alloc, value, exact),
            None => Ok(Ids::new(alloc)),
        }
    }

    /// The ids whose values in a field meet a test, in order.
    ///
    /// It costs what `equal` costs, and sorting the ids found. `Not` reads all terms of the field, and a test that compares texts
    /// exactly by their order reads those of all texts.
    pub fn range(
        &self,
        alloc: Global,
        field: &str,
        test: &Test,
        exact: bool,
    ) -> Result<Ids, NoMemory>
        ensures members { IfOk result (λ ids. (q : List ℕ) → is_one_of q ids ≡ passes (test_view test.now) exact (value_at field.now (folded q) self.now)) }
        ensures order { IfOk result (λ ids. AreInOrder ids) }
    {
        match self.column(field) {
            Some(column) => column.range(alloc, test, exact),
            None => Ok(Ids::new(alloc)),
        }
    }

    /// How many ids have values in a field that meet a condition, if that is known without a walk over them. The condition is one
    /// that these tests decide, each with whether it compares texts exactly.
    ///
    /// No clause says when it is known. It usually is for `Is`, `Not`, `In`, `Starts` and `There`, and for bounds that are two numbers
    /// or two texts, unless a text is compared exactly; and if these are at most 64 in all, where each value of an `In` is one. For each
    /// of them it costs some searches, and the condition is asked of one value for each run of terms between their edges.
    pub fn count<C: ValueCondition>(
        &self,
        alloc: Global,
        field: &str,
        tests: &[(&Test, bool)],
        condition: &C,
    ) -> Result<Option<u64>, NoMemory>
        requires { Decide (map (λ t. (test_view t.0.now, t.1)) tests.now) (C.meets condition.now) }
        ensures { IfOk result (λ count. IfSome count (IsCountOf (λ q. option_map_or (C.meets condition.now) (value_at field.now (folded q) self.now) false))) }
    {
        match self.column(field) {
            Some(column) => column.count(alloc, tests, condition),
            None => Ok(Some(0)),
        }
    }
}

/// A clone shares every page.
impl Clone for Terms {
    ghost is_clone = { λ s t. t ≡ s };

    fn clone(&self) -> Result<Terms, AllocError> {
        let mut columns = Vec::new(*self.columns.allocator());
        for column in &self.columns {
            columns.push((column.0.clone()?, column.1.clone()?))?;
        }
        Ok(Terms { columns })
    }
}

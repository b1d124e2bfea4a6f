//! The keys of groups.
ghost use Rattle.std.specs.Prelude.{◌≡◌, IfOk, Some, map, refl};
ghost use Rattle.std.specs.Cmp.{eq_by_cmp_equiv, partial_equiv_from_equiv, po};
ghost use Rattle.std.specs.Ordering.{eq_by_cmp};
ghost use Rattle.raven_value.specs.ScalarView.{scalar_view};
ghost use Rattle.spec_index.specs.Rows.{key_of, key_order, value_at};
ghost use Rattle.index_groups.specs.KeyLaws.{keys_total};

use raven_base::{Exact, NoMemory, Sequence, Shared};
use raven_value::{Scalar, Text};
use reduce_folds::HasFields;
use std::alloc::{AllocError, Global};
use std::cmp::Ordering;
use std::marker::Model;

/// The parts of a group's key, ordered part by part. A clone shares them.
pub struct GroupKey {
    scalars: Shared<Sequence<Scalar>>,
}

// Opaque drop: see raven_base.
impl Drop for GroupKey {
    fn drop(self) {
        let GroupKey { scalars: _scalars } = self;
    }
}

impl Model for GroupKey {
    ghost use Rattle.std.specs.Prelude.{map};
    ghost use Rattle.std.specs.Coded.{coded_list};
    ghost use Rattle.spec_data.specs.Codes.{scalar_code};
    ghost use Rattle.spec_index.specs.Rows.{Key};
    ghost use Rattle.raven_value.specs.ScalarView.{scalar_view};

    ghost Value = { Key };

    ghost coded = { coded_list scalar_code };

    ghost view = { λ a. map scalar_view a.scalars };
}

impl GroupKey {
    /// The parts.
    pub fn parts(&self) -> &[Scalar]
        ensures { map scalar_view result.now ≡ self.now }
    {
        self.scalars.get().as_slice()
    }
}

/// The order of keys by their parts.
#[tactic(auto, using(crate::proofs::Keys::parts_compared))]
fn compare_parts(a: &[Scalar], b: &[Scalar]) -> Ordering
    ensures { result ≡ key_order (map scalar_view a.now) (map scalar_view b.now) }
{
    a.cmp(&b)
}

impl PartialEq for GroupKey {
    ghost eq = { eq_by_cmp key_order };

    ghost laws = { partial_equiv_from_equiv (eq_by_cmp_equiv keys_total) };

    fn eq(&self, other: &GroupKey) -> bool {
        compare_parts(self.parts(), other.parts()) == Ordering::Equal
    }
}

impl Eq for GroupKey {
    ghost laws = { eq_by_cmp_equiv keys_total };
}

impl PartialOrd for GroupKey {
    ghost partial_cmp = { λ x y. Some (key_order x y) };

    ghost laws = { po keys_total (λ x y. refl) };

    fn partial_cmp(&self, other: &GroupKey) -> Option<Ordering> {
        Some(compare_parts(self.parts(), other.parts()))
    }
}

impl Ord for GroupKey {
    ghost cmp = { key_order };

    ghost total = { keys_total };

    ghost matches_partial_cmp = { λ x y. refl };

    ghost matches_eq = { λ x y. refl };

    fn cmp(&self, other: &GroupKey) -> Ordering {
        compare_parts(self.parts(), other.parts())
    }
}

impl Clone for GroupKey {
    ghost is_clone = { λ key copy. copy ≡ key };

    fn clone(&self) -> Result<GroupKey, AllocError> {
        Ok(GroupKey {
            scalars: self.scalars.clone()?,
        })
    }
}

impl Exact for GroupKey {
    ghost exact = { λ x y same. same };
}

/// The value of a field, null if there is none.
fn value_at<E: HasFields>(entry: &E, name: &Text) -> Result<Scalar, NoMemory>
    ensures { IfOk result (λ value. scalar_view value ≡ value_at name.now (E.fields entry.now)) }
{
    match entry.field(name) {
        Some(value) => Ok(value.clone()?),
        None => Ok(Scalar::Null),
    }
}

/// The values of these fields, in their order.
#[tactic(auto, using(crate::proofs::Keys::part_more))]
fn parts_of<E: HasFields>(
    alloc: Global,
    names: &[Text],
    entry: &E,
) -> Result<Sequence<Scalar>, NoMemory>
    ensures { IfOk result (λ parts. map scalar_view parts ≡ key_of names.now (E.fields entry.now)) }
{
    let mut parts = Sequence::new(alloc);
    for name in names {
        parts.push(value_at(entry, name)?)?;
    }
    Ok(parts)
}

/// The key of an entry's group: the values of the fields by which entries are grouped.
pub fn key_of<E: HasFields>(alloc: Global, names: &[Text], entry: &E) -> Result<GroupKey, NoMemory>
    ensures { IfOk result (λ key. key ≡ key_of names.now (E.fields entry.now)) }
{
    let parts = parts_of(alloc, names, entry)?;
    Ok(GroupKey {
        scalars: Shared::of(alloc, parts)?,
    })
}

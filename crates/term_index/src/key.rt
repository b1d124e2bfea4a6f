//! Terms, the edges between them, and their order.
ghost use Rattle.std.specs.Prelude.{◌≡◌, Some, refl, option_map};
ghost use Rattle.std.specs.Cmp.{on_per, on_equiv, on_po, on_total, partial_equiv_from_equiv, eq_by_cmp_equiv, po};
ghost use Rattle.std.specs.Ordering.{on, eq_by_cmp, nat_cmp, ordering_then};
ghost use Rattle.spec_data.specs.Folding.{key_cmp};
ghost use Rattle.raven_value.specs.ScalarView.{scalar_view};
ghost use Rattle.term_index.specs.Marks.{mark_cmp, same_words, value_cmp};
ghost use Rattle.term_index.specs.Totals.{marks_total};
ghost use Rattle.term_index.specs.KeyView.{mark_of};

use raven_base::{Exact, Shared};
use raven_value::{Id, Scalar, compare};
use std::alloc::AllocError;
use std::cmp::Ordering;

/// A value of a field, and the id that has it. The terms of all fields share the id.
pub struct Term {
    pub value: Scalar,
    pub id: Shared<Id>,
}

// Opaque drop: see raven_base.
impl Drop for Term {
    fn drop(self) {
        let Term {
            value: _value,
            id: _id,
        } = self;
    }
}

/// A term, or an edge: before or after all terms of a value, or after all terms.
///
/// All that it has is shared, so a page of keys is small, and a copy of a page clones no text.
pub enum Key {
    At(Shared<Term>),
    Before(Shared<Scalar>),
    After(Shared<Scalar>),
    End,
}

// Opaque drop: see raven_base.
impl Drop for Key {
    fn drop(self) {
        match self {
            Key::At(_value) => {}
            Key::Before(_value) => {}
            Key::After(_value) => {}
            Key::End => {}
        }
    }
}

/// Whether both are texts, and the same without regard to case.
fn are_same_words(a: &Scalar, b: &Scalar) -> bool
    ensures { result ≡ same_words (scalar_view a.now) (scalar_view b.now) }
{
    match (a, b) {
        (Scalar::Text(s), Scalar::Text(t)) => s.as_str().eq_ignore_ascii_case(t.as_str()),
        _ => false,
    }
}

/// As `compare`, but spellings of one text are equal.
#[tactic(auto, using(crate::proofs::Orders::folded_order))]
fn compare_folded(a: &Scalar, b: &Scalar) -> Ordering
    ensures { result ≡ value_cmp (Some (scalar_view a.now)) (Some (scalar_view b.now)) }
{
    if are_same_words(a, b) {
        Ordering::Equal
    } else {
        compare(a, b)
    }
}

/// No value comes after all values.
#[tactic(auto, using(crate::proofs::Orders::ends))]
fn compare_values(a: Option<&Scalar>, b: Option<&Scalar>) -> Ordering
    ensures { result ≡ value_cmp (option_map (λ v. scalar_view v.now) a.entry) (option_map (λ v. scalar_view v.now) b.entry) }
{
    match (a, b) {
        (Some(a), Some(b)) => compare_folded(a, b),
        (Some(_), None) => Ordering::Less,
        (None, Some(_)) => Ordering::Greater,
        (None, None) => Ordering::Equal,
    }
}

impl Key {
    fn value(&self) -> Option<&Scalar>
        ensures { option_map (λ v. scalar_view v.now) result ≡ (mark_of self.now).value }
    {
        match self {
            Key::At(term) => Some(&term.get().value),
            Key::Before(value) => Some(value.get()),
            Key::After(value) => Some(value.get()),
            Key::End => None,
        }
    }

    fn side(&self) -> u8
        ensures { result ≡ (mark_of self.now).side }
    {
        match self {
            Key::At(_) => 1,
            Key::Before(_) => 0,
            Key::After(_) => 2,
            Key::End => 0,
        }
    }
}

/// The order of two keys of one value: the edge before it, its terms by their ids, and the edge after it.
fn compare_sides(a: &Key, b: &Key) -> Ordering
    ensures { result ≡ ordering_then (nat_cmp (mark_of a.now).side (mark_of b.now).side) (key_cmp (mark_of a.now).id (mark_of b.now).id) }
{
    match (a, b) {
        (Key::At(a), Key::At(b)) => a.get().id.get().cmp(b.get().id.get()),
        (a, b) => a.side().cmp(&b.side()),
    }
}

fn compare_keys(a: &Key, b: &Key) -> Ordering
    ensures { result ≡ mark_cmp (mark_of a.now) (mark_of b.now) }
{
    match compare_values(a.value(), b.value()) {
        Ordering::Equal => compare_sides(a, b),
        order => order,
    }
}

impl PartialEq for Key {
    ghost eq = { on mark_of (eq_by_cmp mark_cmp) };

    ghost laws = { on_per mark_of (partial_equiv_from_equiv (eq_by_cmp_equiv marks_total)) };

    fn eq(&self, other: &Key) -> bool {
        compare_keys(self, other) == Ordering::Equal
    }
}

impl Eq for Key {
    ghost laws = { on_equiv mark_of (eq_by_cmp_equiv marks_total) };
}

impl PartialOrd for Key {
    ghost partial_cmp = { on mark_of (λ x y. Some (mark_cmp x y)) };

    ghost laws = { on_po mark_of (po marks_total (λ x y. refl)) };

    fn partial_cmp(&self, other: &Key) -> Option<Ordering> {
        Some(compare_keys(self, other))
    }
}

impl Ord for Key {
    ghost cmp = { on mark_of mark_cmp };

    ghost total = { on_total mark_of marks_total };

    ghost matches_partial_cmp = { λ x y. refl };

    ghost matches_eq = { λ x y. refl };

    fn cmp(&self, other: &Key) -> Ordering {
        compare_keys(self, other)
    }
}

impl Clone for Key {
    ghost is_clone = { λ s t. t ≡ s };

    fn clone(&self) -> Result<Key, AllocError> {
        Ok(match self {
            Key::At(term) => Key::At(term.clone()?),
            Key::Before(value) => Key::Before(value.clone()?),
            Key::After(value) => Key::After(value.clone()?),
            Key::End => Key::End,
        })
    }
}

impl Exact for Key {
    ghost exact = { λ x y same. same };
}

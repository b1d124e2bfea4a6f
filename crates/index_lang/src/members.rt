//! The members of a map and of its reduce.
ghost use Rattle.std.specs.Prelude.{◌≡◌, ℕ, List};
ghost use Rattle.std.specs.List.{list_all, list_any};
ghost use Rattle.index_lang.specs.Fields as spec;
ghost use Rattle.index_lang.specs.Fields.{fold_name, fold_place, member_name, member_place};

use index_definition::is_among;
use index_grammar::PlacedMember;
use index_tree::{FoldKind, FoldValue};
use raven_value::Text;
use reduce_grammar::{PlacedFold, SpelledReduce};

/// A member of a map or of a reduce.
pub trait Field {
    /// Its name.
    ghost label: { Self → List ℕ };

    /// Its place.
    ghost place: { Self → ℕ };

    /// Its name.
    fn name(&self) -> &Text
        ensures { result.now ≡ label self.now };

    /// The place of its first byte, counted from 0.
    fn at(&self) -> usize
        ensures { result ≡ place self.now };
}

impl Field for PlacedMember {
    ghost label = { member_name };

    ghost place = { member_place };

    fn name(&self) -> &Text {
        &self.member.name
    }

    fn at(&self) -> usize {
        self.at
    }
}

impl Field for PlacedFold {
    ghost label = { fold_name };

    ghost place = { fold_place };

    fn name(&self) -> &Text {
        &self.member.name
    }

    fn at(&self) -> usize {
        self.at
    }
}

fn has_name<F: Field>(members: &[F], name: &Text) -> bool
    ensures { result ≡ spec.has_name F.label F.place members.now name.now }
{
    for member in members {
        if *name == *member.name() {
            return true;
        }
    }
    false
}

/// The place of the first member whose name one before it has.
pub fn duplicate<F: Field>(members: &[F]) -> Option<usize>
    ensures { result ≡ spec.duplicate F.label F.place members.now }
{
    for index in 0..members.len() {
        if has_name(&members[..index], members[index].name()) {
            return Some(members[index].at());
        }
    }
    None
}

fn has_all<A: Field, B: Field>(members: &[A], others: &[B]) -> bool
    ensures { result ≡ list_all (λ m. spec.has_name B.label B.place others.now (A.label m)) members.now }
{
    for member in members {
        if !has_name(others, member.name()) {
            return false;
        }
    }
    true
}

/// Whether a map and its reduce give fields of the same names.
pub fn fields_agree(members: &[PlacedMember], folds: &[PlacedFold]) -> bool
    ensures { result ≡ spec.fields_agree members.now folds.now }
{
    has_all(members, folds) && has_all(folds, members)
}

fn is_sum_of(field: &Text, value: &FoldValue) -> bool
    ensures { result ≡ spec.is_sum_of field.now value.now }
{
    match value {
        FoldValue::Fold {
            kind: FoldKind::Sum,
            field: other,
            ..
        } => *field == *other,
        _ => false,
    }
}

fn is_summed(members: &[PlacedFold], field: &Text) -> bool
    ensures { result ≡ spec.is_summed members.now field.now }
{
    for placed in members {
        if *field == placed.member.name && is_sum_of(field, &placed.member.value) {
            return true;
        }
    }
    false
}

fn keeps_name(key: &[Text], all: &[PlacedFold], name: &Text, value: &FoldValue) -> bool
    ensures { result ≡ spec.keeps_name key.now all.now name.now value.now }
{
    match value {
        FoldValue::Key(part) => is_among(key, part) && *part == *name,
        FoldValue::Fold { field, .. } => *field == *name,
        FoldValue::Quotient { field, by, .. } => is_summed(all, field) && is_summed(all, by),
    }
}

fn first_renamed(key: &[Text], members: &[PlacedFold]) -> Option<usize>
    ensures { result ≡ spec.first_renamed key.now members.now members.now }
{
    for placed in members {
        if !keeps_name(key, members, &placed.member.name, &placed.member.value) {
            return Some(placed.at);
        }
    }
    None
}

fn gives_part(part: &Text, value: &FoldValue) -> bool
    ensures { result ≡ spec.gives_part part.now value.now }
{
    match value {
        FoldValue::Key(other) => *part == *other,
        _ => false,
    }
}

fn is_given(part: &Text, members: &[PlacedFold]) -> bool
    ensures { result ≡ list_any (λ m. spec.gives_part part.now m.member.value) members.now }
{
    for placed in members {
        if gives_part(part, &placed.member.value) {
            return true;
        }
    }
    false
}

fn gives_key(key: &[Text], members: &[PlacedFold]) -> bool
    ensures { result ≡ spec.gives_key key.now members.now }
{
    for part in key {
        if !is_given(part, members) {
            return false;
        }
    }
    true
}

/// The place of the first member that keeps groups from being reduced once more, or of the key, of which a part is left out.
pub fn irreducible(reduce: &SpelledReduce) -> Option<usize>
    ensures { result ≡ spec.irreducible reduce.now }
{
    let key = reduce.key.as_slice();
    let members = reduce.members.as_slice();
    if let Some(at) = first_renamed(key, members) {
        return Some(at);
    }
    if gives_key(key, members) {
        None
    } else {
        Some(reduce.key_at)
    }
}

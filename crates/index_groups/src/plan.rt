//! What the trees of a reduce fold, and where each field of its rows comes from.
ghost use Rattle.std.specs.Prelude.{◌≡◌, IfOk, map};
ghost use Rattle.std.specs.Str.{bytes_eq};
ghost use Rattle.index_groups.specs.Cells.{field_of, fold_by, fold_place, folds_of, is_same, place_of, source_of, with_fold, with_needed};

use index_tree::{FoldKind, FoldMember, FoldValue};
use raven_base::{NoMemory, Sequence};
use raven_value::Text;
use reduce_folds::FieldFold;
use std::alloc::Global;

/// A quotient, by the places of its two sums among the cells of a group.
#[derive(Drop)]
pub struct Quotient {
    pub sum: usize,
    pub by: usize,
}

/// Where a field of a row comes from.
#[derive(Drop)]
pub enum Source {
    /// The part of the key at this place.
    Part(usize),
    /// The cell at this place.
    Cell(usize),
    Quotient(Quotient),
}

/// A field of a row.
pub struct RowField {
    pub name: Text,
    pub source: Source,
}

// Opaque drop: see raven_base.
impl Drop for RowField {
    fn drop(self) {
        let RowField {
            name: _name,
            source: _source,
        } = self;
    }
}

fn is_same(fold: &FieldFold, kind: FoldKind, field: &Text) -> bool
    ensures { result ≡ is_same (fold_by kind field.now) fold.now }
{
    kind == fold.kind && *field == fold.field
}

/// The place of the fold of a field, or their number if it is not there.
fn fold_place(folds: &[FieldFold], kind: FoldKind, field: &Text) -> usize
    ensures { result ≡ fold_place kind field.now folds.now }
{
    let mut place = 0;
    while place < folds.len() && !is_same(&folds[place], kind, field) {
        place += 1;
    }
    place
}

/// The place of a name, or the number of names if it is not there.
fn name_place(names: &[Text], name: &Text) -> usize
    ensures { result ≡ place_of (bytes_eq name.now) names.now }
{
    let mut place = 0;
    while place < names.len() && *name != names[place] {
        place += 1;
    }
    place
}

/// Adds the fold of a field, if it is not there.
fn need(folds: &mut Sequence<FieldFold>, kind: FoldKind, field: &Text) -> Result<(), NoMemory>
    ensures { IfOk result (λ _. folds.new ≡ with_fold (fold_by kind field.now) folds.old) }
{
    if fold_place(folds.as_slice(), kind, field) == folds.len() {
        folds.push(FieldFold {
            kind,
            field: field.clone()?,
        })?;
    }
    Ok(())
}

/// Adds the folds that a member needs and that are not there.
fn need_all(folds: &mut Sequence<FieldFold>, value: &FoldValue) -> Result<(), NoMemory>
    ensures { IfOk result (λ _. folds.new ≡ with_needed value.now folds.old) }
{
    match value {
        FoldValue::Key(_) => {}
        FoldValue::Fold { kind, field, .. } => need(folds, *kind, field)?,
        FoldValue::Quotient { field, by, .. } => {
            need(folds, FoldKind::Sum, field)?;
            need(folds, FoldKind::Sum, by)?;
        }
    }
    Ok(())
}

/// The folds that the members need, each once. A quotient is not folded: it needs its two sums.
pub fn folds_of(alloc: Global, members: &[FoldMember]) -> Result<Sequence<FieldFold>, NoMemory>
    ensures { IfOk result (λ folds. folds ≡ folds_of members.now) }
{
    let mut folds = Sequence::new(alloc);
    for member in members {
        need_all(&mut folds, &member.value)?;
    }
    Ok(folds)
}

fn source_of(names: &[Text], folds: &[FieldFold], value: &FoldValue) -> Source
    ensures { result ≡ source_of names.now folds.now value.now }
{
    match value {
        FoldValue::Key(name) => Source::Part(name_place(names, name)),
        FoldValue::Fold { kind, field, .. } => Source::Cell(fold_place(folds, *kind, field)),
        FoldValue::Quotient { field, by, .. } => Source::Quotient(Quotient {
            sum: fold_place(folds, FoldKind::Sum, field),
            by: fold_place(folds, FoldKind::Sum, by),
        }),
    }
}

/// The fields of the rows, each with its place among the parts of the key or among the cells of these folds.
pub fn plan_of(
    alloc: Global,
    names: &[Text],
    folds: &[FieldFold],
    members: &[FoldMember],
) -> Result<Sequence<RowField>, NoMemory>
    ensures { IfOk result (λ fields. fields ≡ map (field_of names.now folds.now) members.now) }
{
    let mut fields = Sequence::new(alloc);
    for member in members {
        fields.push(RowField {
            name: member.name.clone()?,
            source: source_of(names, folds, &member.value),
        })?;
    }
    Ok(fields)
}

//! The entries of documents.
ghost use Rattle.std.specs.Prelude.{◌≡◌, IfOk, IfSome, [], map, option_map};
ghost use Rattle.spec_data.specs.Folding.{folded};
ghost use Rattle.raven_value.specs.RowView.{body_of};
ghost use Rattle.raven_value.specs.View.{data_of};
ghost use Rattle.index_tree.specs.Evaluate.{document_of};
ghost use Rattle.index_tree.specs.Meaning.{bound_after, bound_by, entry_of, fields_with, mapped};
ghost use Rattle.map_stage.specs.MappedView.{outcome_view};
ghost use Rattle.map_stage.specs.Reached.{bindings_of, bound_if, from_there};
ghost use Rattle.map_stage.specs.Words.{HasWords, OutcomeHasWords};

use crate::fields::Entry;
use crate::held::Held;
use crate::load::document_of;
use crate::lookup::Lookup;
use crate::mapper::Outcome;
use crate::scene::{Binding, Scene};
use index_tree::{Clause, MapMember, MapQuery};
use raven_base::NoMemory;
use raven_value::{Ids, Row, Value};
use std::alloc::Global;

impl<'a, T: Lookup> Scene<'a, T> {
    fn bind_by(&mut self, clause: &'a Clause, asked: &mut Ids) -> Result<Option<bool>, NoMemory>
        ensures bound { IfOk result (λ goes. record { outcome = option_map (bound_if self.new.bound.items) goes; loads = map folded asked.new } ≡ from_there asked.old (bound_by (T.rows self.old.rows.now) (bindings_of self.old.bound.items) clause.now)) }
        ensures rows { self.new.rows.now ≡ self.old.rows.now }
    {
        match clause {
            Clause::Where(test) => {
                let Some(held) = self.evaluate(test, asked)? else {
                    return Ok(None);
                };
                Ok(Some(held.is_true()))
            }
            Clause::Let { var, value } => {
                let Some(value) = self.evaluate(value, asked)? else {
                    return Ok(None);
                };
                self.bound.push(Binding { name: var, value })?;
                Ok(Some(true))
            }
        }
    }

    /// Takes clauses in order. It gives false if a condition is not true, and nothing if the document fails.
    fn bind(&mut self, clauses: &'a [Clause], asked: &mut Ids) -> Result<Option<bool>, NoMemory>
        ensures bound { IfOk result (λ goes. record { outcome = option_map (bound_if self.new.bound.items) goes; loads = map folded asked.new } ≡ from_there asked.old (bound_after (T.rows self.old.rows.now) (bindings_of self.old.bound.items) clauses.now)) }
        ensures rows { self.new.rows.now ≡ self.old.rows.now }
    {
        for clause in clauses {
            let goes = self.bind_by(clause, asked)?;
            if goes != Some(true) {
                return Ok(goes);
            }
        }
        Ok(Some(true))
    }

    /// The fields of the members, which are computed in their order; or nothing if the document fails.
    fn entry(&self, members: &'a [MapMember], asked: &mut Ids) -> Result<Option<Entry>, NoMemory>
        ensures words { IfOk result (λ entry. IfSome entry HasWords) }
        ensures fields { IfOk result (λ entry. record { outcome = entry; loads = map folded asked.new } ≡ from_there asked.old (fields_with (T.rows self.now.rows.now) (bindings_of self.now.bound.items) [] members.now)) }
    {
        let mut entry = Entry::with_room(self.alloc, members.len())?;
        for member in members {
            let Some(held) = self.evaluate(&member.value, asked)? else {
                return Ok(None);
            };
            entry.put(member.name.clone()?, held.scalar()?)?;
        }
        Ok(Some(entry))
    }
}

// What the map gives for the value of a document. All that is lent has one lifetime, as a scene has it.
fn outcome_on<'a, T: Lookup>(
    alloc: Global,
    query: &'a MapQuery,
    document: &'a Value,
    rows: &'a T,
    asked: &mut Ids,
) -> Result<Outcome, NoMemory>
    ensures words { IfOk result (λ outcome. OutcomeHasWords (outcome_view outcome)) }
    ensures mapped { IfOk result (λ outcome. record { outcome = outcome_view outcome; loads = map folded asked.new } ≡ mapped (from_there asked.old (entry_of query.now (data_of document.now) (T.rows rows.now)))) }
{
    let mut scene = Scene {
        alloc,
        rows,
        bound: Vec::new(alloc),
    };
    scene.bound.push(Binding {
        name: &query.var,
        value: Held::of(document),
    })?;
    let Some(goes) = scene.bind(query.clauses.as_slice(), asked)? else {
        return Ok(Outcome::Failed);
    };
    if !goes {
        return Ok(Outcome::Nothing);
    }
    match scene.entry(query.members.as_slice(), asked)? {
        Some(entry) => Ok(Outcome::Entry(entry)),
        None => Ok(Outcome::Failed),
    }
}

/// What the map gives for a document. The ids that are looked up are added to those asked for before.
pub fn outcome_of<T: Lookup>(
    alloc: Global,
    query: &MapQuery,
    doc: &Row,
    rows: &T,
    asked: &mut Ids,
) -> Result<Outcome, NoMemory>
    ensures words { IfOk result (λ outcome. OutcomeHasWords (outcome_view outcome)) }
    ensures mapped { IfOk result (λ outcome. record { outcome = outcome_view outcome; loads = map folded asked.new } ≡ mapped (from_there asked.old (entry_of query.now (document_of doc.now.body) (T.rows rows.now)))) }
{
    let document = document_of(alloc, &doc.body)?;
    outcome_on(alloc, query, &document, rows, asked)
}

//! What the map of an index has given for a document.
ghost use Rattle.std.specs.Prelude.{◌≡◌, Some, map, option_map};
ghost use Rattle.spec_data.specs.Folding.{folded};
ghost use Rattle.raven_value.specs.ScalarView.{scalar_view};
ghost use Rattle.index_tree.specs.Meaning.{field_named};
ghost use Rattle.map_stage.specs.FieldView.{field_view};
ghost use Rattle.map_stage.specs.MappedView.{mapped_view, outcome_view};
ghost use Rattle.map_stage.specs.Words.{OutcomeHasWords};
ghost use Rattle.index_version.specs.Kept.{entry_given, has_entry, is_entry, is_failure, one_if, outcome_fields};
ghost use Rattle.index_version.specs.Reduced.{fields_given};

use map_stage::{Entry, Mapped, Outcome};
use raven_value::{Id, Ids, Scalar, Text};
use reduce_folds::HasFields;
use std::marker::Model;

/// How many entries there are, and how many failures.
#[derive(Clone, Copy)]
pub struct Tally {
    pub entries: u64,
    pub errors: u64,
}

/// What nothing counts for.
pub const NOTHING: Tally = Tally {
    entries: 0,
    errors: 0,
};

/// The id of a document, and what the map gave for it.
pub struct Given {
    id: Id,
    mapped: Mapped,
}

// Opaque drop: see raven_base.
impl Drop for Given {
    fn drop(self) {
        let Given {
            id: _id,
            mapped: _mapped,
        } = self;
    }
}

impl Model for Given {
    ghost use Rattle.std.specs.Prelude.{refl};
    ghost use Rattle.std.specs.Coded.{coded×, code_by};
    ghost use Rattle.spec_data.specs.Codes.{text_code};
    ghost use Rattle.index_version.specs.Codes.{mapped_code};
    ghost use Rattle.index_version.specs.Kept as kept;

    ghost Value = { kept.Given };

    ghost coded = { kept.given_code };

    ghost use Rattle.map_stage.specs.MappedView.{mapped_view, outcome_view};
    ghost use Rattle.map_stage.specs.Words.{OutcomeHasWords};

    ghost view = { λ a. record { id = a.id; mapped = mapped_view a.mapped } };

    ghost invariant = { λ a. OutcomeHasWords (outcome_view a.mapped.outcome) };
}

impl Given {
    /// What the map gave for the document of this id.
    pub fn of(id: Id, mapped: Mapped) -> Given
        requires words { OutcomeHasWords (mapped_view mapped).outcome }
        ensures { result ≡ record { id = id; mapped = mapped_view mapped } }
    {
        Given { id, mapped }
    }

    /// The id of the document.
    pub fn id(&self) -> &Id
        ensures { result.now ≡ self.now.id }
    {
        &self.id
    }

    /// The ids that were looked up for it.
    pub fn loads(&self) -> &Ids
        ensures { map folded result.now ≡ self.now.mapped.loads }
    {
        &self.mapped.loads
    }

    /// Whether it has an entry.
    pub fn has_entry(&self) -> bool
        ensures entry { result ≡ has_entry self.now.mapped.outcome }
        ensures words { OutcomeHasWords self.now.mapped.outcome }
    {
        matches!(self.mapped.outcome, Outcome::Entry(_))
    }

    /// The fields of its entry, none if it has no entry.
    pub fn fields(&self) -> &[(Text, Scalar)]
        ensures { map field_view result.now ≡ outcome_fields self.now.mapped.outcome }
    {
        match &self.mapped.outcome {
            Outcome::Entry(entry) => entry.as_slice(),
            _ => &[],
        }
    }

    /// Its entry under the id of its document, if it has one.
    pub fn entry(&self) -> Option<(&Id, &Entry)>
        ensures { option_map (λ e. (e.0.now, e.1.now)) result ≡ entry_given self.now }
    {
        match &self.mapped.outcome {
            Outcome::Entry(entry) => Some((&self.id, entry)),
            _ => None,
        }
    }

    /// What it counts for.
    pub fn tally(&self) -> Tally
        ensures entries { result.entries ≡ one_if is_entry (Some self.now) }
        ensures errors { result.errors ≡ one_if is_failure (Some self.now) }
    {
        match self.mapped.outcome {
            Outcome::Entry(_) => Tally {
                entries: 1,
                errors: 0,
            },
            Outcome::Nothing => NOTHING,
            Outcome::Failed => Tally {
                entries: 0,
                errors: 1,
            },
        }
    }
}

/// A document without an entry has no fields.
impl HasFields for Given {
    ghost fields = { fields_given };

    fn field(&self, name: &Text) -> Option<&Scalar> {
        field_in(&self.mapped.outcome, name)
    }
}

fn field_in<'a>(outcome: &'a Outcome, name: &Text) -> Option<&'a Scalar>
    ensures { option_map (λ v. scalar_view v.now) result ≡ field_named name.now (outcome_fields (outcome_view outcome.now)) }
{
    match outcome {
        Outcome::Entry(entry) => entry.get(name.as_str()),
        _ => None,
    }
}

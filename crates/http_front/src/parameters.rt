//! Parameters of queries, and the fields of requests.
ghost use Rattle.std.specs.Prelude.{◌≡◌, IfOk};
ghost use Rattle.std.specs.Cow.{cow_str_bytes};
ghost use Rattle.spec_http.specs.Requests as spec;
ghost use Rattle.doc_txn.specs.CommandView.{expect_view};
ghost use Rattle.raven_request.specs.RequestView.{Reads};

use doc_txn::Expect;
use http_parts::parameter;
use raven_base::NoMemory;
use raven_request::{ReadRefusal, bad_member, id_of, name_of};
use raven_value::{Id, Name, Text};
use std::alloc::Global;
use std::borrow::CowStr;

/// The first parameter of this name.
#[tactic(auto, using(crate::proofs::ParameterLemmas::parameters))]
pub fn parameter_of<'q>(
    alloc: Global,
    name: &str,
    query: &'q str,
) -> Result<CowStr<'q, Global>, ReadRefusal>
    ensures { Reads cow_str_bytes result (spec.parameter_read name.now query.now) }
{
    match parameter(alloc, query, name) {
        Ok(Some(value)) => Ok(value),
        Ok(None) => Err(bad_member(alloc, name)),
        Err(NoMemory) => Err(ReadRefusal::NoMemory),
    }
}

/// The parameter `id`, which has to be an id.
#[tactic(auto, using(raven_request::proofs::Readings::readings))]
pub fn id_in(alloc: Global, query: &str) -> Result<Id, ReadRefusal>
    ensures { Reads (λ id. id) result (spec.id_in query.now) }
{
    let text = parameter_of(alloc, "id", query)?;
    id_of(alloc, text.as_str())
}

/// The parameter `name`, which has to be a name.
#[tactic(auto, using(raven_request::proofs::Readings::readings))]
pub fn name_in(alloc: Global, query: &str) -> Result<Name, ReadRefusal>
    ensures { Reads (λ name. name) result (spec.name_in query.now) }
{
    let text = parameter_of(alloc, "name", query)?;
    name_of(alloc, text.as_str())
}

/// The vector that If-Match states. Without one any version of the document will do.
pub fn expected_by(if_match: &Option<Text>) -> Result<Expect, NoMemory>
    ensures { IfOk result (λ expected. expect_view expected ≡ spec.expected_by if_match.now) }
{
    match if_match {
        Some(vector) => Ok(Expect::Vector(vector.clone()?)),
        None => Ok(Expect::Any),
    }
}

//! Whether two definitions have the same reduce.
ghost use Rattle.std.specs.Prelude.{◌≡◌, ◌↔◌, IsTrue};
ghost use Rattle.index_definition.specs.DefinitionView.{definition_view};
ghost use Rattle.index_lang.specs.Alike.{AreAlike, ReduceAlike};
ghost use Rattle.spec_server.specs.Several.{same_reduce as spec_same_reduce};

use index_definition::{DefBody, Definition};
use index_tree::{ReduceQuery, same_reduce as same_queries};

fn are_alike(a: &Option<ReduceQuery>, b: &Option<ReduceQuery>) -> bool
    ensures { IsTrue result ↔ AreAlike a.now b.now }
{
    match (a, b) {
        (Some(reduce), Some(other)) => same_queries(reduce, other),
        _ => false,
    }
}

fn reduce_alike(a: &DefBody, b: &DefBody) -> bool
    ensures { IsTrue result ↔ ReduceAlike a.now b.now }
{
    match (a, b) {
        (DefBody::Static { reduce, .. }, DefBody::Static { reduce: other, .. }) => {
            are_alike(reduce, other)
        }
        (DefBody::Auto(_), DefBody::Auto(_)) => false,
        (DefBody::Static { .. }, DefBody::Auto(_)) => false,
        (DefBody::Auto(_), DefBody::Static { .. }) => false,
    }
}

/// Whether both definitions have a reduce by a text, and these say the same, however they are spelled. It is false where both have none.
pub fn same_reduce(a: &Definition, b: &Definition) -> bool
    ensures { result ≡ spec_same_reduce (definition_view a.now.body) (definition_view b.now.body) }
{
    reduce_alike(&a.body, &b.body)
}

//! What is known of a definition: whether another one is the same, and what it reads.
ghost use Rattle.std.specs.Prelude.{◌≡◌, ◌↔◌, ◌++◌, ◌∷◌, [], IsTrue, IfOk, OnOk, flat_map, map};
ghost use Rattle.index_tree.specs.Scope as meaning;
ghost use Rattle.index_tree.specs.Definitions.{same_definition};
ghost use Rattle.index_tree.specs.Mapper.{mapper_of, scope_of as model_scope_of};
ghost use Rattle.index_definition.specs.Adding as adding;
ghost use Rattle.index_definition.specs.DefinitionView.{definition_view};
ghost use Rattle.index_definition.specs.Reading as spec;

use crate::among::is_among;
use crate::definition::{DefBody, Definition};
use crate::paths::shape_names;
use crate::shape::Shape;
use index_tree::{
    Clause, Expr, ExprKind, MapMember, MapQuery, ReduceQuery, SameAs, Texts, same_map, same_reduce,
};
use raven_base::NoMemory;
use raven_value::{Members, Paths, Scope, Text, Value};
use std::alloc::Global;

fn same_reduces(a: &Option<ReduceQuery>, b: &Option<ReduceQuery>) -> bool
    ensures { IsTrue result ↔ (a.now ≡ b.now) }
{
    match (a, b) {
        (Some(reduce), Some(other)) => same_reduce(reduce, other),
        (None, None) => true,
        _ => false,
    }
}

fn same_groups(a: &Option<Paths>, b: &Option<Paths>) -> bool
    ensures { IsTrue result ↔ (a.now ≡ b.now) }
{
    match (a, b) {
        (Some(groups), Some(others)) => groups.same_as(others),
        (None, None) => true,
        _ => false,
    }
}

fn same_shapes(a: &Shape, b: &Shape) -> bool
    ensures { IsTrue result ↔ (a.now ≡ b.now) }
{
    a.collection.same_as(&b.collection)
        && same_groups(&a.groups, &b.groups)
        && a.fields.same_as(&b.fields)
}

fn same_bodies(a: &DefBody, b: &DefBody) -> bool
    ensures { IsTrue result ↔ spec.Same a.now b.now }
{
    match (a, b) {
        (
            DefBody::Static { map, reduce, .. },
            DefBody::Static {
                map: other,
                reduce: other_reduce,
                ..
            },
        ) => same_map(map, other) && same_reduces(reduce, other_reduce),
        (DefBody::Auto(shape), DefBody::Auto(other)) => same_shapes(shape, other),
        (DefBody::Static { .. }, DefBody::Auto(_)) => false,
        (DefBody::Auto(_), DefBody::Static { .. }) => false,
    }
}

/// Whether two definitions are the same, whatever their names and their texts.
pub fn same(a: &Definition, b: &Definition) -> bool
    ensures says { IsTrue result ↔ spec.Same a.now.body b.now.body }
    ensures definition { result ≡ same_definition (definition_view a.now.body) (definition_view b.now.body) }
{
    same_bodies(&a.body, &b.body)
}

#[cycle(named)]
fn add_named(expr: &Expr, names: &mut Texts) -> Result<(), NoMemory>
    ensures { OnOk result (names.new ≡ names.old ++ meaning.named_in expr.now) }
{
    match expr.kind() {
        ExprKind::If(test, value, other) => {
            add_named(test, names)?;
            add_named(value, names)?;
            add_named(other, names)
        }
        ExprKind::Binary(_, left, right) => {
            add_named(left, names)?;
            add_named(right, names)
        }
        ExprKind::Unary(_, operand) => add_named(operand, names),
        ExprKind::Dot(holder, _) => add_named(holder, names),
        ExprKind::Load(id, collection) => {
            add_named(id, names)?;
            names.push(collection.clone()?)
        }
        _ => Ok(()),
    }
}

fn add_clause(clause: &Clause, names: &mut Texts) -> Result<(), NoMemory>
    ensures { OnOk result (names.new ≡ names.old ++ meaning.clause_names clause.now) }
{
    match clause {
        Clause::Where(test) => add_named(test, names),
        Clause::Let { value, .. } => add_named(value, names),
    }
}

fn add_clauses(clauses: &[Clause], names: &mut Texts) -> Result<(), NoMemory>
    ensures { OnOk result (names.new ≡ names.old ++ flat_map meaning.clause_names clauses.now) }
{
    for clause in clauses {
        add_clause(clause, names)?;
    }
    Ok(())
}

fn add_members(members: &[MapMember], names: &mut Texts) -> Result<(), NoMemory>
    ensures { OnOk result (names.new ≡ names.old ++ flat_map (λ m. meaning.named_in m.value) members.now) }
{
    for member in members {
        add_named(&member.value, names)?;
    }
    Ok(())
}

fn all_named(alloc: Global, query: &MapQuery) -> Result<Texts, NoMemory>
    ensures { IfOk result (λ names. names ≡ meaning.all_named query.now) }
{
    let mut names = Texts::new(alloc);
    add_clauses(query.clauses.as_slice(), &mut names)?;
    add_members(query.members.as_slice(), &mut names)?;
    Ok(names)
}

// Adds each name that is not there.
fn add_new(scope: &mut Scope, names: &[Text]) -> Result<(), NoMemory>
    ensures { OnOk result (scope.new ≡ adding.with_new scope.old names.now) }
{
    for name in names {
        if !is_among(scope.as_slice(), name) {
            scope.push(name.clone()?)?;
        }
    }
    Ok(())
}

#[tactic(auto, using(crate::proofs::Adding::reads_by))]
fn scope_of(alloc: Global, query: &MapQuery) -> Result<Scope, NoMemory>
    ensures { IfOk result (λ scope. scope ≡ meaning.scope_of query.now) }
{
    let mut scope = scope_alone(alloc, &query.collection)?;
    let names = all_named(alloc, query)?;
    add_new(&mut scope, names.as_slice())?;
    Ok(scope)
}

fn scope_alone(alloc: Global, collection: &Text) -> Result<Scope, NoMemory>
    ensures { IfOk result (λ scope. scope ≡ collection.now ∷ []) }
{
    let mut scope = Scope::new(alloc);
    scope.push(collection.clone()?)?;
    Ok(scope)
}

/// The collections that a definition reads: the mapped one first, and then those that it loads from, each once.
pub fn scope(alloc: Global, definition: &Definition) -> Result<Scope, NoMemory>
    ensures { IfOk result (λ scope. scope ≡ model_scope_of (mapper_of (definition_view definition.now.body))) }
{
    match &definition.body {
        DefBody::Static { map, .. } => scope_of(alloc, map),
        DefBody::Auto(shape) => scope_alone(alloc, &shape.collection),
    }
}

fn map_names(alloc: Global, members: &[MapMember]) -> Result<Texts, NoMemory>
    ensures { IfOk result (λ names. names ≡ map (λ m. m.name) members.now) }
{
    let mut names = Texts::new(alloc);
    for member in members {
        names.push(member.name.clone()?)?;
    }
    Ok(names)
}

fn put_all(alloc: Global, names: &[Text]) -> Result<Members, NoMemory>
    ensures { IfOk result (λ members. members ≡ spec.put_all names.now []) }
{
    let mut members = Members::new(alloc);
    for name in names {
        members.put(name.clone()?, Value::Null)?;
    }
    Ok(members)
}

fn names_of(alloc: Global, members: &[(Text, Value)]) -> Result<Texts, NoMemory>
    ensures { IfOk result (λ names. names ≡ map (λ m. m.0) members.now) }
{
    let mut names = Texts::new(alloc);
    for member in members {
        names.push(member.0.clone()?)?;
    }
    Ok(names)
}

fn in_order(alloc: Global, names: &[Text]) -> Result<Texts, NoMemory>
    ensures { IfOk result (λ sorted. sorted ≡ spec.in_order names.now) }
{
    let members = put_all(alloc, names)?;
    let sorted = names_of(alloc, members.as_slice())?;
    Ok(sorted)
}

fn all_fields(alloc: Global, body: &DefBody) -> Result<Texts, NoMemory>
    ensures { IfOk result (λ names. names ≡ spec.names body.now) }
{
    match body {
        DefBody::Static { map, .. } => map_names(alloc, map.members.as_slice()),
        DefBody::Auto(shape) => shape_names(alloc, shape),
    }
}

/// The names of the fields of a definition's entries, in the order of their bytes, each once.
pub fn fields(alloc: Global, definition: &Definition) -> Result<Texts, NoMemory>
    ensures { IfOk result (λ fields. fields ≡ spec.fields definition.now.body) }
{
    let names = all_fields(alloc, &definition.body)?;
    in_order(alloc, names.as_slice())
}

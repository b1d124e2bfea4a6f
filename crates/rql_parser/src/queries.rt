//! The rules of queries.
ghost use Rattle.std.specs.Prelude.{◌≡◌};
ghost use Rattle.exact_parse.specs.Steps.{Read, head};
ghost use Rattle.spec_query.specs.Query.{is_of_index};
ghost use Rattle.rql_tokens.specs.declared.token.Token.TheVariants as t;
ghost use Rattle.rql_grammar.specs.FieldReading.{added, chain, list};
ghost use Rattle.rql_grammar.specs.QueryReading as spec;
ghost use Rattle.rql_tree.specs.View.{origin_of};
ghost use Rattle.rql_parser.specs.Gives.{Gives, GivesAs};
ghost use Rattle.rql_parser.specs.Parts.{all_clauses, following, grouped, into_query, ordered, rest_of, section_at};

use crate::conditions::condition;
use crate::fields::{field, paths};
use crate::section::{Section, section_of};
use crate::stop::Stop;
use crate::tokens::Tokens;
use raven_value::{Paths, Text};
use rql_tokens::{KeyWord, Token};
use rql_tree::{Column, Columns, Origin, Query, Sort, Sorts};

/// A query and the end.
pub fn query_text(tokens: &mut Tokens<'_>) -> Result<Query, Stop>
    ensures { Gives (spec.query_text tokens.old.count tokens.old.rest.now) result tokens.new.count tokens.new.rest.now }
{
    tokens.mark(&Token::Key(KeyWord::From))?;
    let origin = source(tokens)?;
    let query = clauses(tokens, origin)?;
    tokens.mark(&Token::End)?;
    Ok(query)
}

#[tactic(auto, using(crate::proofs::Rules::sources))]
fn source(tokens: &mut Tokens<'_>) -> Result<Origin, Stop>
    ensures { GivesAs origin_of (spec.one_source tokens.old.count tokens.old.rest.now) result tokens.new.count tokens.new.rest.now }
{
    if let Some(collection) = tokens.collection()? {
        tokens.skip();
        return Ok(Origin::Collection(collection));
    }
    tokens.mark(&Token::Key(KeyWord::Index))?;
    Ok(Origin::Index(tokens.quoted()?))
}

fn clauses(tokens: &mut Tokens<'_>, origin: Origin) -> Result<Query, Stop>
    ensures { Gives (all_clauses (origin_of origin) tokens.old.count tokens.old.rest.now) result tokens.new.count tokens.new.rest.now }
{
    let query = Query {
        origin,
        groups: Paths::new(tokens.alloc),
        cond: None,
        sorts: Sorts::new(tokens.alloc),
        columns: Columns::new(tokens.alloc),
        includes: Paths::new(tokens.alloc),
    };
    further_clauses(tokens, query)
}

// Goes on with the clauses of a query that has none yet.
fn further_clauses(tokens: &mut Tokens<'_>, mut query: Query) -> Result<Query, Stop>
    ensures { Gives (rest_of (record { query = query; passed = 0 }) tokens.old.count tokens.old.rest.now) result tokens.new.count tokens.new.rest.now }
{
    let mut passed = 0;
    while let Some(section) = next_section(tokens, &query, passed) {
        let rank = section.rank();
        if rank <= passed {
            return Err(Stop::ClauseOrder);
        }
        tokens.skip();
        query = clause(tokens, query, section)?;
        passed = rank;
    }
    Ok(query)
}

// The clause that comes next, if it may follow those of the query, the last of which has this rank.
fn next_section(tokens: &Tokens<'_>, query: &Query, passed: usize) -> Option<Section>
    ensures { result ≡ following (is_of_index query.now) passed (section_at (head tokens.now.rest.now)) }
{
    let section = section_of(&tokens.rest.first()?.token)?;
    if matches!(query.origin, Origin::Index(_)) && passed == 0 && section.rank() == 1 {
        return None;
    }
    Some(section)
}

// The query with the clause, whose first word has been passed.
#[tactic(auto, unfolding(rql_grammar::specs::QueryReading::grouping, rql_grammar::specs::QueryReading::filter, rql_grammar::specs::QueryReading::ordering, rql_grammar::specs::QueryReading::selecting, rql_grammar::specs::QueryReading::including))]
fn clause(tokens: &mut Tokens<'_>, query: Query, section: Section) -> Result<Query, Stop>
    ensures { Gives (into_query query section tokens.old.count tokens.old.rest.now) result tokens.new.count tokens.new.rest.now }
{
    match section {
        Section::Group => {
            let groups = grouping(tokens)?;
            Ok(Query { groups, ..query })
        }
        Section::Where => {
            let cond = condition(tokens)?;
            Ok(Query {
                cond: Some(cond),
                ..query
            })
        }
        Section::Order => {
            let sorts = ordering(tokens)?;
            Ok(Query { sorts, ..query })
        }
        Section::Select => {
            let columns = columns(tokens)?;
            Ok(Query { columns, ..query })
        }
        Section::Include => {
            let includes = paths(tokens)?;
            Ok(Query { includes, ..query })
        }
    }
}

// What follows `group`.
fn grouping(tokens: &mut Tokens<'_>) -> Result<Paths, Stop>
    ensures { Gives (grouped tokens.old.count tokens.old.rest.now) result tokens.new.count tokens.new.rest.now }
{
    tokens.mark(&Token::Key(KeyWord::By))?;
    paths(tokens)
}

// What follows `order`.
fn ordering(tokens: &mut Tokens<'_>) -> Result<Sorts, Stop>
    ensures { Gives (ordered tokens.old.count tokens.old.rest.now) result tokens.new.count tokens.new.rest.now }
{
    tokens.mark(&Token::Key(KeyWord::By))?;
    sorts(tokens)
}

fn sorts(tokens: &mut Tokens<'_>) -> Result<Sorts, Stop>
    ensures { Gives (list t.Comma spec.one_sort tokens.old.count tokens.old.rest.now) result tokens.new.count tokens.new.rest.now }
{
    let first = sort(tokens)?;
    let mut sorts = Sorts::new(tokens.alloc);
    sorts.push(first)?;
    further_sorts(tokens, sorts)
}

// Goes on with the keys behind commas.
fn further_sorts(tokens: &mut Tokens<'_>, mut sorts: Sorts) -> Result<Sorts, Stop>
    ensures { Gives (chain t.Comma spec.one_sort added sorts tokens.old.count tokens.old.rest.now) result tokens.new.count tokens.new.rest.now }
{
    while tokens.is_at(&Token::Comma) {
        tokens.skip();
        let sort = sort(tokens)?;
        sorts.push(sort)?;
    }
    Ok(sorts)
}

#[tactic(auto, unfolding(rql_grammar::specs::QueryReading::one_sort))]
fn sort(tokens: &mut Tokens<'_>) -> Result<Sort, Stop>
    ensures { Gives (spec.one_sort tokens.old.count tokens.old.rest.now) result tokens.new.count tokens.new.rest.now }
{
    let field = field(tokens)?;
    let long = is_long(tokens)?;
    let desc = is_desc(tokens);
    Ok(Sort { field, long, desc })
}

// Whether values are compared as numbers.
#[tactic(auto, unfolding(rql_grammar::specs::QueryReading::long_if_any))]
fn is_long(tokens: &mut Tokens<'_>) -> Result<bool, Stop>
    ensures { Gives (spec.long_if_any tokens.old.count tokens.old.rest.now) result tokens.new.count tokens.new.rest.now }
{
    if !tokens.is_at(&Token::Key(KeyWord::As)) {
        return Ok(false);
    }
    tokens.skip();
    tokens.long()
}

// Whether the greatest value comes first.
#[tactic(auto, using(crate::proofs::Rules::directions))]
fn is_desc(tokens: &mut Tokens<'_>) -> bool
    ensures { spec.desc_if_any tokens.old.count tokens.old.rest.now ≡ Read result tokens.new.count tokens.new.rest.now }
{
    match tokens.desc() {
        Some(desc) => {
            tokens.skip();
            desc
        }
        None => false,
    }
}

fn columns(tokens: &mut Tokens<'_>) -> Result<Columns, Stop>
    ensures { Gives (list t.Comma spec.one_column tokens.old.count tokens.old.rest.now) result tokens.new.count tokens.new.rest.now }
{
    let first = column(tokens)?;
    let mut columns = Columns::new(tokens.alloc);
    columns.push(first)?;
    further_columns(tokens, columns)
}

// Goes on with the columns behind commas.
fn further_columns(tokens: &mut Tokens<'_>, mut columns: Columns) -> Result<Columns, Stop>
    ensures { Gives (chain t.Comma spec.one_column added columns tokens.old.count tokens.old.rest.now) result tokens.new.count tokens.new.rest.now }
{
    while tokens.is_at(&Token::Comma) {
        tokens.skip();
        let column = column(tokens)?;
        columns.push(column)?;
    }
    Ok(columns)
}

#[tactic(auto, unfolding(rql_grammar::specs::QueryReading::one_column))]
fn column(tokens: &mut Tokens<'_>) -> Result<Column, Stop>
    ensures { Gives (spec.one_column tokens.old.count tokens.old.rest.now) result tokens.new.count tokens.new.rest.now }
{
    let field = field(tokens)?;
    let name = name_if_any(tokens)?;
    Ok(Column { field, name })
}

// The name that a column is given, if it is given one.
#[tactic(auto, unfolding(rql_grammar::specs::QueryReading::name_if_any))]
fn name_if_any(tokens: &mut Tokens<'_>) -> Result<Option<Text>, Stop>
    ensures { Gives (spec.name_if_any tokens.old.count tokens.old.rest.now) result tokens.new.count tokens.new.rest.now }
{
    if !tokens.is_at(&Token::Key(KeyWord::As)) {
        return Ok(None);
    }
    tokens.skip();
    Ok(Some(tokens.name()?))
}

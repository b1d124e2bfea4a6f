//! What requests ask.
ghost use Rattle.std.specs.Prelude.{IfOk, codes};
ghost use Rattle.spec_server.specs.Requests.{Do};
ghost use Rattle.spec_server.specs.WellFormed.{IsWellFormed};
ghost use Rattle.spec_http.specs.Requests as spec;
ghost use Rattle.spec_http.specs.Requests.{asked_over_http};
ghost use Rattle.raven_request.specs.RequestRead.{Asks};
ghost use Rattle.raven_request.specs.RequestView.{Reads, request_view};
ghost use Rattle.http_front.specs.Asked.{AsksOverHttp};

use crate::indexes::define_index;
use crate::parameters::{expected_by, id_in, name_in, parameter_of};
use crate::refusal::HttpRefusal;
use http_parts::{Route, Routes};
use http_read::HttpRequest;
use raven_request::{ReadRefusal, Request, bulk_of, json_of, object_of, query_of, query_of_json};
use std::alloc::Global;

// The JSON is read first, then the id, and then the body has to be an object.
#[tactic(auto, using(raven_request::proofs::Readings::readings))]
fn put_document(alloc: Global, request: &HttpRequest) -> Result<Request, ReadRefusal>
    ensures { Reads request_view result (spec.put_document request.now.query request.now.body request.now.if_match) }
{
    let value = json_of(alloc, request.body.as_slice())?;
    let id = id_in(alloc, request.query.as_str())?;
    let expected = expected_by(&request.if_match)?;
    let body = object_of(alloc, "body", Some(value))?;
    Ok(Request::Put { id, expected, body })
}

#[tactic(auto, using(raven_request::proofs::Readings::readings))]
fn delete_document(alloc: Global, request: &HttpRequest) -> Result<Request, ReadRefusal>
    ensures { Reads request_view result (spec.delete_document request.now.query request.now.if_match) }
{
    let id = id_in(alloc, request.query.as_str())?;
    let expected = expected_by(&request.if_match)?;
    Ok(Request::Delete { id, expected })
}

#[tactic(auto, using(raven_request::proofs::Readings::readings))]
fn get_document(alloc: Global, query: &str) -> Result<Request, ReadRefusal>
    ensures { Reads request_view result (spec.get_document query.now) }
{
    let id = id_in(alloc, query)?;
    Ok(Request::Get { id })
}

#[tactic(auto, using(raven_request::proofs::Readings::readings))]
fn remove_index(alloc: Global, query: &str) -> Result<Request, ReadRefusal>
    ensures { Reads request_view result (spec.remove_index query.now) }
{
    let name = name_in(alloc, query)?;
    Ok(Request::Remove { name })
}

#[tactic(auto, using(raven_request::proofs::Readings::readings))]
fn staleness(alloc: Global, query: &str) -> Result<Request, ReadRefusal>
    ensures { Reads request_view result (spec.staleness query.now) }
{
    let name = name_in(alloc, query)?;
    Ok(Request::Stale { name, cutoff: None })
}

// The query is the parameter `query`.
#[tactic(auto, using(crate::proofs::Asking::asked))]
fn query_by_text(alloc: Global, query: &str) -> Result<Request, ReadRefusal>
    ensures { Asks (spec.query_by (spec.parameter_read (codes "query") query.now)) result }
{
    let text = parameter_of(alloc, "query", query)?;
    query_of(alloc, text.as_str())
}

#[tactic(auto, using(crate::proofs::Asking::asked))]
fn asked_on(alloc: Global, route: Route, request: &HttpRequest) -> Result<Request, ReadRefusal>
    ensures { Asks (spec.asked_on route request.now) result }
{
    let query = request.query.as_str();
    match route {
        Route::PutDocument => put_document(alloc, request),
        Route::DeleteDocument => delete_document(alloc, request),
        Route::GetDocument => get_document(alloc, query),
        Route::Bulk => bulk_of(alloc, request.body.as_slice()),
        Route::QueryByText => query_by_text(alloc, query),
        Route::Query => query_of_json(alloc, request.body.as_slice()),
        Route::DefineIndex => define_index(alloc, request.body.as_slice()),
        Route::ListIndexes => Ok(Request::Indexes),
        Route::RemoveIndex => remove_index(alloc, query),
        Route::Staleness => staleness(alloc, query),
        Route::Stats => Ok(Request::Stats),
    }
}

/// What a request asks of the database of this name. Its route is tested first, then the name, then what the route needs. A request that is
/// given can be asked of a desk.
#[tactic(auto, using(crate::proofs::Routed::routed))]
pub fn asked(
    alloc: Global,
    routes: &Routes,
    database: &str,
    request: &HttpRequest,
) -> Result<Request, HttpRefusal>
    ensures asked { AsksOverHttp (asked_over_http database.now request.now) result }
    ensures formed { IfOk result (λ given. IsWellFormed (Do (request_view given))) }
{
    let Some((name, route)) = routes.find(request.method.as_str(), request.path.as_str()) else {
        return Err(HttpRefusal::NoRoute);
    };
    if name != database {
        return Err(HttpRefusal::NoDatabase);
    }
    match asked_on(alloc, route, request) {
        Ok(request) => Ok(request),
        Err(refusal) => Err(HttpRefusal::Unread(refusal)),
    }
}

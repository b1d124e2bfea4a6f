//! The pages of a database.
ghost use Rattle.std.specs.Prelude.{◌≡◌};
ghost use Rattle.http_parts.specs.Pages.{text_of};
ghost use Rattle.http_parts.specs.Routes as spec;

use crate::route::Route;

/// A page of a database. Each path that has routes names one.
#[derive(Clone, Copy, Debug, PartialEq, Eq)]
pub(crate) enum Page {
    IndexAdmin,
    BulkDocuments,
    Documents,
    Staleness,
    Indexes,
    Queries,
    Stats,
}

impl Page {
    /// The route of this method on the page.
    pub(crate) fn route(self, method: &str) -> Option<Route>
        ensures { result ≡ spec.route_of method.now (text_of self) }
    {
        match (self, method) {
            (Page::Documents, "GET") => Some(Route::GetDocument),
            (Page::Documents, "PUT") => Some(Route::PutDocument),
            (Page::Documents, "DELETE") => Some(Route::DeleteDocument),
            (Page::BulkDocuments, "POST") => Some(Route::Bulk),
            (Page::Queries, "GET") => Some(Route::QueryByText),
            (Page::Queries, "POST") => Some(Route::Query),
            (Page::IndexAdmin, "PUT") => Some(Route::DefineIndex),
            (Page::Indexes, "GET") => Some(Route::ListIndexes),
            (Page::Indexes, "DELETE") => Some(Route::RemoveIndex),
            (Page::Staleness, "GET") => Some(Route::Staleness),
            (Page::Stats, "GET") => Some(Route::Stats),
            _ => None,
        }
    }
}

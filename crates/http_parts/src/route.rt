//! The routes of a database.

/// What a method asks of a page of a database. The paths here are those after its name.
#[derive(Clone, Copy, Debug, PartialEq, Eq)]
pub enum Route {
    /// `PUT /docs`
    PutDocument,

    /// `DELETE /docs`
    DeleteDocument,

    /// `GET /docs`
    GetDocument,

    /// `POST /bulk_docs`
    Bulk,

    /// `GET /queries`: the query is a parameter.
    QueryByText,

    /// `POST /queries`: the query is in the body.
    Query,

    /// `PUT /admin/indexes`
    DefineIndex,

    /// `GET /indexes`
    ListIndexes,

    /// `DELETE /indexes`
    RemoveIndex,

    /// `GET /indexes/staleness`
    Staleness,

    /// `GET /stats`
    Stats,
}

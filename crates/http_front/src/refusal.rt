//! Why a request asks nothing of the database.
use raven_request::ReadRefusal;
use thiserror::Error;

/// Why a request asks nothing of the database.
#[derive(Debug, Drop, Error)]
pub enum HttpRefusal {
    /// The path is not known, or not with this method.
    #[error("the path and the method are not known")]
    NoRoute,

    /// The path names another database.
    #[error("the path names another database")]
    NoDatabase,

    /// The parameters or the body are refused, or it ran out of memory.
    #[error("{0}")]
    Unread(ReadRefusal),
}

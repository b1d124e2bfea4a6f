//! The parts of HTTP that know nothing of a database: which route a method and a path are, the parameters of a query, and the
//! bytes of a response.
#![tactic(auto)]

mod page;
mod parameters;
mod responses;
mod route;
mod routes;

pub use parameters::parameter;
pub use responses::response;
pub use route::Route;
pub use routes::Routes;

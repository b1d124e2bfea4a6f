//! The world: a store with its indexes, of which each change makes a new one and leaves the old one.
#![tactic(auto)]

mod clean;
mod define;
mod make;
mod naming;
mod opening;
mod publish;
mod pump;
mod rewrite;
mod switch;
mod world;
mod write;

pub use clean::Cleaning;
pub use doc_store::OpenFault;
pub use publish::{Batch, PublishRefusal};
pub use raven_reply::{
    BulkResult, BulkResults, IndexNames, Listing, Listings, Pumping, Pumpings, Reply, reply_text,
};
pub use switch::Taken;
pub use world::{Change, Made, World, WorldFault};

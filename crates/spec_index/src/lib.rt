//! Definitions of indexes: what one has recorded, how a batch advances it, which serves a name, which is chosen for a query,
//! and what a query finds.
#![tactic(auto)]

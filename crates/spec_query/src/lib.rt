//! Definitions of queries: what the text of one says, how its parameters are bound and why it is refused, and what it finds.
#![tactic(auto)]

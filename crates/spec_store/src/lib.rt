//! Definitions of stores: their rows, what a transaction writes, what later stores keep, and which stored rows are valid.
#![tactic(auto)]

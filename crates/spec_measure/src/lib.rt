//! Definitions of the command `measure`: the orders that a seed draws, what is asked of the server with them, the summary, and the
//! arguments.
#![tactic(auto)]

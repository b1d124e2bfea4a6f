//! Definitions of the server: the machine that answers one request after another, the lines of a script, the replies, the arguments,
//! what stored rows open, and what holds of every world.
#![tactic(auto)]

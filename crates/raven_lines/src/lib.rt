//! What a line of a script is read as: the definitions for all that reads lines, and no code.
#![tactic(auto)]

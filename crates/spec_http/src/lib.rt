//! Definitions of the server over HTTP: what a request asks of a database, and what is answered.
#![tactic(auto)]

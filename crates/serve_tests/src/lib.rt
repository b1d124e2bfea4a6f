//! Tests of the server with threads. Their expected values were worked out from the rules of docs/http.md and docs/serving.md.
#![tactic(auto)]

#[cfg(test)]
mod conn;
#[cfg(test)]
mod door;
#[cfg(test)]
mod serving;
#[cfg(test)]
mod stage;
#[cfg(test)]
mod waiting;

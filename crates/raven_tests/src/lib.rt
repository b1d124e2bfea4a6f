//! Tests of public calls that no script of the program reaches. Their expected values were worked out from the rules.
#![tactic(auto)]

#[cfg(test)]
mod batches;
#[cfg(test)]
mod crew;
#[cfg(test)]
mod job;
#[cfg(test)]
mod keepers;
#[cfg(test)]
mod list;
#[cfg(test)]
mod pages;
#[cfg(test)]
mod replies;
#[cfg(test)]
mod rising;
#[cfg(test)]
mod sharing;
#[cfg(test)]
mod shift;
#[cfg(test)]
mod stores;
#[cfg(test)]
mod switches;
#[cfg(test)]
mod tally;
#[cfg(test)]
mod trees;
#[cfg(test)]
mod turns;

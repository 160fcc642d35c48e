//! Tests of a market's cell: calls of the step crates by their own names beside what rows come to, and what a row
//! leaves as it was.
#![tactic(auto)]

#[cfg(test)]
mod acting;
#[cfg(test)]
mod calls;
#[cfg(test)]
mod direct;
#[cfg(test)]
mod doing;
#[cfg(test)]
mod done;
#[cfg(test)]
mod exchange;
#[cfg(test)]
mod making;
#[cfg(test)]
mod nodes;
#[cfg(test)]
mod posting;
#[cfg(test)]
mod refused;
#[cfg(test)]
mod wallets;
#[cfg(test)]
mod words;

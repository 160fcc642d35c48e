//! Tests of what no clause and no text of the built program shows: words and rows by themselves, sides and rings,
//! threads that take turns, a market that pays at once, and a row by itself.
#![tactic(auto)]

#[cfg(test)]
mod addresses;
#[cfg(test)]
mod bare;
#[cfg(test)]
mod beside;
#[cfg(test)]
mod door;
#[cfg(test)]
mod ends;
#[cfg(test)]
mod fees;
#[cfg(test)]
mod gate;
#[cfg(test)]
mod jobs;
#[cfg(test)]
mod list_side;
#[cfg(test)]
mod locks;
#[cfg(test)]
mod ring;
#[cfg(test)]
mod rows;
#[cfg(test)]
mod slab_side;
#[cfg(test)]
mod turns;
#[cfg(test)]
mod words;

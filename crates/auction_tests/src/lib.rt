//! Tests of awards, logs, the clock, caps and the desk through their own types, and of books, choices, tables of greatest
//! value, values without a winner, blocking coalitions, slots, weights, edits and printed fractions.
#![tactic(auto)]

#[cfg(test)]
mod awards;
#[cfg(test)]
mod books;
#[cfg(test)]
mod caps;
#[cfg(test)]
mod choosing;
#[cfg(test)]
mod clocks;
#[cfg(test)]
mod coalitions;
#[cfg(test)]
mod desks;
#[cfg(test)]
mod edits;
#[cfg(test)]
mod fractions;
#[cfg(test)]
mod logs;
#[cfg(test)]
mod reviews;
#[cfg(test)]
mod samples;
#[cfg(test)]
mod slots;
#[cfg(test)]
mod tables;
#[cfg(test)]
mod values_without;
#[cfg(test)]
mod weights;

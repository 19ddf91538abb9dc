//! Tests of certificates of books and of placements: their texts, their check whole and in pieces, and the prices that they
//! state.
#![tactic(auto)]

#[cfg(test)]
mod checks;
#[cfg(test)]
mod pieces;
#[cfg(test)]
mod place_texts;
#[cfg(test)]
mod places;
#[cfg(test)]
mod prices;
#[cfg(test)]
mod read_texts;
#[cfg(test)]
mod samples;
#[cfg(test)]
mod streams;
#[cfg(test)]
mod written_texts;

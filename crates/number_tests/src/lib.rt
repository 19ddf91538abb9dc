//! Tests of the base crates: wide and far numbers, equations, lines and their fields, packages, and files.
#![tactic(auto)]

#[cfg(test)]
mod edge;
#[cfg(test)]
mod equations;
#[cfg(test)]
mod far_numbers;
#[cfg(test)]
mod fields;
#[cfg(test)]
mod files;
#[cfg(test)]
mod line_lengths;
#[cfg(test)]
mod packages;
#[cfg(test)]
mod wide_numbers;

//! Tests of the top call over files in memory: each fault of a file and of the output, and rooms that are taken beforehand. The
//! winning choice is compared with a listing of all choices.
#![tactic(auto)]

#[cfg(test)]
mod clean;
#[cfg(test)]
mod every_call;
#[cfg(test)]
mod fault;
#[cfg(test)]
mod listing;
#[cfg(test)]
mod make;
#[cfg(test)]
mod samples;
#[cfg(test)]
mod settings;

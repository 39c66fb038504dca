//! Tests of what only a call can show. What a script shows stands in cases/, with the replies that
//! are due.
#![tactic(auto)]

#[cfg(test)]
mod beside;
#[cfg(test)]
mod cells;
#[cfg(test)]
mod deciders;
#[cfg(test)]
mod desk;
#[cfg(test)]
mod files;
#[cfg(test)]
mod policies;
#[cfg(test)]
mod same;
#[cfg(test)]
mod sectors;
#[cfg(test)]
mod shapes;
#[cfg(test)]
mod views;
#[cfg(test)]
mod words;

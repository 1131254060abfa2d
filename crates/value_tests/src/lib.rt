//! Tests of statements, fields, frames, tables, images and copies, over their public calls.
#![tactic(auto)]

#[cfg(test)]
mod copies;
#[cfg(test)]
mod fields;
#[cfg(test)]
mod frames;
#[cfg(test)]
mod images;
#[cfg(test)]
mod samples;
#[cfg(test)]
mod statements;
#[cfg(test)]
mod tables;
#[cfg(test)]
mod tellings;

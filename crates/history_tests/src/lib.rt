//! Tests of histories' lines, written and read, of links and merges, and of what the coordinator, a manager and a resource
//! answer that no scenario asks, over their public calls.
#![tactic(auto)]

#[cfg(test)]
mod coordinator;
#[cfg(test)]
mod counted;
#[cfg(test)]
mod errors;
#[cfg(test)]
mod lines;
#[cfg(test)]
mod links;
#[cfg(test)]
mod manager;
#[cfg(test)]
mod reading;
#[cfg(test)]
mod resource;
#[cfg(test)]
mod served;
#[cfg(test)]
mod steps;

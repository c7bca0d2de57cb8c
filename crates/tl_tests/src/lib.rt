//! Tests of calls that no file of trials makes: values made in code, readers and writers that fail, inputs of many lines,
//! and refused memory.
#![tactic(auto)]

#[cfg(test)]
mod accesses;
#[cfg(test)]
mod agents;
#[cfg(test)]
mod beats;
#[cfg(test)]
mod bursts;
#[cfg(test)]
mod bytes;
#[cfg(test)]
mod devices;
#[cfg(test)]
mod events;
#[cfg(test)]
mod expect;
#[cfg(test)]
mod headers;
#[cfg(test)]
mod large;
#[cfg(test)]
mod liberties;
#[cfg(test)]
mod monitors;
#[cfg(test)]
mod outcomes;
#[cfg(test)]
mod params;
#[cfg(test)]
mod performs;
#[cfg(test)]
mod wide;

//! The adapters of op_edge over real things of the system.
#![tactic(auto)]

#[cfg(test)]
mod copies;
#[cfg(test)]
mod edges;
#[cfg(test)]
mod limits;
#[cfg(test)]
mod streams;

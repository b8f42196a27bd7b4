//! A node over two disks in memory that serves over a net and a clock in memory, a cluster over a spawner,
//! and runs of the plain program: tests.
#![tactic(auto)]

#[cfg(test)]
mod alone;
#[cfg(test)]
mod clusters;
#[cfg(test)]
mod commands;
#[cfg(test)]
mod disks;
#[cfg(test)]
mod ends;
#[cfg(test)]
mod fates;
#[cfg(test)]
mod groups;
#[cfg(test)]
mod malformed;
#[cfg(test)]
mod queues;
#[cfg(test)]
mod reads;
#[cfg(test)]
mod requests;
#[cfg(test)]
mod room;
#[cfg(test)]
mod rows;
#[cfg(test)]
mod scripts;
#[cfg(test)]
mod strangers;
#[cfg(test)]
mod trimming;

//! Openings of areas that are new, old, damaged or cut short, over disks in memory; mirrors, and disks that
//! share a power switch.
#![tactic(auto)]

#[cfg(test)]
mod areas;
#[cfg(test)]
mod boxes;
#[cfg(test)]
mod bytes;
#[cfg(test)]
mod mirror_stops;
#[cfg(test)]
mod mirrors;
#[cfg(test)]
mod openings;
#[cfg(test)]
mod powers;
#[cfg(test)]
mod stops;
#[cfg(test)]
mod stores;

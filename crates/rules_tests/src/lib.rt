//! Tests of a newsroom's rules: what only a call shows. Tables at their limits, blocks in their order, what no list of entries
//! gives but a call may, states, moments, feeds, and how long a drill is.
//!
//! Worked rows of commands, of who is given what, and of the clocks of routing are lines of `newsroom_rows`.
#![tactic(auto)]

#[cfg(test)]
mod blocks;
#[cfg(test)]
mod desks;
#[cfg(test)]
mod drills;
#[cfg(test)]
mod dues;
#[cfg(test)]
mod feeds;
#[cfg(test)]
mod limits;
#[cfg(test)]
mod moments;
#[cfg(test)]
mod routes;
#[cfg(test)]
mod states;
#[cfg(test)]
mod tables;

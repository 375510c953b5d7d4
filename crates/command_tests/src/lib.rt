//! Commands over wires, keepers and dials in memory: faults one by one, cuts, and what connections leave. What the program shows of a
//! whole session is among the acceptance tests.
#![tactic(auto)]

#[cfg(test)]
mod caching;
#[cfg(test)]
mod commands;
#[cfg(test)]
mod connections;
#[cfg(test)]
mod cuts;
#[cfg(test)]
mod faults;
#[cfg(test)]
mod relaying;

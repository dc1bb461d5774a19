//! Runs in threads: guests whose threads must overlap, or meet.
#![tactic(auto)]

#[cfg(test)]
mod counts;
#[cfg(test)]
mod gates;
#[cfg(test)]
mod guests;
#[cfg(test)]
mod runs;
#[cfg(test)]
mod words;
#[cfg(test)]
mod workloads;

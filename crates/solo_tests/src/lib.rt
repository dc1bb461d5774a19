//! Runs of whole crews: several vCPUs, a rendezvous and a disk.
#![tactic(auto)]

#[cfg(test)]
mod bed;
#[cfg(test)]
mod guest;
#[cfg(test)]
mod runs;
#[cfg(test)]
mod workers;

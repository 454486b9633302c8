//! Trials of the station over crafted shelves and over devices that fail or stop: what it prints, and what is then on
//! the shelf, for every place at which a device may fail.
#![tactic(auto)]

#[cfg(test)]
mod crafted;
#[cfg(test)]
mod failing;
#[cfg(test)]
mod jobs;
#[cfg(test)]
mod readers;
#[cfg(test)]
mod refused;
#[cfg(test)]
mod shown;
#[cfg(test)]
mod stops;
#[cfg(test)]
mod trouble;
#[cfg(test)]
mod versions;

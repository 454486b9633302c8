//! Trials of the station over symbols, test streams and the pictures and signals that are made of a shelf.
#![tactic(auto)]

#[cfg(test)]
mod assembled;
#[cfg(test)]
mod bodies;
#[cfg(test)]
mod images;
#[cfg(test)]
mod made;
#[cfg(test)]
mod recording;
#[cfg(test)]
mod symbols;
#[cfg(test)]
mod transmit;
#[cfg(test)]
mod trial;

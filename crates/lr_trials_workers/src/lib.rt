//! Trials of the station with workers: what several threads print and shelve is what one does, and they do meet; and
//! several recordings onto one shelf.
#![tactic(auto)]

#[cfg(test)]
mod alike;
#[cfg(test)]
mod bundles;
#[cfg(test)]
mod calls;
#[cfg(test)]
mod failing;
#[cfg(test)]
mod meeting;
#[cfg(test)]
mod noise;
#[cfg(test)]
mod rendering;

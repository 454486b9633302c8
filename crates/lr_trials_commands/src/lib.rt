//! Trials of the commands on a shelf's entries, and of images in strips, over the public calls alone.
#![tactic(auto)]

#[cfg(test)]
mod calls;
#[cfg(test)]
mod claims;
#[cfg(test)]
mod entries;
#[cfg(test)]
mod headers;
#[cfg(test)]
mod image_files;
#[cfg(test)]
mod listed;
#[cfg(test)]
mod pictures;
#[cfg(test)]
mod rendered;
#[cfg(test)]
mod repacks;
#[cfg(test)]
mod stops;
#[cfg(test)]
mod strips;

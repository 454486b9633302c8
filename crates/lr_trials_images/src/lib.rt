//! Trials of coded lines, of headers, images and their segments, and of files that are coded anew, over the public
//! calls alone.
#![tactic(auto)]

#[cfg(test)]
mod bits;
#[cfg(test)]
mod headers;
#[cfg(test)]
mod images;
#[cfg(test)]
mod lines;
#[cfg(test)]
mod pictures;
#[cfg(test)]
mod recoded_files;
#[cfg(test)]
mod recoded_lines;
#[cfg(test)]
mod segments;

//! What no clause says of images, minidumps, partitions and saving, tried by examples: files and header pages by their bytes,
//! printed refusals, and the outside in memory. They stand here, so that the code of those crates is proved once.
#![tactic(auto)]

#[cfg(test)]
mod bits;
#[cfg(test)]
mod generated;
#[cfg(test)]
mod header_pages;
#[cfg(test)]
mod image_files;
#[cfg(test)]
mod images;
#[cfg(test)]
mod limits;
#[cfg(test)]
mod marked;
#[cfg(test)]
mod minidumps;
#[cfg(test)]
mod outside;
#[cfg(test)]
mod partitions;
#[cfg(test)]
mod saves;
#[cfg(test)]
mod sections;
#[cfg(test)]
mod texts;
#[cfg(test)]
mod verdicts;

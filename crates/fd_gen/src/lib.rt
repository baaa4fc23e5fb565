//! Machine images made from an architecture and a number: page tables, data whose words tell where they stand, windows
//! and texts, from some hundred kilobytes up to 64 MiB. They stand in for the memory of a real machine in tests and in
//! commands. Which image a number has is this project's own; its page table entries are of the architectures' forms.
#![tactic(auto)]

mod data;
mod entries;
mod image;
mod layout;
mod ranges;
mod segment;
mod tables;
mod texts;

pub use image::make;

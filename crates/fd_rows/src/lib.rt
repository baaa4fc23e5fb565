//! The rows that the program is worked through by: words, what is printed, the status and what stands afterwards, over
//! the outside in memory. There is nothing here but tests; what all words do is in the contract of `crashway`.
#![tactic(auto)]

#[cfg(test)]
mod crowded;
#[cfg(test)]
mod cuts;
#[cfg(test)]
mod drills;
#[cfg(test)]
mod dumps;
#[cfg(test)]
mod faults;
#[cfg(test)]
mod fields;
#[cfg(test)]
mod image_files;
#[cfg(test)]
mod images;
#[cfg(test)]
mod network_faults;
#[cfg(test)]
mod networks;
#[cfg(test)]
mod no_net;
#[cfg(test)]
mod partitions;
#[cfg(test)]
mod reads;
#[cfg(test)]
mod replay;
#[cfg(test)]
mod saves;
#[cfg(test)]
mod stands;
#[cfg(test)]
mod verdicts;
#[cfg(test)]
mod versions;
#[cfg(test)]
mod walks;

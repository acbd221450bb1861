//! Tests of the parts that the service is made of, of objects and directories with their handles, and of names and
//! connections, by the public calls of each crate: with ample memory, what they answer at the edges, and devices whose
//! calls fail.
#![tactic(auto)]

#[cfg(test)]
mod boxes;
#[cfg(test)]
mod chains;
#[cfg(test)]
mod chance;
#[cfg(test)]
mod connections;
#[cfg(test)]
mod devices;
#[cfg(test)]
mod names;
#[cfg(test)]
mod objects;
#[cfg(test)]
mod queues;
#[cfg(test)]
mod replies;
#[cfg(test)]
mod samples;
#[cfg(test)]
mod servers;
#[cfg(test)]
mod steps;
#[cfg(test)]
mod subscribers;
#[cfg(test)]
mod tables;
#[cfg(test)]
mod texts;
#[cfg(test)]
mod topic_kinds;
#[cfg(test)]
mod trees;
#[cfg(test)]
mod values;

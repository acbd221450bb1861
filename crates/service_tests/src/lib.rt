//! Tests of the service: its requests over the tables, the engine's calls, how much it keeps and owes, full directories,
//! streams of frames, what images restore and save, books, and workers with the sessions that they serve.
#![tactic(auto)]

#[cfg(test)]
mod books;
#[cfg(test)]
mod calls;
#[cfg(test)]
mod closes;
#[cfg(test)]
mod filing;
#[cfg(test)]
mod frames;
#[cfg(test)]
mod gates;
#[cfg(test)]
mod histories;
#[cfg(test)]
mod image_lines;
#[cfg(test)]
mod images;
#[cfg(test)]
mod opens;
#[cfg(test)]
mod persisting;
#[cfg(test)]
mod private;
#[cfg(test)]
mod restores;
#[cfg(test)]
mod script_lines;
#[cfg(test)]
mod scripts;
#[cfg(test)]
mod sessions;
#[cfg(test)]
mod settlings;
#[cfg(test)]
mod state_samples;
#[cfg(test)]
mod states;

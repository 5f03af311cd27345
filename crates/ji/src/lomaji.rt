// What `lomaji.rs` does, a file for each job.
pub mod dot;
pub mod keys;
pub mod khin;
mod quick;
mod single;
pub mod strip;
pub mod tone_letter;

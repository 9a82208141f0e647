// Capture files in the libpcap format: the header of a file, and its records one after the other.

#![tactic(auto)]

mod bytes;
pub mod fault;
pub mod format;
pub mod records;
pub mod survey;
pub mod text;
pub mod worked;

// Texts of lines: one engine reads and writes every form of document 01 and 02.
#![tactic(auto)]

pub mod forms;
pub mod job;
pub mod job_lines;
pub mod writer;

// One line of a text: a key, an equals sign, a figure and a line feed; read from bytes, and written into a buffer.
#![tactic(auto)]

pub mod figures;
pub mod keys;
pub mod line;

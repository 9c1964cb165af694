// What the test programs share beside the search of crate `brute`: systems made, changed by words and drawn, the bytes of a system file and a reader of
// them, written from documents 01 and 02 and apart from the code under test, whose structs alone they share, with the six places for types in them; tables,
// buffers, the words of their
// cases, and lines. It needs nothing of `brute`, so that the two are proved side by side.
#![tactic(auto)]

pub mod buffers;
pub mod cases;
pub mod changes;
pub mod files;
pub mod input;
pub mod lent;
pub mod say;
pub mod spread;
pub mod systems;
pub mod tables;
pub mod words;

// Keys, numbers and lines, read from a text, for every text. The contracts cite the definitions of crate `spelling`.
// A text and a place in it stay two parameters: what is promised is of a text and any place in it, and the place behind a part is an answer
// (`Found`), from which the caller reads on in the same text.

#![tactic(auto)]

pub mod bytes; // bytes.rt: keys, and where a line ends
pub mod numbers; // numbers.rt: numbers
pub mod lines; // lines.rt: lines

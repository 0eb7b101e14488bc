// Bytes and numbers written into a room that is lent, for every line and report. Every public function is total: what the room does not
// hold whole is not written, and the room and the place are as they were. The contracts cite the spellings of crate `spelling`, and `Puts`.

#![tactic(auto)]

mod answer; // answer.rt: a line's number and its answer
pub mod bytes; // bytes.rt: whether bytes are there
pub mod decimal; // decimal.rt: numbers
pub mod totals; // totals.rt: a report's last line
mod writer; // writer.rt: the room, the place in it, and fixed byte strings

pub use writer::Writer;

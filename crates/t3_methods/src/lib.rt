//! The instructions and the methods that stand in the code of an image.
#![tactic(auto)]

mod cases;
mod decoded;
mod decoder;
mod handler;
mod header;
mod instr;
mod kind;
mod laws;
mod operands;
mod refusal;
mod rows;
mod shape;
mod window;

pub use cases::case_at;
pub use decoded::{Decoded, Slot};
pub use decoder::{decode_at, instr_at};
pub use handler::handler_in;
pub use header::{Header, header_at};
pub use instr::{CallCode, Instr, JumpCode, LocalCode, MakeCode, MathCode, PushCode, StackCode};
pub use kind::Kind;
pub use laws::{one_answer, one_instruction, one_row};
pub use refusal::CodeRefusal;
pub use shape::{Shape, opcode_named, shape_of};

//! One form for all readers: text is read from left to right, up to its value or its first fault with the fault's place.
#![tactic(auto)]

mod char_cursor;
mod class;
mod code;
mod cursor;
mod fault;
mod laws;
mod stop;

pub use char_cursor::CharCursor;
pub use class::Class;
pub use code::Code;
pub use cursor::Cursor;
pub use fault::{Fault, answer, line_of, place_of, refusal};
pub use laws::{bytes_say, lines_count, one_run, text_says, turns_never_run_out};
pub use stop::Stop;

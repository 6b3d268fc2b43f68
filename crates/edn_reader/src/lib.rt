//! Reads EDN, in a profile of its own. Other crates use it through `edn`, which also writes.
//!
//! A text is UTF-8, at most 268,435,456 bytes, and a sequence of elements: `nil`, `true`, `false`,
//! integers of 64 bits, strings, keywords, vectors in brackets, and maps in braces, whose keys are
//! distinct keywords. At most 16 vectors and maps are open at once. Tabs, line feeds, carriage
//! returns, spaces and commas separate elements; a semicolon begins a comment that goes on to a
//! line feed or the end. `specs/Spells.antt` says it exactly.
#![tactic(auto)]

mod bytes;
mod elements;
mod fault;
mod form;
mod forming;
mod front;
mod laws;
mod levels;
mod lexer;
mod limits;
mod piece;
mod reader;
mod string;
mod token_buffer;
mod truncated;
mod word;

pub use elements::Elements;
pub use fault::{EdnFault, FaultKind};
pub use form::{Form, Name};
pub use front::{after, after_line_feed, ends_word, integer_at, natural_at};
pub use laws::{joined_spell, lines_spell, one_reading, text_spells};
pub use lexer::skip as after_gap;
pub use limits::fits;
pub use piece::Piece;
pub use reader::{MAX_LENGTH, read_forms};

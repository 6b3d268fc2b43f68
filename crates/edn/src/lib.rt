//! EDN, in a profile of its own: bytes in and out, the text of forms, the values that a map has for
//! its keys, and what the reader, the crate `edn_reader`, has in public. A caller names this crate
//! alone.
#![tactic(auto)]

mod decimal;
mod fields;
mod sink;
mod source;
mod writer;

pub use decimal::{push_integer, push_natural, write_integer, write_natural};
pub use edn_reader::{
    EdnFault, Elements, FaultKind, Form, MAX_LENGTH, Name, Piece, after, after_gap,
    after_line_feed, ends_word, fits, integer_at, joined_spell, lines_spell, natural_at,
    one_reading, read_forms, text_spells,
};
pub use fields::{
    MAX_OBJECT, OperationValues, integer, keyword, keyword_first, natural, natural_first,
    object_number, same_bytes, value_at, values_of,
};
pub use sink::{Device, Failed, Out, Sink};
pub use source::{In, Source, Supply};
pub use writer::{WriteFault, write_bytes, write_form};

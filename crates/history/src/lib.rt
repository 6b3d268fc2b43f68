//! Histories read from a text, or from its forms.
#![tactic(auto)]

mod attempts;
mod client_map;
mod fault;
mod limit;
mod long_reader;
mod map_faults;
mod map_reader;
mod map_texts;
mod piece;
mod pieces;
mod reader;
mod seams;
mod seen;
mod text_reader;
mod usual;
mod usual_map;

pub use client_map::{ClientMap, MapType, OperationMap, function, plain_value};
pub use events::{Action, End, Event, History, ObjectHistory, Operation, split};
pub use fault::{HistoryFault, HistoryFaultKind, TextFault};
pub use limit::limits_of_one_text;
pub use long_reader::LongReader;
pub use map_texts::{MapText, maps_of};
pub use piece::ReadPiece;
pub use pieces::{join_pieces, pieces_of, read_piece};
pub use reader::read_history;
pub use seen::MAX_MAPS;
pub use text_reader::read_history_text;

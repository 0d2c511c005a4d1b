// Cuts the text of a body into its attributes and its children, and reads a single stanza. What it accepts is a profile of
// XML 1.0 for XEP-0124, and each refusal names the first place that is wrong. A reader takes each byte once, from left to
// right, and keeps the names of the open elements, so nothing recurs on depth.
#![tactic(auto)]

mod characters;
mod chars;
mod content;
mod cutter;
mod feeding;
mod laws;
mod names;
mod parts;
mod place;
mod prefixes;
mod prolog;
mod reader;
mod references;
mod refusing;
mod run;
mod stanza_cutter;
mod tags;
mod tail;
mod whole_text;

pub use characters::texts_are_allowed_characters;
pub use chars::is_allowed;
pub use cutter::{Cutter, cut_pieces};
pub use laws::{
    a_text_has_one_reading, built_bodies_read_back, parts_are_pieces, reader_takes_the_grammar,
    texts_are_cut_by_the_grammar,
};
pub use parts::{Attr, Attrs, Cut, CutError, CutRefusal, Span, Spans};
pub use prefixes::prefixes_are_viable_where_read;
pub use stanza_cutter::{Fed, StanzaCutter};
pub use whole_text::{cut, read_stanza};

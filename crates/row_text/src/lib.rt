// The text of a row: its words, and the bytes that it writes.
#![tactic(auto)]

mod escapes;

pub use escapes::bytes_of;

/// A row's first word, and what stands behind the space after it.
pub fn first_word(row: &str) -> (&str, &str) {
    match row.split_once(' ') {
        Some(parts) => parts,
        None => (row, ""),
    }
}

// Rows of HTTP: a line of the input names a reader, what is tried with it and its bytes, and the line that is written for it is the answer.
#![tactic(auto)]

mod feeding;
mod links;
mod readers;
mod writing;

use readers::Reading;
use std::alloc::{AllocError, Global};
use std::io;

fn main(rt: HostRuntime) -> io::Result<()> {
    for line in rt.lines(rt.alloc()) {
        let told = row(rt.alloc(), line?.as_str())?;
        println!(rt; "{told}")?;
    }
    Ok(())
}

/// What a line's call answers. A line that begins with `#` stands for itself.
fn row(alloc: Global, line: &str) -> Result<String, AllocError> {
    let (first, rest) = row_text::first_word(line);
    match first {
        "" | "#" => String::from_str(alloc, line),
        "request" => tried(alloc, Reading::Requests, rest),
        "fed" => tried(alloc, Reading::Fed, rest),
        "response" => tried(alloc, Reading::Responses, rest),
        "post" => writing::post(alloc, rest),
        _ => writing::response(alloc, first, rest),
    }
}

/// What a reader answers where this is tried with it.
fn tried(alloc: Global, reading: Reading, row: &str) -> Result<String, AllocError> {
    let (trial, text) = row_text::first_word(row);
    let Some(bytes) = row_text::bytes_of(alloc, text)? else {
        return String::from_str(alloc, "a wrong escape");
    };
    let bytes = bytes.as_slice();
    match trial {
        "pieces" => links::in_pieces(alloc, reading, bytes),
        "parted" => links::parted(alloc, reading, bytes),
        "faults" => links::with_faults(alloc, reading, bytes),
        "fronts" => links::fronts(alloc, reading, bytes),
        "wrong" => links::wrong_bytes(alloc, reading, bytes),
        "one" => feeding::given(alloc, reading, bytes, 1),
        "three" => feeding::given(alloc, reading, bytes, 3),
        _ => feeding::given(alloc, reading, bytes, 16384),
    }
}

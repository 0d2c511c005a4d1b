// Rows of bodies: a line of the input names a call and its text, and the line that is written for it is what the call answers.
#![tactic(auto)]

mod cutting;
mod reading;
mod streams;
mod writing;

use std::alloc::{AllocError, Global};
use std::io;

fn main(rt: HostRuntime) -> io::Result<()> {
    for line in rt.lines(rt.alloc()) {
        let told = row(rt.alloc(), line?.as_str())?;
        println!(rt; "{told}")?;
    }
    Ok(())
}

/// What a line's call answers. A line that begins with `#` stands for itself.
fn row(alloc: Global, line: &str) -> Result<String, AllocError> {
    let (call, rest) = row_text::first_word(line);
    match call {
        "" | "#" => String::from_str(alloc, line),
        "answer" => writing::answer(alloc, rest),
        "ask" => writing::ask(alloc, rest),
        "refuse" => writing::refuse(alloc, rest),
        _ => row_of_text(alloc, call, rest),
    }
}

/// The same for the calls that take one text.
fn row_of_text(alloc: Global, call: &str, row: &str) -> Result<String, AllocError> {
    let Some(text) = row_text::bytes_of(alloc, row)? else {
        return String::from_str(alloc, "a wrong escape");
    };
    let text = text.as_slice();
    match call {
        "cut" => cutting::cut_however(alloc, text, &[1, 3]),
        "cut_whole" => cutting::cut_however(alloc, text, &[]),
        "count" => cutting::count(alloc, text),
        "parts" => cutting::parts(alloc, text),
        "joined" => cutting::joined(alloc, text),
        "viable" => cutting::viable(alloc, text),
        "stanza" => cutting::stanza(alloc, text),
        "stream" => streams::begins_however(alloc, text, 64, &[1, 3]),
        "long_stream" => streams::begins_however(alloc, text, 65536, &[]),
        "rid" => reading::rid(alloc, text),
        _ => reading::request(alloc, call, text),
    }
}

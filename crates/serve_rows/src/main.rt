// Rows of a server: a line of the input says what comes to it and how, and the line that is written for it is what it gives.
#![tactic(auto)]

mod bell;
mod bodies;
mod link;
mod scene;
mod steps;
mod strangers;
mod tables;

use std::alloc::{AllocError, Global};
use std::io;
use std::sync::Wait;

fn main(rt: HostRuntime) -> io::Result<()> {
    let mut rows = Vec::new(rt.alloc());
    for line in rt.lines(rt.alloc()) {
        rows.push(line?)?;
    }
    let mut place = 0usize;
    for _ in 0..rows.len() {
        let rest = rows.get(place..).unwrap_or(&[]);
        let told = answers(&rt, rt.alloc(), rest)?;
        place = place.saturating_add(told.len());
        for line in &told {
            println!(rt; "{line}")?;
        }
    }
    Ok(())
}

/// What is told of the first of these rows, and of those that go on with it.
fn answers<R: Wait + Copy + Drop>(
    rt: &R,
    alloc: Global,
    rows: &[String],
) -> Result<Vec<String>, AllocError> {
    let Some((first, rest)) = rows.split_first() else {
        return Ok(Vec::new(alloc));
    };
    let (word, text) = row_text::first_word(first.as_str());
    if word != "server" {
        return Ok(vec![in alloc; row(rt, alloc, first.as_str(), word, text)?]?);
    }
    let mut steps = 0usize;
    for row in rest {
        if !steps::is_step(row_text::first_word(row.as_str()).0) {
            break;
        }
        steps = steps.saturating_add(1);
    }
    steps::scene(rt, alloc, text, rest.get(..steps).unwrap_or(rest))
}

/// What is told of a row that stands alone. One that begins with `#` stands for itself.
fn row<R: Wait + Copy + Drop>(
    rt: &R,
    alloc: Global,
    row: &str,
    word: &str,
    text: &str,
) -> Result<String, AllocError> {
    let (what, number) = row_text::first_word(text);
    match word {
        "stranger" => strangers::served(rt, alloc, text),
        "exchange" => tables::exchange(rt, alloc),
        "takes" => tables::takes(rt, alloc, number_in(text)),
        "gives" => tables::gives(rt, alloc, number_in(text)),
        "cuts" => tables::cuts(rt, alloc, number_in(text)),
        "body" => bodies::tried(rt, alloc, what, number_in(number)),
        _ => String::from_str(alloc, row),
    }
}

fn number_in(text: &str) -> usize {
    text.parse::<usize>().unwrap_or(1)
}

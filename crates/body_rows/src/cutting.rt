// Rows of texts that are cut.

use body_cutter::{Cut, CutError, Cutter, cut, cut_pieces, read_stanza};
use std::alloc::{AllocError, Global};

/// Whether a text is cut, or why not: the same whole and in pieces of these sizes.
pub fn cut_however(alloc: Global, text: &[u8], sizes: &[usize]) -> Result<String, AllocError> {
    let whole = whether(cut(alloc, text));
    for size in sizes {
        if in_pieces(alloc, text, *size)? != whole {
            return format!(in alloc; "otherwise in pieces of {size}");
        }
    }
    format!(in alloc; "{whole:?}")
}

fn whether(answer: Result<Cut, CutError>) -> Result<(), CutError> {
    match answer {
        Ok(_) => Ok(()),
        Err(error) => Err(error),
    }
}

/// The same for a text that comes in pieces.
fn in_pieces(alloc: Global, text: &[u8], size: usize) -> Result<Result<(), CutError>, AllocError> {
    let mut cutter = Cutter::new(alloc);
    for piece in text.chunks(size.max(1)) {
        cutter.feed(piece)?;
    }
    Ok(whether(cutter.finish()))
}

/// The parts of a text.
pub fn parts(alloc: Global, text: &[u8]) -> Result<String, AllocError> {
    shown(alloc, cut(alloc, text))
}

/// The parts of a text that is joined of pieces of 15 bytes.
pub fn joined(alloc: Global, text: &[u8]) -> Result<String, AllocError> {
    let mut pieces = Vec::new(alloc);
    for piece in text.chunks(15) {
        pieces.push(Vec::from_slice(alloc, piece)?)?;
    }
    shown(alloc, cut_pieces(alloc, &pieces))
}

/// The places of the attributes' names with the values, and the places of the children.
fn shown(alloc: Global, answer: Result<Cut, CutError>) -> Result<String, AllocError> {
    let parts = match answer {
        Ok(parts) => parts,
        Err(error) => return format!(in alloc; "{error:?}"),
    };
    let mut told = String::from_str(alloc, "attributes")?;
    for attr in parts.attrs.as_slice() {
        let value = str::from_utf8(attr.value.as_slice()).unwrap_or("not UTF-8");
        write!(told, " {}..{} {value:?}", attr.name.start, attr.name.end)?;
    }
    told.push_str(" children")?;
    for child in parts.children.as_slice() {
        write!(told, " {}..{}", child.start, child.end)?;
    }
    Ok(told)
}

/// How many attributes and children a text has.
pub fn count(alloc: Global, text: &[u8]) -> Result<String, AllocError> {
    match cut(alloc, text) {
        Ok(parts) => {
            let attributes = parts.attrs.len();
            let children = parts.children.len();
            format!(in alloc; "{attributes} attributes, {children} children")
        }
        Err(error) => format!(in alloc; "{error:?}"),
    }
}

/// After how many bytes, one by one, no body may come any more, and why the text isn't cut.
pub fn viable(alloc: Global, text: &[u8]) -> Result<String, AllocError> {
    let mut cutter = Cutter::new(alloc);
    let mut count = 0usize;
    for piece in text.chunks(1) {
        cutter.feed(piece)?;
        if cutter.viable() {
            count = count.saturating_add(1);
        }
    }
    let told = whether(cutter.finish());
    format!(in alloc; "{count} {told:?}")
}

/// Whether a text is a stanza, or why not.
pub fn stanza(alloc: Global, text: &[u8]) -> Result<String, AllocError> {
    let told = read_stanza(alloc, text);
    format!(in alloc; "{told:?}")
}

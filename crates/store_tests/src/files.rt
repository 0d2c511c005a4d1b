// The files of tests: what sessions they have.
use journal_store::{MemoryDisk, write_content};
use session_journal::Journalled;
use session_store::{Opened, open};
use std::alloc::Global;
use std::test::Fail;

// The sessions of an image, none where it can't be opened.
pub(crate) fn opened(alloc: Global, image: Vec<u8>) -> Result<Vec<Journalled>, Fail> {
    match open(alloc, MemoryDisk::new(image, Vec::new(alloc), 0)) {
        Opened::Store { sessions, .. } => Ok(sessions),
        _ => Ok(Vec::new(alloc)),
    }
}

// The contents of the entries of the first session.
pub(crate) fn contents_of(alloc: Global, sessions: &[Journalled]) -> Result<Vec<Vec<u8>>, Fail> {
    let mut contents = Vec::new(alloc);
    let Some(session) = sessions.first() else {
        return Ok(contents);
    };
    for entry in session.entries() {
        let mut content = Vec::new(alloc);
        write_content(&mut content, 1, entry)?;
        contents.push(content)?;
    }
    Ok(contents)
}

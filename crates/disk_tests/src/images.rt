use journal_store::{Begun, MemoryDisk, Opening};
use std::alloc::Global;
use std::test::Fail;

// How many records an image has.
fn records(alloc: Global, image: &[u8]) -> Result<usize, Fail> {
    let disk = MemoryDisk::new(image.to_vec(alloc)?, Vec::new(alloc), 0);
    match Opening::begin(disk) {
        Begun::Opened(mut opening) => Ok(opening.read_row(alloc)?.len()),
        Begun::Failed(_) => Ok(99),
    }
}

#[test]
fn reads_the_row_up_to_its_end(rt: HostRuntime) -> Result<(), Fail> {
    let rows = [
        (b"".as_slice(), 0),
        (b"\0", 0),
        (b"\x01", 0),
        // ends inside a length
        (b"\x01\0\0\0", 0),
        // a record of no byte, and one of a byte
        (b"\x01\0\0\0\0", 1),
        (b"\x01\0\0\0\0\x01\0\0\0\x01a\0", 2),
        // a gate that is 2, and a closed one before a record
        (b"\x01\0\0\0\x01a\x02\0\0\0\x01b", 1),
        (b"\x01\0\0\0\x01a\0\0\0\0\x01b", 1),
        // a record that runs past the end, and the longest one
        (b"\x01\0\0\0\x01a\x01\0\0\0\x02b", 1),
        (b"\x01\xff\xff\xff\xffa", 0),
    ];
    let mut right = 0u32;
    for (image, count) in rows {
        if records(rt.alloc(), image)? == count {
            right = right.saturating_add(1);
        }
    }
    assert_eq!(rt; right, 10);
    Ok(())
}

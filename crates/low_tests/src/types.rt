use bosh_types::{CopyIn, Rid, SharedText, Text, copy_items};
use std::test::Fail;

#[test]
fn reads_request_ids(rt: HostRuntime) {
    let rows: [(&[u8], Option<u64>); 9] = [
        (b"", None),
        (b"0", None),
        (b"01", None),
        (b"-1", None),
        (b"+1", None),
        (b"1a", None),
        (b"1", Some(1)),
        (b"9007199254740991", Some(9007199254740991)),
        (b"9007199254740992", None),
    ];
    for (text, want) in rows {
        assert_eq!(rt; Rid::read(text).map(|rid| rid.value()), want, "at {text:?}");
    }
}

#[test]
fn shares_and_copies_texts(rt: HostRuntime) -> Result<(), Fail> {
    let text = Text::from_vec(Vec::from_slice(rt.alloc(), b"<body/>")?);
    let copy = text.copy_in(rt.alloc())?;
    let shared = SharedText::new(rt.alloc(), text)?;
    let again = shared.again()?;
    assert_eq!(rt; (again.len(), again.is_empty()), (7, false));
    let texts = vec![in rt.alloc(); Some(shared), None]?;
    let copies = copy_items(rt.alloc(), &texts)?;
    drop(texts);
    let told: Vec<Option<&[u8]>> = vec![in rt.alloc(); Some(b"<body/>".as_slice()), None]?;
    for (copy, want) in copies.iter().zip(told) {
        assert_eq!(rt; copy.as_ref().map(|text| text.as_slice()), want);
    }
    assert_eq!(rt; again.as_slice(), copy.as_slice());
    Ok(())
}

// How a value is written, and how much memory a process has.
use serve_log::{Field, Value, push_line, resident_kib};
use std::test::Fail;

#[test]
fn values_are_shown_so(rt: HostRuntime) -> Result<(), Fail> {
    let rows: [(&[u8], &[u8]); 8] = [
        (b"plain-1.2:/_", b"a=plain-1.2:/_ n=7\n"),
        (b"", b"a=\"\" n=7\n"),
        (b"two words", b"a=\"two words\" n=7\n"),
        (b"a\"b\\c", b"a=\"a\\\"b\\\\c\" n=7\n"),
        (b"x\ny\r\t\0", b"a=\"x\\x0ay\\x0d\\x09\\x00\" n=7\n"),
        (b"\x7f\x1f", b"a=\"\\x7f\\x1f\" n=7\n"),
        (b"\xc3\xa9", b"a=\"\xc3\xa9\" n=7\n"),
        (b"k=v", b"a=k=v n=7\n"),
    ];
    for (value, wanted) in rows {
        let mut out = Vec::new(rt.alloc());
        let first = Field {
            name: "a",
            value: Value::Text(value),
        };
        let other = Field {
            name: "n",
            value: Value::Count(7),
        };
        push_line(rt.alloc(), &mut out, &first, &[other])?;
        assert!(rt; out.as_slice() == wanted, "of {value:?}");
    }
    Ok(())
}

#[test]
fn the_resident_memory_is_found(rt: HostRuntime) -> Result<(), Fail> {
    let rows: [(&[u8], Option<u64>); 5] = [
        (b"Name:\tx\nVmRSS:\t    1234 kB\nVmData: 5 kB\n", Some(1234)),
        (b"VmRSS: 7", Some(7)),
        (b"VmRSS:\t kB\n", None),
        (b"XVmRSS: 7 kB\n", None),
        (b"", None),
    ];
    for (text, wanted) in rows {
        assert_eq!(rt; resident_kib(text), wanted);
    }
    Ok(())
}

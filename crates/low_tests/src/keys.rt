use bosh_types::Text;
use key_sequence::{KeyCheck, KeyMaker, Verdict};
use std::alloc::{AllocError, Global};
use std::test::Fail;

// The digests of the three examples of FIPS 180 and of the empty text, in lower-case hexadecimal.
const OF_ABC: &[u8] = b"a9993e364706816aba3e25717850c26c9cd0d89d";

const OF_TWO_BLOCKS: &[u8] = b"84983e441c3bd26ebaae4aa1f95129e5e54670f1";

const OF_A_MILLION: &[u8] = b"34aa973cd4c4daa4f61eeb2bdbad27316534016f";

const OF_NONE: &[u8] = b"da39a3ee5e6b4b0d3255bfef95601890afd80709";

const TWO_BLOCKS: &[u8] = b"abcdbcdecdefdefgefghfghighijhijkijkljklmklmnlmnomnopnopq";

// The digest of the digest of `abc`.
const OF_DIGEST: &[u8] = b"9ef2bdeea2b1bae79b9ddb930427d0b2c880bdac";

fn text(alloc: Global, bytes: &[u8]) -> Result<Text, AllocError> {
    Ok(Text::from_vec(Vec::from_slice(alloc, bytes)?))
}

#[test]
fn digests_the_examples_of_the_standard(rt: HostRuntime) -> Result<(), Fail> {
    let million = vec![in rt.alloc(); b'a'; 1_000_000]?;
    let rows = [
        (b"abc".as_slice(), OF_ABC),
        (TWO_BLOCKS, OF_TWO_BLOCKS),
        (million.as_slice(), OF_A_MILLION),
        (b"", OF_NONE),
    ];
    for (seed, digest) in rows {
        let mut maker = KeyMaker::new(rt.alloc(), seed, 2)?;
        let first = maker.next_key().map(|key| key.as_slice() == digest);
        assert_eq!(rt; first, Some(true), "of {} bytes", seed.len());
        assert_eq!(rt; maker.next_key(), None);
    }
    Ok(())
}

#[test]
fn hands_keys_out_downwards(rt: HostRuntime) -> Result<(), Fail> {
    let mut maker = KeyMaker::new(rt.alloc(), b"abc", 2)?;
    assert_eq!(rt; maker.newkey().as_slice(), OF_DIGEST);
    assert_eq!(rt;
        maker.next_key().map(|key| key.as_slice() == OF_ABC),
        Some(true)
    );
    assert_eq!(rt; maker.next_key(), None);
    assert_eq!(rt; maker.next_key(), None);
    assert_eq!(rt; maker.newkey().as_slice(), OF_DIGEST);
    Ok(())
}

#[test]
fn checks_the_keys_of_a_maker(rt: HostRuntime) -> Result<(), Fail> {
    let mut maker = KeyMaker::new(rt.alloc(), b"seed", 4096)?;
    let newkey = text(rt.alloc(), maker.newkey().as_slice())?;
    let mut check = KeyCheck::start(Some(newkey));
    let wrong = text(rt.alloc(), b"abc")?;
    assert_eq!(rt;
        (check.fits(Some(&wrong)), check.fits(None)),
        (false, false)
    );
    assert_eq!(rt; check.accept(Some(wrong), None), Verdict::Wrong);
    assert_eq!(rt; check.accept(None, None), Verdict::Wrong);
    check = check.copied(rt.alloc())?;
    let mut sent = 0u32;
    for _ in 0..4095 {
        if let Some(key) = maker.next_key() {
            let key = text(rt.alloc(), key.as_slice())?;
            assert_eq!(rt; check.accept(Some(key), None), Verdict::Good);
            sent = sent.saturating_add(1);
        }
    }
    assert_eq!(rt; sent, 4095);
    assert_eq!(rt; maker.next_key(), None);
    Ok(())
}

#[test]
fn goes_on_from_a_new_sequence(rt: HostRuntime) -> Result<(), Fail> {
    let mut check = KeyCheck::start(Some(text(rt.alloc(), OF_DIGEST)?));
    let newkey = Some(text(rt.alloc(), OF_ABC)?);
    assert_eq!(rt;
        check.accept(Some(text(rt.alloc(), OF_ABC)?), newkey),
        Verdict::Good
    );
    assert_eq!(rt;
        check.accept(Some(text(rt.alloc(), OF_ABC)?), None),
        Verdict::Wrong
    );
    assert_eq!(rt;
        check.accept(Some(text(rt.alloc(), b"abc")?), None),
        Verdict::Good
    );
    assert_eq!(rt;
        check.accept(Some(text(rt.alloc(), b"abc")?), None),
        Verdict::Wrong
    );
    Ok(())
}

#[test]
fn ignores_keys_in_a_session_without_them(rt: HostRuntime) -> Result<(), Fail> {
    let mut check = KeyCheck::start(None);
    let newkey = Some(text(rt.alloc(), OF_ABC)?);
    assert_eq!(rt;
        check.accept(Some(text(rt.alloc(), b"any")?), newkey),
        Verdict::Good
    );
    assert_eq!(rt; check.accept(None, None), Verdict::Good);
    Ok(())
}

// What no clause says of the real clock, names and links, since they tell nothing: that time runs at its pace, that names are drawn, and for how
// long a link waits.
use crate::networks::{connected, listening};
use bosh_ports::{Bell, BellKey, Got, Link, RealBell, send_all};
use server_ports::{
    Accepted, Clock, Dialled, Limits, Names, Network, RealClock, RealNames, system_seed,
};
use std::alloc::AllocError;
use std::test::Fail;
use std::time::{Duration, Instant};

#[test]
fn a_clock_keeps_its_pace(rt: HostRuntime) -> Result<(), Fail> {
    let clock = RealClock::new(rt);
    let mut bell = RealBell::new(rt.alloc(), rt)?;
    bell.tune(BellKey(1));
    let start = Instant::now(&rt)?;
    let before = clock.now();
    // Nobody rings for a tenth of a second.
    bell.wait();
    let after = clock.now();
    let most = u64::try_from(start.elapsed(&rt)?.as_millis()).unwrap_or(u64::MAX);
    let passed = after.millis().saturating_sub(before.millis());
    assert!(rt; passed >= 99 && passed <= most.saturating_add(1));
    Ok(())
}

// The bits that a name's digits have.
fn bits_of(name: &[u8]) -> u64 {
    let mut bits = 0u64;
    for byte in name {
        if let Some(digit) = char::from(*byte).to_digit(16) {
            bits = (bits << 4) | u64::from(digit);
        }
    }
    bits
}

fn drawn(names: &mut RealNames) -> Result<u64, AllocError> {
    Ok(bits_of(names.name()?.as_slice()))
}

#[test]
fn each_bit_of_a_name_is_drawn(rt: HostRuntime) -> Result<(), Fail> {
    let mut names = RealNames::new(rt.alloc(), system_seed(&rt)?);
    let mut all = Vec::new(rt.alloc());
    let first = drawn(&mut names)?;
    let mut changed = 0u64;
    for _ in 0..1000 {
        let bits = drawn(&mut names)?;
        changed |= first ^ bits;
        all.push(bits)?;
    }
    assert_eq!(rt; changed, u64::MAX);
    // Of a thousand names of 16 bits, two are the same but once in two thousand times.
    all.sort()?;
    let drawn = all.len();
    all.dedup();
    assert_eq!(rt; all.len(), drawn);
    Ok(())
}

#[test]
fn each_seed_and_each_share_draws_its_own(rt: HostRuntime) -> Result<(), Fail> {
    let mut names = RealNames::new(rt.alloc(), system_seed(&rt)?);
    let mut others = RealNames::new(rt.alloc(), system_seed(&rt)?);
    let first = drawn(&mut names)?;
    let other = drawn(&mut others)?;
    let of_one = drawn(&mut names.share())?;
    let of_another = drawn(&mut names.share())?;
    let all = [first, other, of_one, of_another];
    for (at, bits) in all.iter().enumerate() {
        assert!(rt; !all[..at].contains(bits));
    }
    Ok(())
}

#[test]
fn links_have_the_limits_of_how_they_began(rt: HostRuntime) -> Result<(), Fail> {
    let (mut network, port) = listening(&rt)?;
    let Dialled::Link(mut near) = network.dial(port) else {
        return Err(Fail::new("no link"));
    };
    let Accepted::Link(mut far) = network.accept() else {
        return Err(Fail::new("no link"));
    };
    assert_eq!(rt;
        (near.limits, far.limits),
        (Limits::DIALLED, Limits::ACCEPTED)
    );
    // One that is closed is at its end for the other one, and not silent.
    let mut room = [0u8; 4];
    assert!(rt; send_all(&mut near, b"p").is_ok());
    assert_eq!(rt; far.take(&mut room), Got::Bytes(1));
    far.limits.within = 50;
    near.close();
    assert_eq!(rt; far.take(&mut room), Got::End);
    Ok(())
}

#[test]
fn each_read_has_its_own_limit(rt: HostRuntime) -> Result<(), Fail> {
    let limits = Limits {
        before: 20,
        ends: true,
        within: 300,
    };
    let (mut near, mut far) = connected(&rt, limits)?;
    let mut room = [0u8; 4];
    assert_eq!(rt; far.take(&mut room), Got::End);
    assert!(rt; send_all(&mut near, b"p").is_ok());
    assert_eq!(rt; far.take(&mut room), Got::Bytes(1));
    let start = Instant::now(&rt)?;
    assert_eq!(rt; far.take(&mut room), Got::Failed);
    assert!(rt; start.elapsed(&rt)? >= Duration::from_millis(290));
    Ok(())
}

// What links that never wait answer, in a word for each answer.
use bosh_ports::{Gave, Got, Polled};
use std::rt::Clock;
use std::thread::sleep;
use std::time::Duration;

/// How often a link is looked at that has nothing yet, a hundredth of a second apart.
const LOOKS: u32 = 500;

/// What a take or a give answered.
#[derive(Clone, Copy, Debug, PartialEq, Eq)]
pub enum Seen {
    Nothing,
    Moved(usize),
    End,
    Failed,
}

/// What one take into room for eight bytes answers.
pub fn take<K: Polled>(link: &mut K) -> Seen {
    let mut room = [0u8; 8];
    match link.poll_take(&mut room) {
        Some(Got::Bytes(count)) => Seen::Moved(count),
        Some(Got::End) => Seen::End,
        Some(Got::Failed) => Seen::Failed,
        None => Seen::Nothing,
    }
}

/// What one give answers.
pub fn give<K: Polled>(link: &mut K, bytes: &[u8; 2]) -> Seen {
    match link.poll_give(bytes) {
        Some(Gave::Wrote(count)) => Seen::Moved(count),
        Some(Gave::Failed) => Seen::Failed,
        None => Seen::Nothing,
    }
}

/// What takes answer once there is something, or nothing within five seconds.
pub fn await_take<R: Clock, K: Polled>(rt: &R, link: &mut K) -> Seen {
    for _ in 0..LOOKS {
        let seen = take(link);
        if seen != Seen::Nothing {
            return seen;
        }
        sleep(rt, Duration::from_millis(10));
    }
    Seen::Nothing
}

/// What takes answer behind all bytes that are there.
pub fn await_end<R: Clock, K: Polled>(rt: &R, link: &mut K) -> Seen {
    for _ in 0..u32::MAX {
        match await_take(rt, link) {
            Seen::Moved(_) => {}
            seen => return seen,
        }
    }
    Seen::Nothing
}

/// What gives answer to one that gives much more than there is room for.
pub fn give_much<K: Polled>(link: &mut K) -> Seen {
    let much = [b'a'; 65_536];
    for _ in 0..10_000 {
        match link.poll_give(&much) {
            Some(Gave::Wrote(_)) => {}
            Some(Gave::Failed) => return Seen::Failed,
            None => return Seen::Nothing,
        }
    }
    Seen::Moved(much.len())
}

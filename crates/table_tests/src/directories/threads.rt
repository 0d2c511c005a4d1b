// Two workers that open sessions in threads of their own.
ghost use Rattle.std.specs.Thread.{IsSync};
ghost use Rattle.parked_gate.specs.Passes.{IsPassOf};

use super::gate;
use super::purses::open;
use parked_gate::{Gate, Pass};
use session_table::{Directory, Purse};
use std::alloc::Global;
use std::sync::Wait;
use std::test::Fail;
use std::thread::{Threads, join};

/// The opening number of the session that a worker with this pass opens.
fn opened_by<R: Wait>(
    rt: &R,
    alloc: Global,
    directory: &Gate<Directory>,
    pass: Pass<Directory>,
) -> Option<u64>
    requires { IsPassOf directory.now pass }
{
    let mut purse = Purse::new(alloc, pass);
    match open(rt, alloc, directory, &mut purse) {
        Ok(number) => Some(number),
        Err(_) => None,
    }
}

fn open_in_threads<R: Threads + Wait + Sync>(
    rt: &R,
    alloc: Global,
    directory: &Gate<Directory>,
    first: Pass<Directory>,
    second: Pass<Directory>,
) -> (Option<u64>, Option<u64>)
    requires first { IsPassOf directory.now first }
    requires second { IsPassOf directory.now second }
{
    join(
        rt,
        move || -> Option<u64>
            requires { IsSync R.row × IsPassOf directory.now first }
        { opened_by(rt, alloc, directory, first) },
        move || -> Option<u64>
            requires { IsSync R.row × IsPassOf directory.now second }
        { opened_by(rt, alloc, directory, second) },
    )
}

#[test]
fn sessions_of_two_threads_have_two_numbers(rt: HostRuntime) -> Result<(), Fail> {
    let (directory, mut pass) = gate(rt.alloc())?;
    let first = directory.split(&rt, &mut pass);
    let second = directory.split(&rt, &mut pass);
    let numbers = open_in_threads(&rt, rt.alloc(), &directory, first, second);
    assert!(rt; numbers == (Some(1), Some(2)) || numbers == (Some(2), Some(1)));
    let mut purse = Purse::new(rt.alloc(), pass);
    assert_eq!(rt; purse.find(&rt, rt.alloc(), &directory, b"s1")?, Some(1));
    assert_eq!(rt; purse.find(&rt, rt.alloc(), &directory, b"s2")?, Some(2));
    Ok(())
}

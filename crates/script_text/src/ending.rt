// How an ending is printed.
ghost use Rattle.std.specs.Prelude.{◌≡◌, ◌++◌, OnOk};
ghost use Rattle.bosh_types.specs.declared.ending.Ending.TheVariants.{Stale, Above, PauseTooLong};
ghost use Rattle.script_text.specs.Report.{ending_text, closing_text, numbers_text};

use crate::text::push_numbers;
use bosh_types::{Closing, Condition, Ending, Rid};
use std::alloc::{AllocError, Global};

/// Puts an ending with its numbers at the end of a text.
#[tactic(auto, unfolding(crate::specs::Report::ending_text))]
pub fn push_ending(alloc: Global, text: &mut Vec<u8>, ending: Ending) -> Result<(), AllocError>
    ensures { OnOk result (text.new.items ≡ text.old.items ++ ending_text ending) }
{
    match ending {
        Ending::Terminated { rid } => push_words(alloc, text, "terminate", &[rid.value()]),
        Ending::Stale { rid, lowest } => push_stale(alloc, text, rid, lowest),
        Ending::Above {
            rid,
            last,
            requests,
        } => push_above(alloc, text, rid, last, requests),
        Ending::WrongKey { rid } => push_words(alloc, text, "item-not-found key", &[rid.value()]),
        Ending::UnknownStream { rid } => {
            push_words(alloc, text, "item-not-found stream", &[rid.value()])
        }
        Ending::PauseTooLong {
            rid,
            pause,
            maxpause,
        } => push_pause(alloc, text, rid, pause, maxpause),
        Ending::Overactive { rid, apart } => {
            push_words(alloc, text, "policy-violation often", &[rid.value(), apart])
        }
        Ending::Silent { since, now } => {
            push_words(alloc, text, "silent", &[since.millis(), now.millis()])
        }
        Ending::Closed { closing, rid } => {
            push_words(alloc, text, closing_name(closing), &[rid.value()])
        }
        Ending::JournalFull { counted, cost } => {
            push_words(alloc, text, "undefined-condition journal", &[counted, cost])
        }
    }
}

#[tactic(auto, unfolding(crate::specs::Report::ending_text))]
fn push_stale(alloc: Global, text: &mut Vec<u8>, rid: Rid, lowest: Rid) -> Result<(), AllocError>
    ensures { OnOk result (text.new.items ≡ text.old.items ++ ending_text (Stale rid lowest)) }
{
    push_words(
        alloc,
        text,
        "item-not-found stale",
        &[rid.value(), lowest.value()],
    )
}

#[tactic(auto, unfolding(crate::specs::Report::ending_text))]
fn push_above(
    alloc: Global,
    text: &mut Vec<u8>,
    rid: Rid,
    last: Rid,
    requests: u32,
) -> Result<(), AllocError>
    ensures { OnOk result (text.new.items ≡ text.old.items ++ ending_text (Above rid last requests)) }
{
    let numbers = [rid.value(), last.value(), u64::from(requests)];
    push_words(alloc, text, "item-not-found above", &numbers)
}

#[tactic(auto, unfolding(crate::specs::Report::ending_text))]
fn push_pause(
    alloc: Global,
    text: &mut Vec<u8>,
    rid: Rid,
    pause: u32,
    maxpause: u32,
) -> Result<(), AllocError>
    ensures { OnOk result (text.new.items ≡ text.old.items ++ ending_text (PauseTooLong rid pause maxpause)) }
{
    let numbers = [rid.value(), u64::from(pause), u64::from(maxpause)];
    push_words(alloc, text, "policy-violation pause", &numbers)
}

// Puts words and numbers at the end.
fn push_words(
    alloc: Global,
    text: &mut Vec<u8>,
    words: &str,
    numbers: &[u64],
) -> Result<(), AllocError>
    ensures { OnOk result (text.new.items ≡ text.old.items ++ (words.now ++ numbers_text numbers.now)) }
{
    text.extend_from_slice(words.as_bytes())?;
    push_numbers(alloc, text, numbers)
}

fn closing_name(closing: Closing) -> &'static str
    ensures { result.now ≡ closing_text closing }
{
    match closing {
        Closing::Plain => "closed",
        Closing::RemoteConnectionFailed => Condition::RemoteConnectionFailed.name(),
        Closing::RemoteStreamError => Condition::RemoteStreamError.name(),
        Closing::SystemShutdown => Condition::SystemShutdown.name(),
    }
}

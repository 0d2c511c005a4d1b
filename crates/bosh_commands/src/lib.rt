// The commands of the program as calls: `drive`, `pair`, `load` and `audit` over a source and a sink, `serve` and `client` over what is
// outside of a process too. `main` makes the real streams, network, clock and threads, and calls them.
#![tactic(auto)]

mod client_command;
mod client_options;
mod command;
mod ends;
mod input_end;
mod keep_command;
mod number;
mod options;
mod run;
mod serve_command;
mod site;
mod why;
mod wrong_words;

pub use client_command::{ENDED, REFUSED, STUCK, run_client_command};
pub use keep_command::{DAMAGED, Kept, STORE_FAULT, run_kept};
pub use options::ServeOptions;
pub use run::{
    BAD_SCRIPT, BROKEN_RULE, DONE, NO_MEMORY, READ_FAULT, WRITE_FAULT, WRONG_WORDS, run_local,
    status_without_words,
};
pub use serve_command::{NET_FAULT, SPAWN_FAULT, options_to_serve, run_serve_command};
pub use site::Site;
pub use wrong_words::{Mistake, mistake_in, wrong_words_text};

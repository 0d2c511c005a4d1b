// Sessions that a store brings back, and the directory of them.
ghost use Rattle.std.specs.Prelude.{◌≡◌, All, Some};
ghost use Rattle.session_table.specs.Entering.{AreOf};
ghost use Rattle.session_table.specs.Opens.{opened_sid};

use crate::directory::Directory;
use bosh_types::SharedText;
use session_journal::Recorded;

/// A session that a store brings back, under the name that it was opened with, with entries of one caller.
#[derive(Drop)]
pub struct Resumed {
    pub sid: SharedText,
    pub recorded: Recorded,
    pub ghost alone: { All (λ e. e.caller ≡ 0) recorded.log },
    pub ghost named: { opened_sid recorded.log ≡ Some sid },
}

/// A directory of sessions that a store brought back. Its entries are of one caller, as a gate wants it of what it is made of.
#[derive(Drop)]
pub struct Restored {
    pub directory: Directory,
    pub ghost alone: { AreOf 0 directory },
}

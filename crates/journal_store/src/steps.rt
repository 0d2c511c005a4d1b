// Writing and cutting that is on the disk once it is done.
ghost use Rattle.std.specs.Prelude.{◌≡◌, ℕ, ◌≤◌, length, take};
ghost use Rattle.journal_store.specs.Crash.{EachCrash};
ghost use Rattle.journal_store.specs.Disk.{written, Torn, CutOrNot, Only, CountsDone};

use crate::disk::{Disk, DiskDone};

// Writes and syncs. A crash meanwhile leaves the content with any bytes in their place.
pub(crate) fn put<D: Disk>(disk: &mut D, at: u64, bytes: &[u8]) -> DiskDone
    requires { D.told → at ≤ length (D.seen disk.old) }
    ensures written { D.told → result ≡ DiskDone.Done → D.seen disk.new ≡ written at bytes.now (D.seen disk.old) }
    ensures durable { D.told → result ≡ DiskDone.Done → Only (D.seen disk.new) (D.left disk.new (D.time disk.new)) }
    ensures any_moment { D.told → Only (D.seen disk.old) (D.left disk.old (D.time disk.old)) →
        EachCrash D.time D.left disk.old disk.new (Torn at (length bytes.now) (D.seen disk.old)) }
    ensures faults { CountsDone (D.faults disk.old) (D.faults disk.new) result }
{
    match disk.write(at, bytes) {
        DiskDone::Done => disk.sync(),
        DiskDone::Failed => DiskDone::Failed,
    }
}

// Cuts and syncs. A crash meanwhile leaves the content whole or cut.
pub(crate) fn trim<D: Disk>(disk: &mut D, to: u64) -> DiskDone
    requires { D.told → to ≤ length (D.seen disk.old) }
    ensures cut { D.told → result ≡ DiskDone.Done → D.seen disk.new ≡ take to (D.seen disk.old) }
    ensures durable { D.told → result ≡ DiskDone.Done → Only (D.seen disk.new) (D.left disk.new (D.time disk.new)) }
    ensures any_moment { D.told → Only (D.seen disk.old) (D.left disk.old (D.time disk.old)) →
        EachCrash D.time D.left disk.old disk.new (CutOrNot to (D.seen disk.old)) }
    ensures faults { CountsDone (D.faults disk.old) (D.faults disk.new) result }
{
    match disk.cut(to) {
        DiskDone::Done => {}
        DiskDone::Failed => return DiskDone::Failed,
    }
    disk.sync()
}

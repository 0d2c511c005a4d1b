// Journals on a disk: one file of records, each on the disk before it is acknowledged. What a crash at any moment leaves of
// it is the row of records from before the call or the row after it.
#![tactic(auto)]

mod content;
mod disk;
mod fields;
mod file_disk;
mod group;
mod journal_file;
mod laws;
mod memory_disk;
mod opening;
mod reading;
mod record_file;
mod steps;

pub use content::write_content;
pub use disk::{Disk, DiskDone, Length};
pub use file_disk::FileDisk;
pub use group::{AddError, Group};
pub use journal_file::JournalFile;
pub use laws::{
    a_content_is_read_as_its_entry, an_image_has_one_row, an_image_has_the_entries_of_one_list,
    what_is_read_is_its_content,
};
pub use memory_disk::{Change, MemoryDisk};
pub use opening::{Begun, Finished, Next, Opening, RowError};
pub use reading::{ReadError, SessionEntry, read_content};
pub use record_file::{RecordFile, Stored};

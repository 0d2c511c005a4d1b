// What holds of rows of records.
ghost use Rattle.std.specs.Prelude.{◌≡◌, ℕ, List, ◌++◌, Some};
ghost use Rattle.session_journal.specs.declared.entry.Entry.{Entry};
ghost use Rattle.journal_store.specs.Contents.{content_of, HasContent};
ghost use Rattle.journal_store.specs.Entries.{AreEntriesOf, FitsContent, journal_in};
ghost use Rattle.journal_store.specs.Reading.{entry_at};
ghost use Rattle.journal_store.specs.Found.{IsBytes};
ghost use Rattle.journal_store.specs.declared.reading.SessionEntry.{SessionEntry};
ghost use Rattle.journal_store.specs.Records.{IsRowOf, file_of, HasLength};
ghost use Rattle.std.specs.List.{AllByRecursion};

/// An image has one row at most, and a whole file the row that it was made of.
pub fn an_image_has_one_row()
    ensures one { (image : List ℕ) (contents others : List (List ℕ)) → IsRowOf image contents → IsRowOf image others → contents ≡ others }
    ensures whole { (contents : List (List ℕ)) → AllByRecursion HasLength contents → IsRowOf (file_of contents) contents }
{}

/// What is written as the content of an entry is read as that entry.
pub fn a_content_is_read_as_its_entry()
    ensures { (session : ℕ) (e : Entry) → HasContent session e → entry_at (content_of session e) ≡ Some (record { session = session; entry = e }) }
{}

/// An image has the entries of one list at most; and what is stored goes behind the journal that each session had.
pub fn an_image_has_the_entries_of_one_list()
    ensures one { (image : List ℕ) (entries others : List SessionEntry) → AllByRecursion FitsContent entries → AllByRecursion FitsContent others →
        AreEntriesOf image entries → AreEntriesOf image others → entries ≡ others }
    ensures journals { (session : ℕ) (entries added : List SessionEntry) → journal_in session (entries ++ added) ≡ journal_in session entries ++ journal_in session added }
{}

/// What is read as an entry is what is written as its content, and nothing else is.
pub fn what_is_read_is_its_content()
    ensures { (bytes : List ℕ) (read : SessionEntry) → IsBytes bytes → entry_at bytes ≡ Some read → (bytes ≡ content_of read.session read.entry) × HasContent read.session read.entry }
{}

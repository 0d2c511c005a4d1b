// The limits of what a manager takes. Definitions have them from `specs/Limits.antt`.
ghost use Rattle.std.specs.Prelude.{◌≡◌};
ghost use Rattle.bosh_types.specs.Limits as limit;

/// How many bytes a body has at most.
pub const LONGEST_BODY: usize = 1048576;
/// How many children a body has at most.
pub const MOST_CHILDREN: usize = 1024;
/// How deep elements are nested at most.
pub const MOST_DEPTH: usize = 64;
/// How many attributes a tag has at most.
pub const MOST_ATTRIBUTES: usize = 32;
/// How many bytes a stanza, and the payload of a body, have at most.
pub const LONGEST_STANZA: usize = 1000000;
/// How many bytes the head of an HTTP message has at most.
pub const LONGEST_HEAD: usize = 8192;
/// How many fields the head of an HTTP message has at most.
pub const MOST_FIELDS: usize = 64;
/// How many items wait in a session at most.
pub const MOST_WAITING: usize = 1024;
/// How many bytes wait in a session at most.
pub const WAITING_BYTES: usize = 4194304;
/// How many counted bytes the journal of a session has at most.
pub const JOURNAL_BYTES: u64 = 16777216;
/// How many sessions are live at most.
pub const MOST_SESSIONS: u32 = 256;
/// How many sessions are opened in one run at most.
pub const MOST_OPENINGS: u32 = 1048576;
/// How many workers serve at most.
pub const MOST_WORKERS: u32 = 64;
/// How many streams a session has at most.
pub const MOST_STREAMS: u16 = 8;
/// How many lines a script has at most.
pub const MOST_LINES: u64 = 1000000;
/// How many bytes a line of a script has at most, without its LF.
pub const LONGEST_LINE: usize = 2097152;

/// These are the numbers that the definitions have.
pub fn limits_are_those_of_definitions()
    ensures longest_body { LONGEST_BODY ≡ limit.longest_body }
    ensures most_children { MOST_CHILDREN ≡ limit.most_children }
    ensures most_depth { MOST_DEPTH ≡ limit.most_depth }
    ensures most_attributes { MOST_ATTRIBUTES ≡ limit.most_attributes }
    ensures longest_stanza { LONGEST_STANZA ≡ limit.longest_stanza }
    ensures longest_head { LONGEST_HEAD ≡ limit.longest_head }
    ensures most_fields { MOST_FIELDS ≡ limit.most_fields }
    ensures most_waiting { MOST_WAITING ≡ limit.most_waiting }
    ensures waiting_bytes { WAITING_BYTES ≡ limit.waiting_bytes }
    ensures journal_bytes { JOURNAL_BYTES ≡ limit.journal_bytes }
    ensures most_sessions { MOST_SESSIONS ≡ limit.most_sessions }
    ensures most_openings { MOST_OPENINGS ≡ limit.most_openings }
    ensures most_workers { MOST_WORKERS ≡ limit.most_workers }
    ensures most_streams { MOST_STREAMS ≡ limit.most_streams }
    ensures most_lines { MOST_LINES ≡ limit.most_lines }
    ensures longest_line { LONGEST_LINE ≡ limit.longest_line }
{}

ghost use Rattle.std.specs.Prelude.{◌≡◌, ◌++◌, ℕ, List, Option, None};
ghost use Rattle.parked_gate.specs.Passes.{known};
ghost use Rattle.session_table.specs.History.{IsLegal};
ghost use Rattle.session_table.specs.declared.purse.Purse.{Purse};
ghost use Rattle.serve_loop.specs.Connections.{Outside, Serves};
ghost use Rattle.serve_loop.specs.Trail.{Setting};
ghost use Rattle.serve_loop.specs.declared.connection.ConnectionEnd.{ConnectionEnd};
ghost use Rattle.serve_loop.specs.declared.trail.Traced.{Traced};
ghost use Rattle.serve_loop.specs.Drawing.{OpensAsDrawn};
ghost use Rattle.trail_laws.specs.Asking.{AsksForEach};
ghost use Rattle.trail_laws.specs.Drawing.{NamesAsDrawn};
ghost use Rattle.trail_laws.specs.Naming.{NamesEach};
ghost use Rattle.trail_laws.specs.Rising.{HoldsOpened, PlacesRise};
ghost use Rattle.trail_laws.specs.Seeing.{SeesEach};
ghost use Rattle.session_table.specs.Purses.{held};
ghost use Rattle.trail_laws.specs.Superseding.{IsTakenByOthers};
ghost use Rattle.serve_loop.specs.declared.connection.ConnectionEnd.TheVariants.{Superseded};

/// What `serve_connection` says that it did: of the lines that it added to the trail, in order. Each line that the directory tells was
/// told by it in this call, one asking for each line, and is true of a beginning of what the worker's pass has seen of the directory in the end, which has
/// the openings that this connection's earlier lines name. And the name of a session that a line opened is a part that a name may
/// begin with, followed by its opening number. Where the connection ended since its request was superseded, all entries behind its arrival are other callers'.
pub fn each_trail_tells_the_directory()
    ensures asks { (site : Setting) (start : Outside) (left given : Option (List ℕ)) (added : List Traced) (purse : Purse) (faults : ℕ) (end : ConnectionEnd)
        → Serves site start left given (start.trail ++ added) purse faults end → AsksForEach added (known start.purse.directory) (known purse.directory) }
    ensures sees { (site : Setting) (start : Outside) (left given : Option (List ℕ)) (added : List Traced) (purse : Purse) (faults : ℕ) (end : ConnectionEnd)
        → Serves site start left given (start.trail ++ added) purse faults end → SeesEach site.limits added (known purse.directory) }
    ensures names { (site : Setting) (start : Outside) (left given : Option (List ℕ)) (added : List Traced) (purse : Purse) (faults : ℕ) (end : ConnectionEnd)
        → Serves site start left given (start.trail ++ added) purse faults end → IsLegal (known purse.directory).seen → NamesEach added (known purse.directory) }
    ensures superseded { (site : Setting) (start : Outside) (left given : Option (List ℕ)) (trail : List Traced) (purse : Purse) (faults : ℕ)
        → Serves site start left given trail purse faults Superseded → IsTakenByOthers site purse }
    ensures grew { (site : Setting) (start : Outside) (left given : Option (List ℕ)) (trail : List Traced) (purse : Purse) (faults : ℕ) (end : ConnectionEnd)
        → Serves site start left given trail purse faults end → (added : List Traced) × (trail ≡ start.trail ++ added) }
{}

/// With what `serve_connection` says that it drew: the name of each session that a line says was opened is one that was drawn in this call, followed by the
/// session's opening number.
pub fn each_name_was_drawn()
    ensures { (site : Setting) (start : Outside) (left given : Option (List ℕ)) (added : List Traced) (purse : Purse) (faults : ℕ) (end : ConnectionEnd)
        → Serves site start left given (start.trail ++ added) purse faults end → (old new : List (List ℕ)) (drew : OpensAsDrawn old new (known start.purse.directory) (known purse.directory))
        → NamesAsDrawn drew.names added (known purse.directory) }
{}

/// The places that the lines of one session name rise, and they name one caller, as long as the session isn't seen to have ended: it is let go then, and one
/// that is found again has another pass. What the worker held at first, it held as it holds what it finds and opens; a worker that held nothing did.
pub fn places_rise()
    ensures rise { (site : Setting) (start : Outside) (left given : Option (List ℕ)) (added : List Traced) (purse : Purse) (faults : ℕ) (end : ConnectionEnd)
        → Serves site start left given (start.trail ++ added) purse faults end → HoldsOpened start.purse → IsLegal (known purse.directory).seen → PlacesRise added }
    ensures at_first { (purse : Purse) → ((number : ℕ) → held purse.sessions number ≡ None) → HoldsOpened purse }
{}

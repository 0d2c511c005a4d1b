ghost use Rattle.std.specs.Prelude.{◌≡◌, ◌↔◌, ℕ, List, Some, None, Ok, Err};
ghost use Rattle.body_cutter.specs.declared.parts.Span.{Span};
ghost use Rattle.session_attrs.specs.declared.refusal.AttrRefusal.{AttrRefusal};
ghost use Rattle.session_attrs.specs.declared.request.Request.{Request};
ghost use Rattle.session_attrs.specs.Body.{Makes, request_in};
ghost use Rattle.session_attrs.specs.Meaning.{Means};
ghost use Rattle.session_attrs.specs.Reading.{request_of};
ghost use Rattle.session_attrs.specs.Refusal.{request_refusal};
ghost use Rattle.session_attrs.specs.Values.{Values};

/// Attributes and children mean at most one request, and they mean one exactly where no refusal's fact holds.
pub fn attributes_mean_one_request()
    ensures one { (v : Values) (children : List Span) (q r : Request) → Means v children q → Means v children r → q ≡ r }
    ensures some { (v : Values) (children : List Span) → ((q : Request) × Means v children q) ↔ (request_refusal v ≡ None) }
{}

/// Reading gives exactly the meaning, and refuses exactly with the first fact that holds.
pub fn reading_gives_the_meaning()
    ensures read { (v : Values) (children : List Span) (q : Request) → (request_of v children ≡ Ok q) ↔ Means v children q }
    ensures refused { (v : Values) (children : List Span) (refusal : AttrRefusal) → (request_of v children ≡ Err refusal) ↔ (request_refusal v ≡ Some refusal) }
{}

/// The text of a body makes a request exactly where it is cut into attributes and children that mean it, and it makes one.
pub fn bodies_make_requests()
    ensures makes { (text : List ℕ) (request : Request) → (request_in text ≡ Some request) ↔ Makes text request }
    ensures one { (text : List ℕ) (q r : Request) → Makes text q → Makes text r → q ≡ r }
{}

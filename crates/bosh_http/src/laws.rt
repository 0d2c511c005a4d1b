// Laws of the definitions, with no code.
ghost use Rattle.std.specs.Prelude.{◌≡◌, ℕ, List, Bool};
ghost use Rattle.bosh_http.specs.Message.{IsRequestMessage, HasRefusedHead, IsRefused};
ghost use Rattle.bosh_http.specs.Response.{IsResponseMessage, IsBadStream, EndsEarly};
ghost use Rattle.bosh_http.specs.declared.refusal.HttpRefusal.{HttpRefusal};

/// A stream is cut into messages in one way, a head has one refusal or none, and so has a stream, but none where a message
/// stands at its front.
pub fn streams_are_cut_in_one_way()
    ensures message { (stream content content' : List ℕ) (count count' : ℕ) (closing closing' : Bool) → IsRequestMessage stream count content closing → IsRequestMessage stream count' content' closing' → (count ≡ count') × (content ≡ content') × (closing ≡ closing') }
    ensures refusal { (stream : List ℕ) (refusal refusal' : HttpRefusal) → HasRefusedHead stream refusal → HasRefusedHead stream refusal' → refusal ≡ refusal' }
    ensures either { (stream content : List ℕ) (count : ℕ) (closing : Bool) (refusal : HttpRefusal) → IsRequestMessage stream count content closing → ¬ (HasRefusedHead stream refusal) }
    ensures refused { (stream : List ℕ) (refusal refusal' : HttpRefusal) → IsRefused stream refusal → IsRefused stream refusal' → refusal ≡ refusal' }
    ensures served { (stream content : List ℕ) (count : ℕ) (closing : Bool) (refusal : HttpRefusal) → IsRequestMessage stream count content closing → ¬ (IsRefused stream refusal) }
{}

/// A stream is cut into responses in one way, and a response, bytes that are none, and an end before one is whole exclude
/// each other.
pub fn responses_are_cut_in_one_way()
    ensures message { (stream content content' : List ℕ) (count count' status status' : ℕ) → IsResponseMessage stream count status content → IsResponseMessage stream count' status' content' → (count ≡ count') × (status ≡ status') × (content ≡ content') }
    ensures bad { (stream content : List ℕ) (count status : ℕ) → IsResponseMessage stream count status content → ¬ (IsBadStream stream) }
    ensures early { (stream content : List ℕ) (count status : ℕ) → IsResponseMessage stream count status content → ¬ (EndsEarly stream) }
    ensures apart { (stream : List ℕ) → IsBadStream stream → ¬ (EndsEarly stream) }
{}

ghost use Rattle.std.specs.Prelude.{◌≡◌, map, Ok};
ghost use Rattle.body_cutter.specs.declared.parts.Cut.{Cut};
ghost use Rattle.body_cutter.specs.BodyText.{IsBody};
ghost use Rattle.body_cutter.specs.Pieces.{bytes_at};
ghost use Rattle.body_writer.specs.declared.request.RequestParts.{RequestParts};
ghost use Rattle.body_writer.specs.ReadBack.{IsRequest};
ghost use Rattle.body_writer.specs.Request.{request_text};
ghost use Rattle.session_attrs.specs.Meaning.{Means};
ghost use Rattle.session_attrs.specs.Reading.{request_of};
ghost use Rattle.session_attrs.specs.Values.{values_of};
ghost use Rattle.session_core.specs.ReadBack.{IsInForm, asked_by};

/// The text of a request is a body's. However it is cut, it means what the client asked for, this is what is read, and
/// its children are the client's payloads.
pub fn written_requests_read_back()
    ensures body { (parts : RequestParts) → IsRequest parts → (cut : Cut) × IsBody (request_text parts) cut }
    ensures means { (parts : RequestParts) → IsRequest parts → IsInForm parts parts.creation → (cut : Cut) → IsBody (request_text parts) cut →
        Means (values_of (request_text parts) cut.attrs) cut.children (asked_by parts cut.children) }
    ensures read { (parts : RequestParts) → IsRequest parts → IsInForm parts parts.creation → (cut : Cut) → IsBody (request_text parts) cut →
        request_of (values_of (request_text parts) cut.attrs) cut.children ≡ Ok (asked_by parts cut.children) }
    ensures children { (parts : RequestParts) → IsRequest parts → (cut : Cut) → IsBody (request_text parts) cut →
        map (λ child. bytes_at (request_text parts) child) cut.children ≡ parts.payloads }
{}

// Why a request is refused.
ghost use Rattle.std.specs.Prelude.{◌≡◌};
ghost use Rattle.bosh_http.specs.Refusal.{status_of};

use http::StatusCode;

/// Why the bytes of a connection are not a request that is served.
#[derive(Clone, Copy, Debug, PartialEq, Eq)]
pub enum HttpRefusal {
    /// The stream ended inside the message, of which so many bytes had come.
    Cut(usize),
    /// The bytes begin no head.
    Malformed,
    /// The head has more than 8192 bytes, or more than 64 fields.
    HeadTooLarge,
    /// The field Host is missing in HTTP/1.1, or is there twice.
    BadHost,
    /// The method is `GET`, as where a person looks.
    Get,
    /// The method is neither `POST` nor `GET`.
    Method,
    /// The target isn't `/http-bind`.
    Path,
    /// There is a field Transfer-Encoding.
    Transfer,
    /// There is a Content-Encoding other than `identity`.
    Encoding,
    /// There is no field Content-Length.
    NoLength,
    /// A Content-Length isn't a number of 1 to 18 digits, or two are not the same number.
    BadLength,
    /// The content has more than 1,048,576 bytes.
    TooLong,
}

impl HttpRefusal {
    /// The status that a manager answers.
    pub fn status(self) -> StatusCode
        ensures { result ≡ status_of self }
    {
        match self {
            HttpRefusal::Cut(_) | HttpRefusal::Malformed | HttpRefusal::BadHost => {
                StatusCode::BAD_REQUEST
            }
            HttpRefusal::BadLength => StatusCode::BAD_REQUEST,
            HttpRefusal::HeadTooLarge => StatusCode::REQUEST_HEADER_FIELDS_TOO_LARGE,
            HttpRefusal::Get | HttpRefusal::Method => StatusCode::METHOD_NOT_ALLOWED,
            HttpRefusal::Path => StatusCode::NOT_FOUND,
            HttpRefusal::Transfer => StatusCode::NOT_IMPLEMENTED,
            HttpRefusal::Encoding => StatusCode::UNSUPPORTED_MEDIA_TYPE,
            HttpRefusal::NoLength => StatusCode::LENGTH_REQUIRED,
            HttpRefusal::TooLong => StatusCode::PAYLOAD_TOO_LARGE,
        }
    }
}

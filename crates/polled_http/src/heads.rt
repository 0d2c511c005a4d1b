// What differs between the heads of responses.
ghost use Rattle.std.specs.Prelude.{◌≡◌};
ghost use Rattle.bosh_http.specs.Texts.{allow_line, connection_line, phrase_of};

use http::StatusCode;

// The phrase of a status that a manager answers, and no phrase of any other.
pub(crate) fn phrase(status: StatusCode) -> &'static str
    ensures { result.now ≡ phrase_of status }
{
    match status.as_u16() {
        200 => "OK",
        400 => "Bad Request",
        404 => "Not Found",
        405 => "Method Not Allowed",
        411 => "Length Required",
        413 => "Content Too Large",
        415 => "Unsupported Media Type",
        431 => "Request Header Fields Too Large",
        501 => "Not Implemented",
        503 => "Service Unavailable",
        _ => "",
    }
}

pub(crate) fn allow(status: StatusCode) -> &'static str
    ensures { result.now ≡ allow_line status }
{
    if status.as_u16() == 405 {
        return "Allow: POST\r\n";
    }
    ""
}

pub(crate) fn connection(closing: bool) -> &'static str
    ensures { result.now ≡ connection_line closing }
{
    if closing {
        return "Connection: close\r\n";
    }
    ""
}

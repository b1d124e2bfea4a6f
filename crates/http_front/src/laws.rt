//! The laws of what requests ask, each the contract of a function without a body.
ghost use Rattle.std.specs.Prelude.{◌≡◌, ℕ, List};
ghost use Rattle.spec_server.specs.Words.{LineRead};
ghost use Rattle.spec_server.specs.Texts.{Asked};
ghost use Rattle.http_read.specs.declared.request.HttpRequest.{HttpRequest};
ghost use Rattle.spec_http.specs.Requests.{Asks, asked_over_http};
ghost use Rattle.raven_lines.specs.Lines.{Comes};
ghost use Rattle.http_front.specs.Asked.{IsFormedRequest};

/// What a request asks is refused, or is a request to the database that meets the conditions of the calls that answer it, without which
/// what they write would not open again.
pub fn requests_are_well_formed()
    ensures { (database : List ℕ) (request : HttpRequest) (asked : Asked) (read : LineRead) → asked_over_http database request ≡ Asks asked → Comes asked read → IsFormedRequest read }
{}

/// What is asked, by a request or a line, comes to one thing.
pub fn requests_are_read_one_way()
    ensures { (asked : Asked) (a b : LineRead) → Comes asked a → Comes asked b → a ≡ b }
{}

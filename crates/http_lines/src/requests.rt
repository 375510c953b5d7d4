//! The lines that HTTP requests begin with.
ghost use Rattle.std.specs.Prelude.{◌≡◌, nat_eq};
ghost use Rattle.std.specs.List.{list_any, starts_with};
ghost use Rattle.http_lines.specs.Requests.{is_http_request};

// The methods, each with the space after it.
const METHODS: [&[u8]; 6] = [
    b"CONNECT ",
    b"GET ",
    b"HEAD ",
    b"OPTIONS ",
    b"POST ",
    b"PUT ",
];

// Whether the line begins with one of the words.
fn begins_with_one(line: &[u8], words: &[&[u8]]) -> bool
    ensures { result ≡ list_any (λ word. starts_with nat_eq line.now word.now) words.now }
{
    words.iter().any(|word| line.starts_with(*word))
}

/// Whether a line begins an HTTP request of one of these methods: CONNECT, GET, HEAD, OPTIONS, POST, PUT.
///
/// A page can make a browser send such a request to a port of another protocol, with lines of that protocol in its body.
#[tactic(auto, unfolding(crate::specs::Requests::is_http_request))]
pub fn is_http_request(line: &[u8]) -> bool
    ensures { result ≡ is_http_request line.now }
{
    begins_with_one(line, &METHODS)
}

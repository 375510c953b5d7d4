//! Which lines begin an HTTP request.
use http_lines::is_http_request;
use mail_wire::Memory;
use std::alloc::Global;
use std::test::Fail;
use test_mail::{Case, all_hold};

// A line, and whether a request begins with it.
struct Line(&'static [u8], bool);

impl Case for Line {
    fn holds(&self, _alloc: Global) -> Result<bool, Memory> {
        let Line(line, is) = self;
        Ok(is_http_request(*line) == *is)
    }
}

const LINES: [(&str, &[Line]); 2] = [
    (
        "a method and a space begin a request",
        &[
            Line(b"GET / HTTP/1.1\r\n", true),
            Line(b"POST /mail HTTP/1.1\r\n", true),
            Line(b"PUT /a HTTP/1.1\r\n", true),
            Line(b"HEAD / HTTP/1.0\r\n", true),
            Line(b"OPTIONS * HTTP/1.1\r\n", true),
            Line(b"CONNECT mail.example:25 HTTP/1.1\r\n", true),
            Line(b"GET ", true),
        ],
    ),
    (
        "other lines don't",
        &[
            Line(b"", false),
            Line(b"GET", false),
            Line(b"GET\t/ HTTP/1.1\r\n", false),
            Line(b"get / HTTP/1.1\r\n", false),
            Line(b" GET / HTTP/1.1\r\n", false),
            Line(b"GETS / HTTP/1.1\r\n", false),
            Line(b"EHLO client.example\r\n", false),
        ],
    ),
];

#[test]
fn lines_of_requests_are_told_from_others(rt: HostRuntime) -> Result<(), Fail> {
    all_hold(rt.alloc(), &LINES)
}

//! The fields that are put before the data.
use address_grammar::read_path;
use mail_wire::Memory;
use smtp_session::{received_field, return_path_field};
use std::alloc::Global;

const DATE: &[u8] = b"Thu, 01 Jan 1970 00:00:00 +0000";

// Whether this is the field of a message that is received.
fn is_received(alloc: Global, wanted: &[u8]) -> Result<bool, Memory> {
    let field = received_field(alloc, b"client.example", b"mail.example", b"ESMTP", DATE)?;
    Ok(field.as_slice() == wanted)
}

// Whether this is the field of a path that isn't the null path.
fn is_returned(alloc: Global, path: &[u8], wanted: &[u8]) -> Result<bool, Memory> {
    match read_path(alloc, path) {
        Ok(Some(address)) => { Ok(return_path_field(alloc, &Some(address))?.as_slice() == wanted) }
        _ => Ok(false),
    }
}

// Whether this is the field of the null path.
fn is_null_path(alloc: Global, wanted: &[u8]) -> Result<bool, Memory> {
    Ok(return_path_field(alloc, &None)?.as_slice() == wanted)
}

#[test]
fn fields_are_written(rt: HostRuntime) {
    let wanted =
        b"Received: from client.example by mail.example with ESMTP; Thu, 01 Jan 1970 00:00:00 +0000\r\n";
    assert!(rt; is_received(rt.alloc(), wanted) == Ok(true));
    assert!(rt; is_null_path(rt.alloc(), b"Return-Path: <>\r\n") == Ok(true));
    assert!(rt;
        is_returned(
            rt.alloc(),
            b"<a.b@c.example>",
            b"Return-Path: <a.b@c.example>\r\n"
        ) == Ok(true)
    );
}

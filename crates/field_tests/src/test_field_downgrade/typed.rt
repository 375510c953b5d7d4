//! Addresses after their type, by the public calls.
use crate::test_field_downgrade::rows::Row;
use std::test::Fail;
use test_mail::all_hold;

const ROWS: [(&str, &[Row]); 2] = [
    (
        "UTF-8 addresses are escaped",
        &[
            Row::Field(
                "Original-Recipient: utf-8; josé@example.com\r\n",
                "Original-Recipient:\r\n utf-8; jos\\x{E9}@example.com\r\n",
            ),
            Row::Field(
                "Original-Recipient:  UTF-8 ;é\r\n",
                "Original-Recipient:\r\n utf-8; \\x{E9}\r\n",
            ),
            Row::Field(
                "Original-Recipient: utf-8;é\\x{E9}\r\n",
                "Original-Recipient:\r\n utf-8; \\x{E9}\\x{E9}\r\n",
            ),
        ],
    ),
    (
        "other types have no pieces",
        &[
            Row::Field(
                "Original-Recipient: rfc822;é\r\n",
                "Downgraded-Original-Recipient:\r\n =?UTF-8?B?cmZjODIyO8Op?=\r\n",
            ),
            Row::Field(
                "Original-Recipient: utf-8; é\\x{zz}\r\n",
                "Downgraded-Original-Recipient:\r\n =?UTF-8?B?dXRmLTg7IMOpXHh7enp9?=\r\n",
            ),
            Row::Field(
                "Original-Recipient: é;a\r\n",
                "Downgraded-Original-Recipient:\r\n =?UTF-8?B?w6k7YQ==?=\r\n",
            ),
            Row::Field(
                "Original-Recipient: utf-8 é\r\n",
                "Downgraded-Original-Recipient:\r\n =?UTF-8?Q?utf-8_=C3=A9?=\r\n",
            ),
        ],
    ),
];

#[test]
fn typed_addresses_are_rewritten(rt: HostRuntime) -> Result<(), Fail> {
    all_hold(rt.alloc(), &ROWS)
}

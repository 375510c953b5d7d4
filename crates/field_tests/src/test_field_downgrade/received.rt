//! Received fields, by the public calls.
use crate::test_field_downgrade::rows::Row;
use std::test::Fail;
use test_mail::all_hold;

const ROWS: [(&str, &[Row]); 5] = [
    (
        "clauses beyond ASCII are dropped",
        &[
            Row::Field(
                "Received: from a by b for <é@x>; Thu, 01 Jan 1970 00:00:00 +0000\r\n",
                "Received:\r\n from a\r\n by b\r\n ; Thu, 01 Jan 1970 00:00:00 +0000\r\n",
            ),
            Row::Field("Received: for é\r\n", "Received:\r\n"),
            Row::Field("Received: for é(x)\r\n", "Received:\r\n (x)\r\n"),
        ],
    ),
    (
        "hosts are served in their form",
        &[
            Row::Field(
                "Received: From bücher.example;\r\n",
                "Received:\r\n From xn--bcher-kva.example\r\n ;\r\n",
            ),
            Row::Field("Received: by \u{ff46}or\r\n", "Received:\r\n"),
            Row::Field("Received: by é.\u{ff46}or\r\n", "Received:\r\n"),
            Row::Field(
                "Received: from bücher.example (x) y é\r\n",
                "Received:\r\n (x)\r\n",
            ),
        ],
    ),
    (
        "comments stand after their clause",
        &[
            Row::Field(
                "Received: (é)\r\n",
                "Received:\r\n (\r\n =?UTF-8?B?w6k=?=\r\n )\r\n",
            ),
            Row::Field(
                "Received: (a) FROM (b) c  d(e)by;(f)1;2(é)\r\n",
                "Received:\r\n (a)\r\n FROM c d\r\n (b)\r\n (e)\r\n by\r\n ; 1;2\r\n (f)\r\n (\r\n =?UTF-8?B?w6k=?=\r\n )\r\n",
            ),
        ],
    ),
    (
        "a word that starts no clause is malformed",
        &[
            Row::Field(
                "Received: a by é\r\n",
                "Downgraded-Received:\r\n =?UTF-8?Q?a_by_=C3=A9?=\r\n",
            ),
            Row::Field(
                "Received: \"by\" é\r\n",
                "Downgraded-Received:\r\n =?UTF-8?B?ImJ5IiDDqQ==?=\r\n",
            ),
            Row::Field(
                "Received: by b; é\r\n",
                "Downgraded-Received:\r\n =?UTF-8?B?YnkgYjsgw6k=?=\r\n",
            ),
            Row::Field(
                "Received: by é)\r\n",
                "Downgraded-Received:\r\n =?UTF-8?B?Ynkgw6kp?=\r\n",
            ),
        ],
    ),
    (
        "there may be no clause",
        &[
            Row::Field(
                "Received: (é)\r\n",
                "Received:\r\n (\r\n =?UTF-8?B?w6k=?=\r\n )\r\n",
            ),
            Row::Field(
                "Received:  ; 1(é)\r\n",
                "Received:\r\n ; 1\r\n (\r\n =?UTF-8?B?w6k=?=\r\n )\r\n",
            ),
        ],
    ),
];

#[test]
fn traces_are_rewritten(rt: HostRuntime) -> Result<(), Fail> {
    all_hold(rt.alloc(), &ROWS)
}

//! Dates, versions and encodings, by the public calls.
use crate::test_field_downgrade::rows::Row;
use std::test::Fail;
use test_mail::all_hold;

const ROWS: [(&str, &[Row]); 4] = [
    (
        "gaps are one space",
        &[
            Row::Field(
                "Date: Mon,  1 Jan(é)\r\n",
                "Date:\r\n Mon, 1 Jan\r\n (\r\n =?UTF-8?B?w6k=?=\r\n )\r\n",
            ),
            Row::Field(
                "Date:  \t(é)\r\n",
                "Date:\r\n (\r\n =?UTF-8?B?w6k=?=\r\n )\r\n",
            ),
        ],
    ),
    (
        "comments come last",
        &[
            Row::Field(
                "Date: Mon,  1 (é) Jan\r\n",
                "Date:\r\n Mon, 1 Jan\r\n (\r\n =?UTF-8?B?w6k=?=\r\n )\r\n",
            ),
            Row::Field(
                "MIME-Version: (é) 1.0(b)\r\n",
                "MIME-Version:\r\n 1.0\r\n (\r\n =?UTF-8?B?w6k=?=\r\n )\r\n (b)\r\n",
            ),
            Row::Field(
                "Content-Transfer-Encoding: (é)7bit\r\n",
                "Content-Transfer-Encoding:\r\n 7bit\r\n (\r\n =?UTF-8?B?w6k=?=\r\n )\r\n",
            ),
        ],
    ),
    (
        "text is ASCII outside comments",
        &[
            Row::Field("Date: é\r\n", "Downgraded-Date:\r\n =?UTF-8?B?w6k=?=\r\n"),
            Row::Field(
                "Date: (é)a)\r\n",
                "Downgraded-Date:\r\n =?UTF-8?B?KMOpKWEp?=\r\n",
            ),
        ],
    ),
    (
        "an encoding is one atom",
        &[
            Row::Field(
                "Content-Transfer-Encoding: 7bit(é)\r\n",
                "Content-Transfer-Encoding:\r\n 7bit\r\n (\r\n =?UTF-8?B?w6k=?=\r\n )\r\n",
            ),
            Row::Field(
                "Content-Transfer-Encoding: 7 bit(é)\r\n",
                "Content-Transfer-Encoding:\r\n =?UTF-8?B?NyBiaXQow6kp?=\r\n",
            ),
            Row::Field(
                "Content-Transfer-Encoding: \"7bit\"(é)\r\n",
                "Content-Transfer-Encoding:\r\n =?UTF-8?B?IjdiaXQiKMOpKQ==?=\r\n",
            ),
            Row::Field(
                "Content-Transfer-Encoding: (é)\r\n",
                "Content-Transfer-Encoding:\r\n =?UTF-8?B?KMOpKQ==?=\r\n",
            ),
        ],
    ),
];

#[test]
fn dates_versions_and_encodings_are_rewritten(rt: HostRuntime) -> Result<(), Fail> {
    all_hold(rt.alloc(), &ROWS)
}

//! The worked rows, by the public calls.
use crate::test_field_downgrade::rows::Row;
use field_downgrade::Kind;
use param_grammar::ParamKind;
use std::test::Fail;
use test_mail::all_hold;

const FIELDS: [(&str, &[Row]); 10] = [
    (
        "words beyond ASCII that stand together are encoded together",
        &[
            Row::Field(
                "Subject: café bar\r\n",
                "Subject:\r\n =?UTF-8?B?Y2Fmw6k=?=\r\n bar\r\n",
            ),
            Row::Field("Subject:é", "Subject:\r\n =?UTF-8?B?w6k=?="),
            Row::Field(
                "Subject: naïve reading of café\r\n",
                "Subject:\r\n =?UTF-8?Q?na=C3=AFve_reading_of_caf=C3=A9?=\r\n",
            ),
            Row::Field("Subject: é\r\n \r\n", "Subject:\r\n =?UTF-8?B?w6k=?=\r\n"),
            Row::Field(
                "Subject:a\té\r\n",
                "Subject:\r\n a\r\n\t=?UTF-8?B?w6k=?=\r\n",
            ),
            Row::Field(
                "Subject: ああああああああああああああああ\r\n",
                "Subject:\r\n =?UTF-8?B?44GC44GC44GC44GC44GC44GC44GC44GC44GC44GC44GC44GC44GC44GC44GC?=\r\n =?UTF-8?B?44GC?=\r\n",
            ),
        ],
    ),
    (
        "white beside them goes along, and folds go",
        &[
            Row::Field(
                "Subject: abc  é  def\r\n",
                "Subject:\r\n abc\r\n =?UTF-8?Q?_=C3=A9_?=\r\n def\r\n",
            ),
            Row::Field(
                "Subject: abc \r\n é  def\r\n",
                "Subject:\r\n abc\r\n =?UTF-8?Q?_=C3=A9_?=\r\n def\r\n",
            ),
            Row::Field(
                "Subject: a é =?ISO-8859-1?Q?x?= b ü c\r\n",
                "Subject:\r\n a\r\n =?UTF-8?B?w6kg?=\r\n =?ISO-8859-1?Q?x?= b\r\n =?UTF-8?B?w7w=?=\r\n c\r\n",
            ),
            Row::Field(
                "Subject: plain \r\n text\r\n",
                "Subject: plain \r\n text\r\n",
            ),
        ],
    ),
    (
        "keywords are phrases",
        &[
            Row::Field(
                "Keywords: é, b\r\n",
                "Keywords:\r\n =?UTF-8?B?w6k=?=\r\n ,\r\n b\r\n",
            ),
            Row::Field(
                "Keywords: (é)\"\"\r\n",
                "Keywords:\r\n \"\"\r\n (\r\n =?UTF-8?B?w6k=?=\r\n )\r\n",
            ),
            Row::Field(
                "keywords : é =?UTF-8?Q?x?=.\"y\"",
                "keywords:\r\n =?UTF-8?B?w6kgPT9VVEYtOD9RP3g/PS55?=",
            ),
            Row::Field(
                "Keywords: é,,b\r\n",
                "Downgraded-Keywords:\r\n =?UTF-8?B?w6ksLGI=?=\r\n",
            ),
        ],
    ),
    (
        "addresses are rewritten",
        &[
            Row::Field(
                "From: José <josé@example.com>\r\n",
                "From:\r\n =?UTF-8?B?Sm9zw6kgam9zw6lAZXhhbXBsZS5jb20=?=\r\n :;\r\n",
            ),
            Row::Field(
                "To: Ann <a@bücher.example>, (x) b@example.com\r\n",
                "To:\r\n Ann\r\n <a@xn--bcher-kva.example>,\r\n (x) b@example.com\r\n",
            ),
            Row::Field(
                "Cc: Team: a@bücher.example;\r\n",
                "Cc:\r\n Team\r\n :\r\n a@xn--bcher-kva.example\r\n ;\r\n",
            ),
            Row::Field("To: é\r\n", "Downgraded-To:\r\n =?UTF-8?B?w6k=?=\r\n"),
        ],
    ),
    (
        "dates and encodings have comments",
        &[
            Row::Field(
                "Date: Thu, 01 Jan 1970 00:00:00 +0000 (é)\r\n",
                "Date:\r\n Thu, 01 Jan 1970 00:00:00 +0000\r\n (\r\n =?UTF-8?B?w6k=?=\r\n )\r\n",
            ),
            Row::Field(
                "Date: (é\\ )\r\n",
                "Date:\r\n (\r\n =?UTF-8?B?w6kg?=\r\n )\r\n",
            ),
            Row::Field(
                "MIME-Version: é\r\n",
                "Downgraded-MIME-Version:\r\n =?UTF-8?B?w6k=?=\r\n",
            ),
            Row::Field(
                "Content-Transfer-Encoding: é",
                "Content-Transfer-Encoding:\r\n =?UTF-8?B?w6k=?=",
            ),
        ],
    ),
    (
        "parameters are extended",
        &[
            Row::Field(
                "Content-Disposition: attachment; filename=\"é.txt\"\r\n",
                "Content-Disposition:\r\n attachment;\r\n filename*=UTF-8''%C3%A9.txt\r\n",
            ),
            Row::Field(
                "Content-Disposition: attachment; filename=é; filename=b\r\n",
                "Content-Disposition:\r\n attachment;\r\n filename*=UTF-8''%C3%A9;\r\n filename=b\r\n",
            ),
            Row::Field(
                "Content-Disposition: attachment; filename=éééééééééÉa\r\n",
                "Content-Disposition:\r\n attachment;\r\n filename*0*=UTF-8''%C3%A9%C3%A9%C3%A9%C3%A9%C3%A9%C3%A9%C3%A9%C3%A9%C3%A9%C3%89;\r\n filename*1*=a\r\n",
            ),
            Row::Field(
                "Content-Disposition: é\r\n",
                "Downgraded-Content-Disposition:\r\n =?UTF-8?B?w6k=?=\r\n",
            ),
            Row::Field(
                "Content-Type: é\r\n",
                "Content-Type:\r\n =?UTF-8?B?w6k=?=\r\n",
            ),
        ],
    ),
    (
        "fields that can't be rewritten are kept aside",
        &[
            Row::Field(
                "Message-ID: <é@x>\r\n",
                "Downgraded-Message-ID:\r\n =?UTF-8?B?PMOpQHg+?=\r\n",
            ),
            Row::Field(
                "Return-Path: <josé@example.com>\r\n",
                "Downgraded-Return-Path:\r\n =?UTF-8?B?PGpvc8OpQGV4YW1wbGUuY29tPg==?=\r\n",
            ),
            Row::Field(
                "Return-Path: <>(é)\r\n",
                "Downgraded-Return-Path:\r\n =?UTF-8?B?PD4ow6kp?=\r\n",
            ),
            Row::Field(
                "Final-Recipient: rfc822;é\r\n",
                "Downgraded-Final-Recipient:\r\n =?UTF-8?B?cmZjODIyO8Op?=\r\n",
            ),
            Row::Field("-: é\r\n", "Downgraded--:\r\n =?UTF-8?B?w6k=?=\r\n"),
            Row::Field("To: é\r\n", "Downgraded-To:\r\n =?UTF-8?B?w6k=?=\r\n"),
            Row::Field("To: é", "Downgraded-To:\r\n =?UTF-8?B?w6k=?="),
        ],
    ),
    (
        "traces and recipients are rewritten",
        &[
            Row::Field(
                "Received: from a by b for <é@x>; Thu, 01 Jan 1970 00:00:00 +0000\r\n",
                "Received:\r\n from a\r\n by b\r\n ; Thu, 01 Jan 1970 00:00:00 +0000\r\n",
            ),
            Row::Field("Received: by ｆor\r\n", "Received:\r\n"),
            Row::Field(
                "Return-Path: <a@bücher.example>\r\n",
                "Return-Path:\r\n <a@xn--bcher-kva.example>\r\n",
            ),
            Row::Field(
                "Original-Recipient: utf-8; josé@example.com\r\n",
                "Original-Recipient:\r\n utf-8; jos\\x{E9}@example.com\r\n",
            ),
        ],
    ),
    (
        "an opened global message is called a message",
        &[
            Row::Opened(
                "Content-Type : (global) Message/\r\n GLOBAL (x); a=global\r\n",
                "Content-Type : (global) Message/\r\n rfc822 (x); a=global\r\n",
            ),
            Row::Opened(
                "Content-Type: message/\r\n global; a=1\t\r\n",
                "Content-Type: message/\r\n rfc822; a=1\t\r\n",
            ),
            Row::Opened(
                "Content-Type:\r\n\t(global)\r\n message/global; a=global",
                "Content-Type:\r\n\t(global)\r\n message/rfc822; a=global",
            ),
            Row::Opened(
                "Content-Type: text/global\r\n",
                "Content-Type: text/global\r\n",
            ),
            Row::Opened(
                "Content-Type: Message/Global; a=é\r\n",
                "Content-Type:\r\n message/rfc822;\r\n a*=UTF-8''%C3%A9\r\n",
            ),
            Row::Opened(
                "Content-Disposition: global\r\n",
                "Content-Disposition: global\r\n",
            ),
            Row::Opened(
                "Content-Type: message/global; x\r\n",
                "Content-Type: message/global; x\r\n",
            ),
        ],
    ),
    (
        "and one that isn't opened stays",
        &[Row::Field(
            "Content-Type: message/global\r\n",
            "Content-Type: message/global\r\n",
        )],
    ),
];

#[test]
fn fields_are_rewritten(rt: HostRuntime) -> Result<(), Fail> {
    all_hold(rt.alloc(), &FIELDS)
}

const KINDS: [(&str, &[Row]); 1] = [(
    "kinds are known in any case",
    &[
        Row::Kind(
            &[
                "FROM",
                "sender",
                "reply-to",
                "TO",
                "CC",
                "bcc",
                "resent-from",
                "RESENT-SENDER",
                "resent-reply-to",
                "resent-to",
                "resent-cc",
                "resent-bcc",
            ],
            Kind::Addresses,
        ),
        Row::Kind(
            &[
                "message-id",
                "resent-message-id",
                "IN-REPLY-TO",
                "references",
                "Content-Id",
            ],
            Kind::Ids,
        ),
        Row::Kind(
            &[
                "DATE",
                "resent-date",
                "Mime-Version",
                "content-transfer-encoding",
            ],
            Kind::Plain,
        ),
        Row::Kind(&["KEYWORDS"], Kind::Phrases),
        Row::Kind(&["content-type"], Kind::Params(ParamKind::Content)),
        Row::Kind(
            &["CONTENT-DISPOSITION"],
            Kind::Params(ParamKind::Disposition),
        ),
        Row::Kind(&["return-path"], Kind::Path),
        Row::Kind(&["original-recipient", "FINAL-RECIPIENT"], Kind::Typed),
        Row::Kind(&["received"], Kind::Trace),
        Row::Kind(&["Subject", "From-"], Kind::Unstructured),
    ],
)];

#[test]
fn kinds_are_known(rt: HostRuntime) -> Result<(), Fail> {
    all_hold(rt.alloc(), &KINDS)
}

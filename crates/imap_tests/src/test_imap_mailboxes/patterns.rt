//! LIST's patterns.
use imap_mailboxes::Pattern;
use mail_wire::Memory;
use std::alloc::Global;
use std::test::Fail;
use test_mail::{Case, all_hold};

// A reference, a pattern, a name, and whether it matches.
struct Match(&'static [u8], &'static [u8], &'static [u8], bool);

impl Case for Match {
    fn holds(&self, alloc: Global) -> Result<bool, Memory> {
        let pattern = Pattern::new(alloc, self.0, self.1)?;
        Ok(pattern.matches(self.2) == self.3)
    }
}

const MATCHES: [(&str, &[Match]); 5] = [
    (
        "wildcards match any octets",
        &[
            Match(b"", b"*", b"", true),
            Match(b"", b"*", b"INBOX", true),
            Match(b"", b"%", b"INBOX", true),
            Match(b"", b"***", b"a/b", true),
            Match(b"", b"I*X", b"INBOX", true),
            Match(b"", b"I%X", b"INBOX", true),
            Match(b"", b"*INBOX*", b"INBOX", true),
            Match(b"", b"a*", b"a\xc3\xbc", true),
        ],
    ),
    (
        "octets match one after another",
        &[
            Match(b"", b"", b"", true),
            Match(b"", b"INBOX", b"INBOX", true),
            Match(b"", b"I*N%BO*X", b"INBOX", true),
            Match(b"", b"a*b*c", b"abc", true),
            Match(b"", b"a*b*c", b"a..b..b..c", true),
            Match(b"", b"a*bc*bc", b"abcbc", true),
            Match(b"", b"*ab", b"aab", true),
            Match(b"", b"*aab", b"aaab", true),
            Match(b"", b"%a%a%", b"aa", true),
        ],
    ),
    (
        "other names do not match",
        &[
            Match(b"", b"", b"INBOX", false),
            Match(b"", b"INBOX", b"", false),
            Match(b"", b"INBOX", b"INBOX2", false),
            Match(b"", b"INBOX", b"inbox", false),
            Match(b"", b"INBO", b"INBOX", false),
            Match(b"", b"I*X", b"INBOXES", false),
            Match(b"", b"a?c", b"abc", false),
        ],
    ),
    (
        "names without room for each run do not match",
        &[
            Match(b"", b"I*X", b"BIX", false),
            Match(b"", b"I*X", b"I", false),
            Match(b"", b"a*a", b"a", false),
            Match(b"", b"a*b*c", b"acb", false),
            Match(b"", b"a*bc*bc", b"abc", false),
            Match(b"", b"%a%a%", b"a", false),
            Match(b"", b"*ab*", b"a-b", false),
        ],
    ),
    (
        "the reference stands before the pattern",
        &[
            Match(b"Arch", b"ive*", b"Archive", true),
            Match(b"Arch", b"ive*", b"Archive 2026", true),
            Match(b"Arch", b"ive*", b"ive", false),
            Match(b"*", b"", b"Archive", true),
        ],
    ),
];

#[test]
fn patterns_match_names(rt: HostRuntime) -> Result<(), Fail> {
    all_hold(rt.alloc(), &MATCHES)
}

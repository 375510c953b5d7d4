//! Domains with and without a form; the forms are those of Python's `idna` package (RFC 5891, UTS #46).
use ace_domains::{normal, same};
use mail_wire::Memory;
use std::alloc::Global;
use std::test::Fail;
use test_mail::{Case, all_hold};

// What is asked of domains.
enum Row {
    // a domain and its form
    Form(&'static str, &'static str),
    // a domain that has none
    Formless(&'static str),
    // a label of so many octets, which has itself as its form, or has none
    Label(usize),
    LabelFormless(usize),
    // two domains, and whether they are the same
    Same(&'static str, &'static str, bool),
}

impl Case for Row {
    fn holds(&self, alloc: Global) -> Result<bool, Memory> {
        match self {
            Row::Form(domain, form) => has_form(alloc, *domain, *form),
            Row::Formless(domain) => has_none(alloc, *domain),
            Row::Label(len) => is_label(alloc, *len),
            Row::LabelFormless(len) => is_no_label(alloc, *len),
            Row::Same(a, b, are) => Ok(same(alloc, *a, *b)? == *are),
        }
    }
}

fn has_form(alloc: Global, domain: &str, form: &str) -> Result<bool, Memory> {
    match normal(alloc, domain)? {
        Some(found) => Ok(found.as_slice() == form.as_bytes()),
        None => Ok(false),
    }
}

fn has_none(alloc: Global, domain: &str) -> Result<bool, Memory> {
    Ok(normal(alloc, domain)?.is_none())
}

fn label_of(alloc: Global, len: usize) -> Result<String, Memory> {
    let mut label = String::new(alloc);
    for _ in 0..len {
        label.push('a')?;
    }
    Ok(label)
}

fn is_label(alloc: Global, len: usize) -> Result<bool, Memory> {
    let label = label_of(alloc, len)?;
    has_form(alloc, &label, &label)
}

fn is_no_label(alloc: Global, len: usize) -> Result<bool, Memory> {
    has_none(alloc, &label_of(alloc, len)?)
}

const ROWS: [(&str, &[Row]); 6] = [
    (
        "domains have these forms",
        &[
            Row::Form("bücher.example", "xn--bcher-kva.example"),
            Row::Form("BÜCHER.example", "xn--bcher-kva.example"),
            Row::Form("bu\u{308}cher.example", "xn--bcher-kva.example"),
            Row::Form("xn--bcher-kva.example", "xn--bcher-kva.example"),
            Row::Form("\u{ff41}.b", "a.b"),
            Row::Form("a\u{3002}b", "a.b"),
            Row::Form("straße.de", "xn--strae-oqa.de"),
            Row::Form("例え.テスト", "xn--r8jz45g.xn--zckzah"),
            Row::Form("mail-1.example.org", "mail-1.example.org"),
        ],
    ),
    (
        "domains against the rules have no form",
        &[
            Row::Formless(""),
            Row::Formless("a..b"),
            Row::Formless(".a"),
            Row::Formless("a.b."),
            Row::Formless("a_b"),
            Row::Formless("a b"),
            Row::Formless("a@b"),
            Row::Formless("-a.b"),
            Row::Formless("a-.b"),
            Row::Formless("ab--c.d"),
            Row::Formless("xn--a.b"),
            Row::Formless("xn--"),
        ],
    ),
    (
        "a label has 63 octets at most",
        &[Row::Label(63), Row::LabelFormless(64)],
    ),
    // UTS #46, 4.1, criteria 8 and 9.
    (
        "a joiner needs a virama before it",
        &[
            Row::Formless("a\u{200c}b"),
            Row::Formless("a\u{200d}b"),
            Row::Form("क\u{94d}\u{200d}ष", "xn--11b2ezcw70k"),
        ],
    ),
    (
        "the Bidi Rule holds of every label as soon as one is right to left",
        &[
            Row::Formless("א.0a"),
            Row::Formless("aא.b"),
            Row::Formless("0à.א"),
            Row::Form("à.א", "xn--0ca.xn--4db"),
            Row::Form("0à.b", "xn--0-sfa.b"),
        ],
    ),
    (
        "sameness is that of forms",
        &[
            Row::Same("EXAMPLE.org", "example.org", true),
            Row::Same("BÜCHER.example", "xn--bcher-kva.example", true),
            Row::Same("a_b", "a_b", true),
            Row::Same("a_b", "A_b", false),
            Row::Same("a_b", "c_d", false),
            Row::Same("straße.de", "strasse.de", false),
            Row::Same("example.org", "example.org.", false),
        ],
    ),
];

#[test]
fn domains_have_forms_and_are_the_same_by_them(rt: HostRuntime) -> Result<(), Fail> {
    all_hold(rt.alloc(), &ROWS)
}

//! Parameters of MAIL and RCPT (RFC 5321, 4.1.2).
ghost use Rattle.std.specs.Prelude.{◌≡◌, ◌||◌, count_by};
ghost use Rattle.std.specs.List.{list_all};
ghost use Rattle.std.specs.Option.{option_copied};
ghost use Rattle.dsn_terms.specs.Parameters.{behind as behind_of, begins as begins_of, are_parameters as are_parameters_of, value_under as value_under_of};

use mail_wire::{Octets, is_same_name};

/// What follows a front, in any case of its letters, where the text begins with it.
#[tactic(auto, unfolding(crate::specs::Parameters::behind))]
pub(crate) fn behind<'a>(front: &[u8], text: &'a [u8]) -> Option<&'a [u8]>
    ensures { option_copied result ≡ behind_of front.now text.now }
{
    let (first, rest) = text.split_at_checked(front.len())?;
    if is_same_name(first, front) {
        Some(rest)
    } else {
        None
    }
}

fn begins(front: &[u8], text: &[u8]) -> bool
    ensures { result ≡ begins_of front.now text.now }
{
    behind(front, text).is_some()
}

// How many words begin with this front.
fn begin_count(front: &[u8], words: &[Octets]) -> usize
    ensures { result ≡ count_by (begins_of front.now) words.now }
{
    words
        .iter()
        .filter(|word| begins(front, word.as_slice()))
        .count()
}

fn are_known(first: &[u8], second: &[u8], words: &[Octets]) -> bool
    ensures { result ≡ list_all (λ word. begins_of first.now word || begins_of second.now word) words.now }
{
    words.iter().all(|word| begins(first, word.as_slice()) || begins(second, word.as_slice()))
}

/// Whether each word begins with one of two keywords and its `=`, and neither is there twice.
pub(crate) fn are_parameters(first: &[u8], second: &[u8], words: &[Octets]) -> bool
    ensures { result ≡ are_parameters_of first.now second.now words.now }
{
    are_known(first, second, words)
        && begin_count(first, words) <= 1
        && begin_count(second, words) <= 1
}

/// The value of the first word that begins with this keyword and its `=`.
pub(crate) fn value_under<'a>(keyword: &[u8], words: &'a [Octets]) -> Option<&'a [u8]>
    ensures { option_copied result ≡ value_under_of keyword.now words.now }
{
    for word in words {
        let value = behind(keyword, word.as_slice());
        if value.is_some() {
            return value;
        }
    }
    None
}

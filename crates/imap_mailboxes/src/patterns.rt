//! The patterns of LIST (RFC 3501, 6.3.8).
ghost use Rattle.std.specs.Prelude.{◌≡◌, ◌≤◌, ◌<◌, ℕ, List, ◌∷◌, ◌++◌, length, drop, position, IfOk, MatchOption, false, true};
ghost use Rattle.std.specs.List.{list_all, count_by};
ghost use Rattle.imap_words.specs.Tokens.{is_list_wildcard};
ghost use Rattle.imap_mailboxes.specs.Patterns.{is_match};
ghost use Rattle.imap_mailboxes.specs.private.Runs.{is_no_wildcard, ArePlainRuns, IsCut, plain_runs, after_wildcards};

use mail_wire::{Memory, Octets, Span};
use memchr::memmem;
use std::alloc::Global;
use std::marker::Model;

/// A pattern, cut into the runs of octets between its wildcards. Contracts see the octets of the pattern.
#[derive(Drop)]
pub struct Pattern {
    octets: Octets,
    // how many of them are no wildcards
    plain: usize,
    // where the first wildcard stands, or after all octets
    first: usize,
    // the runs between two wildcards that have an octet at least
    runs: Vec<Span>,
    // where what follows the last wildcard begins
    last: usize,
}

impl Model for Pattern {
    ghost use Rattle.std.specs.Prelude.{List, ℕ};
    ghost use Rattle.imap_mailboxes.specs.private.Runs.{IsCutWhole};

    ghost Value = { List ℕ };

    ghost view = { λ a. a.octets };

    ghost invariant = { λ a. IsCutWhole a.octets a.plain a.first a.runs.items a.last };
}

fn is_wildcard(octet: u8) -> bool
    ensures { result ≡ is_list_wildcard octet }
{
    octet == b'%' || octet == b'*'
}

fn plain_len(octets: &[u8]) -> usize
    ensures { result ≡ count_by is_no_wildcard octets.now }
{
    octets.iter().filter(|octet| !is_wildcard(**octet)).count()
}

fn find_wildcard(octets: &[u8]) -> Option<usize>
    ensures { result ≡ position is_list_wildcard octets.now }
{
    octets.iter().position(|octet| is_wildcard(*octet))
}

// The runs between two wildcards, and where what follows the last one begins, where the first one stands before this place.
fn cut(alloc: Global, octets: &[u8], from: usize) -> Result<(Vec<Span>, usize), Memory>
    requires { from ≤ length octets.now }
    ensures { IfOk result (λ r. IsCut octets.now from r.0.items r.1) }
{
    let mut runs = Vec::new(alloc);
    let mut begin = from;
    for place in from..octets.len() {
        if is_wildcard(octets[place]) {
            if begin < place {
                runs.push(Span {
                    at: begin,
                    len: place - begin,
                })?;
            }
            begin = place + 1;
        }
    }
    Ok((runs, begin))
}

// What follows the first place where the run stands in the name.
fn after_run<'a>(run: &[u8], name: &'a [u8]) -> Option<&'a [u8]>
    requires { list_all is_no_wildcard run.now ≡ true }
    ensures { (pattern : List ℕ) → MatchOption result (is_match (42 ∷ (run.now ++ 42 ∷ pattern)) name.now ≡ false)
        (λ rest. is_match (42 ∷ (run.now ++ 42 ∷ pattern)) name.now ≡ is_match (42 ∷ pattern) rest.now) }
{
    let at = memmem::find(name, run)?;
    Some(&name[at + run.len()..])
}

// The runs stand in the name one after another, and the last one ends it.
fn has_runs(octets: &[u8], runs: &[Span], last: &[u8], name: &[u8]) -> bool
    requires runs { ArePlainRuns octets.now runs.now }
    requires last { list_all is_no_wildcard last.now ≡ true }
    ensures { result ≡ is_match (after_wildcards (plain_runs octets.now runs.now) last.now) name.now }
{
    let mut rest = name;
    for run in runs {
        let Some(following) = after_run(&octets[run.at..run.at + run.len], rest) else {
            return false;
        };
        rest = following;
    }
    rest.ends_with(last)
}

impl Pattern {
    /// The pattern that LIST's reference and its mailbox name make together.
    pub fn new(alloc: Global, reference: &[u8], pattern: &[u8]) -> Result<Pattern, Memory>
        ensures { IfOk result (λ made. made ≡ reference.now ++ pattern.now) }
    {
        let mut octets = Octets::from_slice(alloc, reference)?;
        octets.push_slice(pattern)?;
        let plain = plain_len(octets.as_slice());
        let first = find_wildcard(octets.as_slice()).unwrap_or(octets.len());
        let from = if first < octets.len() {
            first + 1
        } else {
            first
        };
        let (runs, last) = cut(alloc, octets.as_slice(), from)?;
        Ok(Pattern {
            octets,
            plain,
            first,
            runs,
            last,
        })
    }

    /// The name matches. It costs the octets of the name, however many the pattern has.
    pub fn matches(&self, name: &[u8]) -> bool
        ensures { result ≡ is_match self.now name.now }
    {
        let octets = self.octets.as_slice();
        if name.len() < self.plain {
            return false;
        }
        let Some(rest) = name.strip_prefix(&octets[..self.first]) else {
            return false;
        };
        if self.first == octets.len() {
            return rest.is_empty();
        }
        has_runs(octets, &self.runs, &octets[self.last..], rest)
    }
}

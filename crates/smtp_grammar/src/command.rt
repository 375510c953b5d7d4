//! Commands, as a line writes them (RFC 5321, 4.1).
ghost use Rattle.std.specs.Prelude.{◌≡◌, ◌≤◌, ◌+◌, ◌-◌, ◌^◌, ◌||◌, ◌∷◌, [], drop, None, Some, IfOk, IfSome, MatchOption, length, min, not, position};
ghost use Rattle.std.specs.List.{list_any, list_all, position_or_len, before_first, sum_by};
ghost use Rattle.std.specs.Option.{option_copied};
ghost use Rattle.mail_wire.specs.Octets.{is_white, is_nonwhite};
ghost use Rattle.smtp_grammar.specs.declared.command.Place.TheVariants.{Plain};
ghost use Rattle.smtp_grammar.specs.Commands.{command_of, verb_of, before_white, after_white, is_client as is_client_of, is_client_octet, path_place_after, stands_plain, path_len, after_word, after_space, begins_path, ends_word, path_after as path_after_of, white_words, are_malformed, is_malformed, is_unknown, is_smtputf8, is_sign, parameter_value, size_said as size_said_of, size_parameter, body_parameter, parameter_of, announced};

use mail_wire::{Memory, TableWord, find_word, is_same_name, is_white, read_number};
use std::alloc::Global;
use std::collections::BTreeSet;

/// What a command asks for; every other word is `Other`.
#[derive(Clone, Copy, Debug, PartialEq, Eq)]
pub enum Verb {
    Ehlo,
    Helo,
    Mail,
    Rcpt,
    Data,
    Rset,
    Noop,
    Vrfy,
    Quit,
    Other,
}

/// A command: its verb, and what stands after it.
#[derive(Clone, Copy, Debug, PartialEq, Eq)]
pub struct Command<'a> {
    pub verb: Verb,
    pub argument: &'a [u8],
}

fn find_white(text: &[u8]) -> Option<usize>
    ensures { result ≡ position is_white text.now }
{
    text.iter().position(|octet| is_white(*octet))
}

fn find_nonwhite(text: &[u8]) -> Option<usize>
    ensures { result ≡ position is_nonwhite text.now }
{
    text.iter().position(|octet| !is_white(*octet))
}

// The first word of a text, and what follows it.
fn split_word(text: &[u8]) -> (&[u8], &[u8])
    ensures word { result.0.now ≡ before_first is_white text.now }
    ensures rest { result.1.now ≡ drop (position_or_len is_white text.now) text.now }
{
    text.split_at(find_white(text).unwrap_or(text.len()))
}

fn after_white(text: &[u8]) -> &[u8]
    ensures { result.now ≡ after_white text.now }
{
    let (_, rest) = text.split_at(find_nonwhite(text).unwrap_or(text.len()));
    rest
}

fn before_white(text: &[u8]) -> &[u8]
    ensures { result.now ≡ before_white text.now }
{
    let mut end = text.len();
    while end > 0 && is_white(text[end - 1]) {
        end -= 1;
    }
    &text[..end]
}

// The verbs that are read.
const VERBS: [TableWord<Verb>; 9] = [
    TableWord(b"ehlo", Verb::Ehlo),
    TableWord(b"helo", Verb::Helo),
    TableWord(b"mail", Verb::Mail),
    TableWord(b"rcpt", Verb::Rcpt),
    TableWord(b"data", Verb::Data),
    TableWord(b"rset", Verb::Rset),
    TableWord(b"noop", Verb::Noop),
    TableWord(b"vrfy", Verb::Vrfy),
    TableWord(b"quit", Verb::Quit),
];

fn read_verb(word: &[u8]) -> Verb
    ensures { result ≡ verb_of word.now }
{
    find_word(&VERBS, word).unwrap_or(Verb::Other)
}

/// The command of a line, which has its CRLF.
pub fn read_command(line: &[u8]) -> Command<'_>
    requires { 2 ≤ length line.now }
    ensures verb { result.verb ≡ (command_of line.now).verb }
    ensures argument { result.argument.now ≡ (command_of line.now).argument }
{
    let (text, _) = line.split_at(line.len() - 2);
    let text = after_white(before_white(text));
    let (word, rest) = split_word(text);
    Command {
        verb: read_verb(word),
        argument: after_white(rest),
    }
}

fn is_client_octet(octet: u8) -> bool
    ensures { result ≡ is_client_octet octet }
{
    octet.is_ascii_alphanumeric() || b".-_:[]".contains(&octet)
}

fn are_client_octets(name: &[u8]) -> bool
    ensures { result ≡ list_all is_client_octet name.now }
{
    name.iter().all(|octet| is_client_octet(*octet))
}

/// Whether a client may say this name of itself: 1 to 255 letters, digits or octets of `.-_:[]`.
pub fn is_client(name: &[u8]) -> bool
    ensures { result ≡ is_client_of name.now }
{
    !name.is_empty() && name.len() <= 255 && are_client_octets(name)
}

/// Where an octet of a path stands: the octet after a backslash is one of a pair.
#[derive(Clone, Copy)]
enum Place {
    Plain,
    Quoted,
    QuotedPair,
    Literal,
    LiteralPair,
}

fn place_after(place: Place, octet: u8) -> Place
    ensures { result ≡ path_place_after place octet }
{
    match place {
        Place::Plain => match octet {
            b'"' => Place::Quoted,
            b'[' => Place::Literal,
            _ => Place::Plain,
        },
        Place::Quoted => match octet {
            b'"' => Place::Plain,
            b'\\' => Place::QuotedPair,
            _ => Place::Quoted,
        },
        Place::QuotedPair => Place::Quoted,
        Place::Literal => match octet {
            b']' => Place::Plain,
            b'\\' => Place::LiteralPair,
            _ => Place::Literal,
        },
        Place::LiteralPair => Place::Literal,
    }
}

fn stands_plain(wanted: u8, place: Place, octet: u8) -> bool
    ensures { result ≡ stands_plain wanted place octet }
{
    matches!(place, Place::Plain) && octet == wanted
}

// How long the path is that a text begins with.
fn path_len(text: &[u8]) -> Option<usize>
    ensures bound { IfSome result (λ len. len ≤ length text.now) }
    ensures len { result ≡ path_len Plain text.now }
{
    let mut place = Place::Plain;
    let mut len = 0;
    for octet in text {
        len += 1;
        if stands_plain(b'>', place, *octet) {
            return Some(len);
        }
        if stands_plain(b'(', place, *octet) {
            return None;
        }
        place = place_after(place, *octet);
    }
    None
}

/// A path, from its `<` to its `>`, and what stands after it.
#[derive(Clone, Copy, Debug, PartialEq, Eq)]
pub struct PathAndRest<'a> {
    pub path: &'a [u8],
    pub rest: &'a [u8],
}

// The text without one space in front, if there is one.
fn after_space(text: &[u8]) -> &[u8]
    ensures { result.now ≡ after_space text.now }
{
    match text {
        [b' ', rest @ ..] => rest,
        _ => text,
    }
}

// What follows a word and one space, if there is one.
fn after_word<'a>(word: &[u8], text: &'a [u8]) -> Option<&'a [u8]>
    ensures { option_copied result ≡ after_word word.now text.now }
{
    let (front, rest) = text.split_at_checked(word.len())?;
    if is_same_name(front, word) {
        Some(after_space(rest))
    } else {
        None
    }
}

fn begins_path(text: &[u8]) -> bool
    ensures { result ≡ begins_path text.now }
{
    matches!(text, [b'<', ..])
}

fn ends_word(text: &[u8]) -> bool
    ensures { result ≡ ends_word text.now }
{
    match text {
        [] => true,
        [first, ..] => is_white(*first),
    }
}

/// The path that stands after a word, such as `FROM:`, and one space, if there is one.
pub fn path_after<'a>(word: &[u8], argument: &'a [u8]) -> Option<PathAndRest<'a>>
    ensures { MatchOption result (path_after_of word.now argument.now ≡ None)
        (λ found. path_after_of word.now argument.now ≡ Some (record { path = found.path.now; rest = found.rest.now })) }
{
    let text = after_word(word, argument)?;
    if !begins_path(text) {
        return None;
    }
    let (path, rest) = text.split_at(path_len(text)?);
    if ends_word(rest) {
        Some(PathAndRest { path, rest })
    } else {
        None
    }
}

/// A parameter of MAIL.
#[derive(Clone, Copy)]
enum Parameter {
    /// SIZE, with its number, or the greatest of its type.
    Size(u64),
    /// BODY, of 7BIT or 8BITMIME.
    Body,
    Smtputf8,
    /// A known one with a value that isn't one of its own.
    Malformed,
    Unknown,
}

fn size_said(number: Option<u64>) -> Parameter
    ensures { result ≡ size_said_of number }
{
    match number {
        Some(number) => Parameter::Size(number),
        None => Parameter::Malformed,
    }
}

fn read_size(value: Option<&[u8]>) -> Parameter
    ensures { result ≡ size_parameter (option_copied value.entry) }
{
    match value {
        Some(value) => size_said(read_number(value)),
        None => Parameter::Malformed,
    }
}

fn read_body(value: Option<&[u8]>) -> Parameter
    ensures { result ≡ body_parameter (option_copied value.entry) }
{
    match value {
        Some(value) if is_same_name(value, b"7bit") || is_same_name(value, b"8bitmime") => {
            Parameter::Body
        }
        _ => Parameter::Malformed,
    }
}

fn sign_at(word: &[u8]) -> Option<usize>
    ensures { result ≡ position is_sign word.now }
{
    word.iter().position(|octet| *octet == b'=')
}

fn keyword_of(word: &[u8]) -> &[u8]
    ensures { result.now ≡ before_first is_sign word.now }
{
    let (keyword, _) = word.split_at(sign_at(word).unwrap_or(word.len()));
    keyword
}

fn value_of(word: &[u8]) -> Option<&[u8]>
    ensures { option_copied result ≡ parameter_value word.now }
{
    let (_, value) = word.split_at(sign_at(word)? + 1);
    Some(value)
}

#[tactic(auto, unfolding(mail_wire::specs::Octets::same_name))]
fn read_parameter(word: &[u8]) -> Parameter
    ensures { result ≡ parameter_of word.now }
{
    let keyword = keyword_of(word);
    let value = value_of(word);
    if is_same_name(keyword, b"size") {
        read_size(value)
    } else if is_same_name(keyword, b"body") {
        read_body(value)
    } else if is_same_name(keyword, b"smtputf8") {
        match value {
            Some(_) => Parameter::Malformed,
            None => Parameter::Smtputf8,
        }
    } else {
        Parameter::Unknown
    }
}

/// The parameters of MAIL (RFC 1870, 3; RFC 6152, 2; RFC 6531, 3.4).
#[derive(Clone, Copy, Debug, PartialEq, Eq)]
pub struct Parameters {
    /// A keyword stands there twice, or a known one has a value that isn't one of its own.
    pub malformed: bool,
    pub unknown: bool,
    pub smtputf8: bool,
    /// The number of SIZE, or the greatest of its type, or 0.
    pub size: u64,
}

const NO_PARAMETERS: Parameters = Parameters {
    malformed: false,
    unknown: false,
    smtputf8: false,
    size: 0,
};

fn announced(parameter: Parameter) -> u64
    ensures { result ≡ announced parameter }
{
    match parameter {
        Parameter::Size(octets) => octets,
        Parameter::Body | Parameter::Smtputf8 | Parameter::Malformed | Parameter::Unknown => 0,
    }
}

impl Parameters {
    // Takes one more parameter in, whose keyword is new or not.
    fn add(&mut self, parameter: Parameter, is_new: bool)
        ensures malformed { self.new.malformed ≡ (self.old.malformed || (is_malformed parameter || not is_new)) }
        ensures unknown { self.new.unknown ≡ (self.old.unknown || is_unknown parameter) }
        ensures smtputf8 { self.new.smtputf8 ≡ (self.old.smtputf8 || is_smtputf8 parameter) }
        ensures size { self.new.size ≡ min (self.old.size + announced parameter) (2 ^ 64 - 1) }
    {
        self.malformed |= matches!(parameter, Parameter::Malformed) || !is_new;
        self.unknown |= matches!(parameter, Parameter::Unknown);
        self.smtputf8 |= matches!(parameter, Parameter::Smtputf8);
        self.size = self.size.saturating_add(announced(parameter));
    }
}

fn has_white(text: &[u8]) -> bool
    ensures { result ≡ list_any is_white text.now }
{
    text.iter().any(|octet| is_white(*octet))
}

// The one word of a text that is a white octet and a word.
fn lone_word(rest: &[u8]) -> Option<&[u8]>
    ensures { IfSome result (λ word. white_words rest.now ≡ word.now ∷ []) }
{
    match rest {
        [first, word @ ..] if is_white(*first) && !word.is_empty() && !has_white(word) => {
            Some(word)
        }
        _ => None,
    }
}

// The parameters that this word is.
fn read_lone(word: &[u8]) -> Parameters
    ensures malformed { result.malformed ≡ are_malformed (word.now ∷ []) }
    ensures unknown { result.unknown ≡ list_any (λ word. is_unknown (parameter_of word)) (word.now ∷ []) }
    ensures smtputf8 { result.smtputf8 ≡ list_any (λ word. is_smtputf8 (parameter_of word)) (word.now ∷ []) }
    ensures size { result.size ≡ min (sum_by (λ word. announced (parameter_of word)) (word.now ∷ [])) (2 ^ 64 - 1) }
{
    let mut read = NO_PARAMETERS;
    read.add(read_parameter(word), true);
    read
}

// The parameters that the words of a text are.
fn read_words(alloc: Global, rest: &[u8]) -> Result<Parameters, Memory>
    ensures malformed { IfOk result (λ read. read.malformed ≡ are_malformed (white_words rest.now)) }
    ensures unknown { IfOk result (λ read. read.unknown ≡ list_any (λ word. is_unknown (parameter_of word)) (white_words rest.now)) }
    ensures smtputf8 { IfOk result (λ read. read.smtputf8 ≡ list_any (λ word. is_smtputf8 (parameter_of word)) (white_words rest.now)) }
    ensures size { IfOk result (λ read. read.size ≡ min (sum_by (λ word. announced (parameter_of word)) (white_words rest.now)) (2 ^ 64 - 1)) }
{
    let mut keywords = BTreeSet::new(alloc);
    let mut read = NO_PARAMETERS;
    let words = rest
        .split(|octet| is_white(*octet))
        .filter(|word| !word.is_empty());
    for word in words {
        let keyword = keyword_of(word).to_ascii_lowercase(alloc)?;
        let is_new = keywords.insert(keyword)?;
        read.add(read_parameter(word), is_new);
    }
    Ok(read)
}

/// The parameters that the words after a path are.
pub fn read_parameters(alloc: Global, rest: &[u8]) -> Result<Parameters, Memory>
    ensures malformed { IfOk result (λ read. read.malformed ≡ are_malformed (white_words rest.now)) }
    ensures unknown { IfOk result (λ read. read.unknown ≡ list_any (λ word. is_unknown (parameter_of word)) (white_words rest.now)) }
    ensures smtputf8 { IfOk result (λ read. read.smtputf8 ≡ list_any (λ word. is_smtputf8 (parameter_of word)) (white_words rest.now)) }
    ensures size { IfOk result (λ read. read.size ≡ min (sum_by (λ word. announced (parameter_of word)) (white_words rest.now)) (2 ^ 64 - 1)) }
{
    match lone_word(rest) {
        Some(word) => Ok(read_lone(word)),
        None => read_words(alloc, rest),
    }
}

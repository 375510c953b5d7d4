//! The words of `gen` and `relay`, and those of `serve`, which the program itself carries out.
ghost use Rattle.std.specs.Prelude.{◌≡◌, ◌≢◌, ℕ, List, [], ◌∷◌, IfSome, IfNone};
ghost use Rattle.mail_command.specs.Words.{IsGen, IsNumberUpTo, IsRelayCommand, IsServeCommand};
ghost use Rattle.mail_command.specs.declared.roles.Role.{Role as RoleValue};

use crate::roles::{Role, role_named};
use itoa::Buffer;
use mail_wire::Words;
use setup_command::is_plain;

// The greatest port.
const PORT_MAX: u32 = 65_535;

// The most connections that one program serves.
const CONNECTIONS_MAX: u32 = 1_000_000;

// The most messages that `gen` makes.
const MESSAGES_MAX: u32 = 100_000;

// The number that the text spells, from 1 to the greatest.
fn number_up_to(text: &str, max: u32) -> Option<u32>
    ensures some { IfSome result (IsNumberUpTo max text.now) }
    ensures none { IfNone result ((number : ℕ) → ¬ IsNumberUpTo max text.now number) }
{
    let Ok(number) = text.parse::<u32>() else {
        return None;
    };
    // Other texts may be read as this number.
    if Buffer::new().format(number) != text {
        return None;
    }
    if number < 1 || number > max {
        return None;
    }
    Some(number)
}

// The words, where there are four.
fn four_words(words: &Words) -> Option<(&str, &str, &str, &str)>
    ensures some { IfSome result (λ four. words.now ≡ four.0.now ∷ four.1.now ∷ four.2.now ∷ four.3.now ∷ []) }
    ensures none { IfNone result ((first second third fourth : List ℕ) → words.now ≢ first ∷ second ∷ third ∷ fourth ∷ []) }
{
    match (
        words.get(0),
        words.get(1),
        words.get(2),
        words.get(3),
        words.get(4),
    ) {
        (Some(first), Some(second), Some(third), Some(fourth), None) => {
            Some((first, second, third, fourth))
        }
        _ => None,
    }
}

/// What the words of `serve` say: the protocol, the port, and how many connections are served. Other words say nothing. It takes no
/// memory.
pub fn serve_words(words: &Words) -> Option<(Role, u16, u32)>
    ensures some { IfSome result (λ said. IsServeCommand words.now said.0 said.1 said.2) }
    ensures none { IfNone result ((role : RoleValue) (port connections : ℕ) → ¬ IsServeCommand words.now role port connections) }
{
    let (name, role, port, connections) = four_words(words)?;
    if name != "serve" {
        return None;
    }
    let role = role_named(role)?;
    let port = number_up_to(port, PORT_MAX)?;
    let connections = number_up_to(connections, CONNECTIONS_MAX)?;
    Some((role, port as u16, connections))
}

// The words, where there are two.
fn two_words(words: &Words) -> Option<(&str, &str)>
    ensures some { IfSome result (λ two. words.now ≡ two.0.now ∷ two.1.now ∷ []) }
    ensures none { IfNone result ((first second : List ℕ) → words.now ≢ first ∷ second ∷ []) }
{
    match (words.get(0), words.get(1), words.get(2)) {
        (Some(first), Some(second), None) => Some((first, second)),
        _ => None,
    }
}

/// How many messages the words of `gen` ask for. Other words say nothing. It takes no memory.
pub fn gen_words(words: &Words) -> Option<u32>
    ensures some { IfSome result (IsGen words.now) }
    ensures none { IfNone result ((number : ℕ) → ¬ IsGen words.now number) }
{
    let (name, number) = two_words(words)?;
    if name != "gen" {
        return None;
    }
    number_up_to(number, MESSAGES_MAX)
}

/// The host that the words of `relay` name. Other words say nothing. It takes no memory.
pub fn relay_words(words: &Words) -> Option<&str>
    ensures some { IfSome result (λ host. IsRelayCommand words.now host.now) }
    ensures none { IfNone result ((host : List ℕ) → ¬ IsRelayCommand words.now host) }
{
    let (name, host) = two_words(words)?;
    if name != "relay" || !is_plain(host) {
        return None;
    }
    Some(host)
}

//! The protocols of sessions, and the serving of one.
ghost use Rattle.std.specs.Prelude.{◌≡◌, ◌≢◌, IfSome, IfNone};
ghost use Rattle.session_core.specs.Desks.{IsOpen};
ghost use Rattle.session_core.specs.Keeps.{Keeps};
ghost use Rattle.session_core.specs.Served.{met_of};
ghost use Rattle.session_core.specs.Serving.{ServesBy};
ghost use Rattle.mail_command.specs.Causes.{IsCompleteSession};
ghost use Rattle.mail_command.specs.Protocols.{patience_of, protocol_for};
ghost use Rattle.mail_command.specs.Words.{role_word};
ghost use Rattle.mail_command.specs.declared.roles.Role.{Role as RoleValue};

use imap_session::serve_imap;
use mail_wire::{Clock, Keeper, Wire};
use pop_session::serve_pop;
use session_core::{Outside, Served};
use smtp_session::serve_smtp;

/// The protocol of a session.
#[derive(Clone, Copy, Debug, PartialEq, Eq)]
pub enum Role {
    Pop,
    Smtp,
    Imap,
}

impl Role {
    /// The word of the command line.
    pub fn word(self) -> &'static str
        ensures { result.now ≡ role_word self }
    {
        match self {
            Role::Pop => "pop",
            Role::Smtp => "smtp",
            Role::Imap => "imap",
        }
    }

    /// How many seconds a server waits for a client that says nothing.
    pub fn patience(self) -> u64
        ensures { result ≡ patience_of self }
    {
        match self {
            Role::Pop => 600,
            Role::Smtp => 300,
            Role::Imap => 1800,
        }
    }
}

/// The role of this word.
pub fn role_named(word: &str) -> Option<Role>
    ensures some { IfSome result (λ role. word.now ≡ role_word role) }
    ensures none { IfNone result ((role : RoleValue) → word.now ≢ role_word role) }
{
    match word {
        "pop" => Some(Role::Pop),
        "smtp" => Some(Role::Smtp),
        "imap" => Some(Role::Imap),
        _ => None,
    }
}

/// Serves one session of the role's protocol, from its greeting to its end.
pub fn serve_one<W: Wire, J: Keeper, C: Clock>(role: Role, outside: &mut Outside<W, J, C>) -> Served
    requires { IsOpen outside.old.desk }
    // By the machine of the role's protocol: before each take all that was taken was answered and had not ended the session, no take
    // was of more than a piece, nothing else was ever given, and no more was taken than the limit. What was taken was done: the replies
    // given and the changes made in the store and in the keeper, in their order, or, after a fault, the first of them. At Ended it was
    // sent what is due for all that was left, and has ended, or nothing is left. At Limit it was sent what is due for as many octets as
    // a session may take, and has not ended.
    ensures serves { ServesBy (protocol_for role) outside.old outside.new result }
    ensures keeps { Keeps outside.old outside.new (met_of result) }
    // Where nothing failed it ends with that, or memory was wanting.
    ensures complete { IsCompleteSession outside.old outside.new result }
{
    match role {
        Role::Pop => serve_pop(outside),
        Role::Smtp => serve_smtp(outside),
        Role::Imap => serve_imap(outside),
    }
}

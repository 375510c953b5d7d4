//! The states of a session (RFC 5321, 4.1.4), each a type of its own.
ghost use Rattle.std.specs.Prelude.{◌≡◌, ◌&&◌, ◌++◌, ◌∷◌, [], IfOk};
ghost use Rattle.http_lines.specs.Requests.{is_http_request as is_http_request_of};
ghost use Rattle.mail_store.specs.StoreState.{StoreState};
ghost use Rattle.smtp_session.specs.Machine.{awaits_first as awaits_first_of, past_first as past_first_of};
ghost use Rattle.smtp_session.specs.Session.{KnowsState, state_of};

use address_grammar::Address;
use http_lines::is_http_request;
use kept_mail::{Addresses, Numbers};
use mail_wire::{Memory, Octets};
use std::alloc::Global;

/// The name that a client says of itself, and whether it greeted with EHLO.
#[derive(Debug, Drop)]
pub struct Client {
    pub name: Octets,
    pub extended: bool,
}

/// What a message comes from and for whom it is: accounts, and addresses of domains that aren't local.
#[derive(Debug, Drop)]
pub struct Envelope {
    pub path: Option<Address>,
    pub smtputf8: bool,
    pub local: Numbers,
    pub remote: Addresses,
}

/// Before the first accepted greeting. The next line is the first of the session, or it isn't.
#[derive(Debug, Drop)]
pub struct Fresh {
    pub is_first: bool,
}

/// A client has greeted.
#[derive(Debug, Drop)]
pub struct Greeted {
    pub client: Client,
}

/// MAIL was accepted.
#[derive(Debug, Drop)]
pub struct Mail {
    pub client: Client,
    pub envelope: Envelope,
}

/// DATA was accepted, and data come.
#[derive(Debug, Drop)]
pub struct Data {
    pub client: Client,
    pub envelope: Envelope,
}

// FRESH --EHLO, HELO--> GREETED --MAIL--> MAIL --DATA--> DATA --the line `.`--> GREETED
//                          ^               |  ^
//                          +-- RSET, EHLO -+  +-- RCPT
//
/// A session in a state. It has the commands of that state alone.
#[derive(Debug, Drop)]
pub struct Smtp<S> {
    pub state: S,
}

/// A session in any state.
#[derive(Debug, Drop)]
pub enum SmtpState {
    Fresh(Smtp<Fresh>),
    Greeted(Smtp<Greeted>),
    Mail(Smtp<Mail>),
    Data(Smtp<Data>),
}

impl SmtpState {
    // Whether the next line is the first of the session.
    fn awaits_first(&self) -> bool
        ensures { result ≡ awaits_first_of (state_of self.now) }
    {
        match self {
            SmtpState::Fresh(session) => session.state.is_first,
            _ => false,
        }
    }

    /// Whether the line is an HTTP request with which the session would begin.
    pub fn begins_with_request(&self, line: &[u8]) -> bool
        ensures { result ≡ (awaits_first_of (state_of self.now) && is_http_request_of line.now) }
    {
        self.awaits_first() && is_http_request(line)
    }

    /// A line was taken.
    pub fn past_first(self) -> Self
        ensures state { state_of result ≡ past_first_of (state_of self) }
        ensures known { (store : StoreState) → KnowsState store (state_of self) → KnowsState store (state_of result) }
    {
        match self {
            SmtpState::Fresh(_session) => SmtpState::Fresh(Smtp {
                state: Fresh { is_first: false },
            }),
            state => state,
        }
    }
}

impl Smtp<Greeted> {
    /// A client greets, in whatever state, and what was said before is forgotten.
    pub fn greeted(client: Client) -> Self
        ensures { result.state.client ≡ client }
    {
        Smtp {
            state: Greeted { client },
        }
    }

    /// A message comes from a path; it has no recipients yet.
    pub fn mail(self, alloc: Global, path: Option<Address>, smtputf8: bool) -> Smtp<Mail>
        ensures client { result.state.client ≡ self.state.client }
        ensures path { result.state.envelope.path ≡ path }
        ensures smtputf8 { result.state.envelope.smtputf8 ≡ smtputf8 }
        ensures local { result.state.envelope.local ≡ [] }
        ensures remote { result.state.envelope.remote ≡ [] }
    {
        Smtp {
            state: Mail {
                client: self.state.client,
                envelope: Envelope {
                    path,
                    smtputf8,
                    local: Numbers::new(alloc),
                    remote: Addresses::new(alloc),
                },
            },
        }
    }
}

impl Smtp<Mail> {
    /// The message is for an account too.
    pub fn rcpt_account(mut self, account: u32) -> Result<Self, Memory>
        ensures client { IfOk result (λ next. next.state.client ≡ self.state.client) }
        ensures envelope { IfOk result (λ next. next.state.envelope ≡ record self.state.envelope { local = self.state.envelope.local ++ account ∷ [] }) }
    {
        self.state.envelope.local.push(account)?;
        Ok(self)
    }

    /// The message is for an address elsewhere too.
    pub fn rcpt_address(mut self, address: Address) -> Result<Self, Memory>
        ensures client { IfOk result (λ next. next.state.client ≡ self.state.client) }
        ensures envelope { IfOk result (λ next. next.state.envelope ≡ record self.state.envelope { remote = self.state.envelope.remote ++ address ∷ [] }) }
    {
        self.state.envelope.remote.push(address)?;
        Ok(self)
    }

    /// The data come.
    pub fn data(self) -> Smtp<Data>
        ensures client { result.state.client ≡ self.state.client }
        ensures envelope { result.state.envelope ≡ self.state.envelope }
    {
        Smtp {
            state: Data {
                client: self.state.client,
                envelope: self.state.envelope,
            },
        }
    }

    /// The path and the recipients are forgotten.
    pub fn reset(self) -> Smtp<Greeted>
        ensures { result.state.client ≡ self.state.client }
    {
        Smtp::greeted(self.state.client)
    }
}

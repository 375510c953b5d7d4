//! The states of a session (RFC 1939, 4 to 6), each a type of its own.
ghost use Rattle.std.specs.Prelude.{◌≡◌, ◌<◌, [], None, Some, IfOk, List, ℕ, Option, length, map, true, false};
ghost use Rattle.kept_mail.specs.Kept.{change_at};
ghost use Rattle.surrogate_cache.specs.Served.{legacy, enabled};
ghost use Rattle.session_core.specs.Desks.{IsOpen};
ghost use Rattle.session_core.specs.Doing.{Makes};
ghost use Rattle.session_core.specs.Keeps.{Keeps, fault_of};
ghost use Rattle.session_core.specs.Oracles.{WithOracles};
ghost use Rattle.pop_session.specs.Machine.{State, authorization, transaction, unmarked, marked, deleted_ids as deleted_ids_of, taken_out};
ghost use Rattle.pop_session.specs.States.{state_of, IsLogin, Knows, KnowsLogin};

use kept_mail::Listed;
use mail_store::Store;
use mail_wire::{Clock, Fault, Keeper, Memory, Octets, Wire};
use session_core::Outside;
use std::alloc::Global;
use std::marker::PhantomData;
use surrogate_cache::{Enabled, Legacy, View};

/// Before login, with the name that USER gave.
#[derive(Debug, Drop)]
pub struct Authorization {
    pub user: Option<Octets>,
}

/// A message of the maildrop (RFC 1939, 5), and whether it is marked as deleted.
#[derive(Clone, Copy, Debug, PartialEq, Eq)]
pub struct MaildropMessage {
    pub listed: Listed,
    pub deleted: bool,
}

/// After login, with the messages of INBOX at that time.
#[derive(Debug, Drop)]
pub struct Transaction {
    pub maildrop: Vec<MaildropMessage>,
}

/// After QUIT: the messages that are marked go.
#[derive(Debug, Drop)]
pub struct Update {
    pub maildrop: Vec<MaildropMessage>,
}

// greeted --an HTTP request--> the end
//    |
//    | any other line, as in AUTHORIZATION
//    v
// AUTHORIZATION --PASS--> TRANSACTION --QUIT--> UPDATE --> the end
//       |  ^                  |   ^
//       +--+ UTF8, USER,      +---+ STAT, LIST, UIDL, RETR, TOP, DELE, RSET, NOOP, CAPA
//            CAPA
//
/// A session in a state, of a kind. It has the commands of that state alone.
#[derive(Debug, Drop)]
pub struct Pop<S, V> {
    pub state: S,
    pub view: PhantomData<V>,
}

/// A session in any state, of either kind. `Greeted` is before the first line.
#[derive(Debug, Drop)]
pub enum PopState {
    Greeted,
    Authorization(Pop<Authorization, Legacy>),
    EnabledAuthorization(Pop<Authorization, Enabled>),
    Transaction(Pop<Transaction, Legacy>),
    EnabledTransaction(Pop<Transaction, Enabled>),
}

// A maildrop of these messages, none of which is marked.
fn maildrop_of(alloc: Global, listing: &[Listed]) -> Result<Vec<MaildropMessage>, Memory>
    ensures { IfOk result (λ maildrop. maildrop.items ≡ map unmarked listing.now) }
{
    let mut maildrop = Vec::new(alloc);
    for listed in listing {
        maildrop.push(MaildropMessage {
            listed: *listed,
            deleted: false,
        })?;
    }
    Ok(maildrop)
}

// The numbers in the store of the messages that are marked.
fn deleted_ids(alloc: Global, maildrop: &[MaildropMessage]) -> Result<Vec<u32>, Memory>
    ensures { IfOk result (λ ids. ids.items ≡ deleted_ids_of maildrop.now) }
{
    let mut ids = Vec::new(alloc);
    for one in maildrop {
        if one.deleted {
            ids.push(one.listed.id)?;
        }
    }
    Ok(ids)
}

/// A kind of session, as a part of all.
pub trait Kind: View {
    fn in_authorization(pop: Pop<Authorization, Self>) -> PopState
        ensures { state_of result ≡ authorization Self.mode pop.state.user };

    fn in_transaction(pop: Pop<Transaction, Self>) -> PopState
        ensures { state_of result ≡ transaction Self.mode pop.state.maildrop.items };
}

impl Kind for Legacy {
    fn in_authorization(pop: Pop<Authorization, Legacy>) -> PopState
        ensures { state_of result ≡ authorization legacy pop.state.user }
    {
        PopState::Authorization(pop)
    }

    fn in_transaction(pop: Pop<Transaction, Legacy>) -> PopState
        ensures { state_of result ≡ transaction legacy pop.state.maildrop.items }
    {
        PopState::Transaction(pop)
    }
}

impl Kind for Enabled {
    fn in_authorization(pop: Pop<Authorization, Enabled>) -> PopState
        ensures { state_of result ≡ authorization enabled pop.state.user }
    {
        PopState::EnabledAuthorization(pop)
    }

    fn in_transaction(pop: Pop<Transaction, Enabled>) -> PopState
        ensures { state_of result ≡ transaction enabled pop.state.maildrop.items }
    {
        PopState::EnabledTransaction(pop)
    }
}

/// What PASS leads to.
#[derive(Debug, Drop)]
pub enum Login<V> {
    OutOfOrder(Pop<Authorization, V>),
    Refused(Pop<Authorization, V>),
    Open(Pop<Transaction, V>),
}

impl Pop<Authorization, Legacy> {
    /// A session begins as legacy.
    pub fn new() -> Self
        ensures { result.state.user ≡ None }
    {
        Pop {
            state: Authorization { user: None },
            view: PhantomData,
        }
    }
}

impl<V: Kind> Pop<Authorization, V> {
    /// The name of the next PASS.
    pub fn user(self, alloc: Global, name: &[u8]) -> Result<Self, Memory>
        ensures { IfOk result (λ pop. pop.state.user ≡ Some name.now) }
    {
        let name = Octets::from_slice(alloc, name)?;
        Ok(Pop {
            state: Authorization { user: Some(name) },
            view: PhantomData,
        })
    }

    /// The session is enabled from here on.
    pub fn utf8(self) -> Pop<Authorization, Enabled>
        ensures { result.state.user ≡ self.state.user }
    {
        Pop {
            state: self.state,
            view: PhantomData,
        }
    }

    /// One try with the name that USER gave; after it there is no name.
    pub fn pass(self, alloc: Global, password: &[u8], store: &Store) -> Result<Login<V>, Memory>
        ensures login { IfOk result (λ login. WithOracles (λ oracles. IsLogin oracles login self.state.user password.now store.now)) }
        ensures known { IfOk result (KnowsLogin store.now) }
    {
        let Some(name) = self.state.user else {
            return Ok(Login::OutOfOrder(Pop {
                state: Authorization { user: None },
                view: PhantomData,
            }));
        };
        match store.login(name.as_slice(), password)? {
            Some(account) => {
                let listing = store.list(store.inbox(account))?;
                Ok(Login::Open(Pop {
                    state: Transaction {
                        maildrop: maildrop_of(alloc, &listing)?,
                    },
                    view: PhantomData,
                }))
            }
            None => Ok(Login::Refused(Pop {
                state: Authorization { user: None },
                view: PhantomData,
            })),
        }
    }
}

impl<V: Kind> Pop<Transaction, V> {
    /// Marks the message at a place of the maildrop.
    pub fn dele(mut self, place: usize) -> Self
        requires { place < length self.state.maildrop.items }
        ensures { result.state.maildrop.items ≡ change_at (marked true) self.state.maildrop.items place }
    {
        self.state.maildrop[place].deleted = true;
        self
    }

    /// Takes all marks away.
    pub fn rset(mut self) -> Self
        ensures { result.state.maildrop.items ≡ map (marked false) self.state.maildrop.items }
    {
        for one in self.state.maildrop.iter_mut() {
            one.deleted = false;
        }
        self
    }

    /// Nothing more is asked for.
    pub fn quit(self) -> Pop<Update, V>
        ensures { result.state.maildrop.items ≡ self.state.maildrop.items }
    {
        Pop {
            state: Update {
                maildrop: self.state.maildrop,
            },
            view: PhantomData,
        }
    }
}

impl<V: Kind> Pop<Update, V> {
    /// Takes the marked messages out of the store, by one call; where none is marked the keeper isn't called.
    pub fn update<W: Wire, J: Keeper, C: Clock>(
        self,
        outside: &mut Outside<W, J, C>,
    ) -> Result<(), Fault>
        requires opens { IsOpen outside.old.desk }
        requires known { Knows outside.old.desk.store self.state.maildrop.items }
        ensures makes { Makes outside.old outside.new (fault_of result) (taken_out (deleted_ids_of self.state.maildrop.items)) }
        ensures nothing { deleted_ids_of self.state.maildrop.items ≡ [] → outside.new ≡ outside.old }
        ensures keeps { Keeps outside.old outside.new (fault_of result) }
    {
        let ids = deleted_ids(outside.alloc(), &self.state.maildrop)?;
        outside.expunge(&ids)
    }
}

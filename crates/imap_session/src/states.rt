//! The states of a session (RFC 3501, 3). A state has the commands of that state alone.
ghost use Rattle.std.specs.Prelude.{◌≡◌, ◌<◌, length, IfOk};
ghost use Rattle.mail_store.specs.StoreState.{StoreState};
ghost use Rattle.surrogate_cache.specs.Served.{legacy, enabled};
ghost use Rattle.imap_session.specs.Machine.{authenticated, selected};
ghost use Rattle.imap_session.specs.Session.{KnowsFolder, KnowsState, selection_of, state_of};

use kept_mail::Listed;
use std::marker::PhantomData;
use surrogate_cache::{Enabled, Legacy, View};

/// Nobody has logged in.
#[derive(Debug, Drop)]
pub struct NotAuthenticated;

/// After login.
#[derive(Debug, Drop)]
pub struct Authenticated {
    pub account: u32,
}

/// After SELECT or EXAMINE, with the messages of the folder, in order.
#[derive(Debug, Drop)]
pub struct Selected {
    pub account: u32,
    pub folder: u32,
    pub read_only: bool,
    pub messages: Vec<Listed>,
}

//                        +-- ENABLE, CREATE, LIST, STATUS, APPEND
//                        v     |
// NotAuthenticated --LOGIN--> Authenticated --SELECT, EXAMINE--> Selected --+ FETCH, STORE, EXPUNGE, CHECK,
//                                       ^                         |   ^     | CREATE, LIST, STATUS, APPEND, SELECT, EXAMINE
//                                       +-- CLOSE, or no folder --+   +-----+
//
/// A session in a state, of a kind.
#[derive(Debug, Drop)]
pub struct Imap<S, V> {
    pub state: S,
    pub view: PhantomData<V>,
}

/// A session in any state, of either kind.
#[derive(Debug, Drop)]
pub enum ImapState {
    NotAuthenticated(Imap<NotAuthenticated, Legacy>),
    Authenticated(Imap<Authenticated, Legacy>),
    EnabledAuthenticated(Imap<Authenticated, Enabled>),
    Selected(Imap<Selected, Legacy>),
    EnabledSelected(Imap<Selected, Enabled>),
}

/// A kind of session, as a part of all.
pub trait Kind: View {
    fn in_authenticated(imap: Imap<Authenticated, Self>) -> ImapState
        ensures state { state_of result ≡ authenticated Self.mode imap.state.account }
        ensures known { (store : StoreState) → imap.state.account < length store.kept.accounts → KnowsState store result };

    fn in_selected(imap: Imap<Selected, Self>) -> ImapState
        ensures state { state_of result ≡ selected (selection_of Self.mode imap.state) }
        ensures known { (store : StoreState) → KnowsFolder store imap.state.account imap.state.folder imap.state.messages.items → KnowsState store result };
}

impl Kind for Legacy {
    fn in_authenticated(imap: Imap<Authenticated, Legacy>) -> ImapState
        ensures state { state_of result ≡ authenticated legacy imap.state.account }
        ensures known { (store : StoreState) → imap.state.account < length store.kept.accounts → KnowsState store result }
    {
        ImapState::Authenticated(imap)
    }

    fn in_selected(imap: Imap<Selected, Legacy>) -> ImapState
        ensures state { state_of result ≡ selected (selection_of legacy imap.state) }
        ensures known { (store : StoreState) → KnowsFolder store imap.state.account imap.state.folder imap.state.messages.items → KnowsState store result }
    {
        ImapState::Selected(imap)
    }
}

impl Kind for Enabled {
    fn in_authenticated(imap: Imap<Authenticated, Enabled>) -> ImapState
        ensures state { state_of result ≡ authenticated enabled imap.state.account }
        ensures known { (store : StoreState) → imap.state.account < length store.kept.accounts → KnowsState store result }
    {
        ImapState::EnabledAuthenticated(imap)
    }

    fn in_selected(imap: Imap<Selected, Enabled>) -> ImapState
        ensures state { state_of result ≡ selected (selection_of enabled imap.state) }
        ensures known { (store : StoreState) → KnowsFolder store imap.state.account imap.state.folder imap.state.messages.items → KnowsState store result }
    {
        ImapState::EnabledSelected(imap)
    }
}

impl Imap<NotAuthenticated, Legacy> {
    /// A session begins as legacy.
    pub fn new() -> Self {
        Imap {
            state: NotAuthenticated,
            view: PhantomData,
        }
    }

    /// The account has logged in.
    pub fn login(self, account: u32) -> Imap<Authenticated, Legacy>
        ensures { result.state.account ≡ account }
    {
        Imap {
            state: Authenticated { account },
            view: PhantomData,
        }
    }
}

impl<V: Kind> Imap<Authenticated, V> {
    /// The session is enabled from here on.
    pub fn enable(self) -> Imap<Authenticated, Enabled>
        ensures { result.state.account ≡ self.state.account }
    {
        Imap {
            state: self.state,
            view: PhantomData,
        }
    }

    /// A folder is selected, with these messages.
    pub fn select(self, folder: u32, read_only: bool, messages: Vec<Listed>) -> Imap<Selected, V>
        ensures { result.state ≡ record { account = self.state.account; folder = folder; read_only = read_only; messages = messages } }
    {
        Imap {
            state: Selected {
                account: self.state.account,
                folder,
                read_only,
                messages,
            },
            view: PhantomData,
        }
    }
}

impl<V: Kind> Imap<Selected, V> {
    /// No folder is selected any more.
    pub fn unselect(self) -> Imap<Authenticated, V>
        ensures { result.state.account ≡ self.state.account }
    {
        Imap {
            state: Authenticated {
                account: self.state.account,
            },
            view: PhantomData,
        }
    }
}

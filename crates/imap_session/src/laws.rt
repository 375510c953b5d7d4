//! Laws of what APPEND puts into folders, of which commands change the store, which ask the cache and how each is answered, and of the store after a stream.
ghost use Rattle.std.specs.Prelude.{◌≡◌, ◌≢◌, ◌⊎◌, ◌∷◌, [], ℕ, List, Bool, false, true, map};
ghost use Rattle.std.specs.List.{list_any};
ghost use Rattle.kept_mail.specs.Kept.{listed};
ghost use Rattle.mail_store.specs.Following.{records_of};
ghost use Rattle.mail_store.specs.StoreState.{StoreState, with_records};
ghost use Rattle.surrogate_cache.specs.Served.{Mode, enabled, legacy};
ghost use Rattle.session_core.specs.Acts.{asked_in, changes_in};
ghost use Rattle.session_core.specs.Oracles.{Oracles, TellsTrees};
ghost use Rattle.session_core.specs.Turns.{all_turns};
ghost use Rattle.imap_grammar.specs.declared.command.Command.{Command};
ghost use Rattle.imap_grammar.specs.declared.command.Command.TheVariants as command_is;
ghost use Rattle.imap_grammar.specs.declared.command.FetchItem.{FetchItem};
ghost use Rattle.imap_grammar.specs.declared.command.Set.{Set};
ghost use Rattle.imap_mailboxes.specs.Sets.{is_refused};
ghost use Rattle.imap_session.specs.Answering.{EndsTagged, adds_to_store, asked_as, changes_store, is_fetch};
ghost use Rattle.imap_session.specs.Items.{is_of_message};
ghost use Rattle.imap_session.specs.Machine.{State, appended, chosen, completed, context_of, date_or, ended, mode_of, not_authenticated, out_of_order, says, selected, step};
ghost use Rattle.imap_session.specs.Putting.{Cause, IsAuthenticated, IsPut, IsRefused, MayBePut, Said, append_of, put_step, words_of_cause};
ghost use Rattle.imap_session.specs.Session.{Machine, next_turn};

/// In an authenticated session an APPEND into a folder that is there puts its message, where the octets, the last line complete, have a tree
/// and the store has room for them, and the form with UTF8 comes from a session that enabled it: the one change is that message, put last with its
/// flags, the mark of its octets, and its date or that of the moment, and the reply is OK. Otherwise nothing changes, and the reply is the line that tells the cause.
/// Before login it is out of order.
pub fn whole_messages_are_put()
    ensures put { (oracles : Oracles) (now tag : List ℕ) (state : State) (mode : Mode) (account : ℕ) (store : StoreState) (said : Said) (folder : ℕ)
        → TellsTrees oracles.has_tree → IsAuthenticated mode account state → MayBePut oracles mode account store said folder
        → step oracles now state store tag (append_of said) ≡ put_step oracles now tag state store said folder }
    ensures change { (oracles : Oracles) (now tag : List ℕ) (state : State) (store : StoreState) (said : Said) (folder : ℕ)
        → let octets = completed said.octets in
        changes_in (put_step oracles now tag state store said folder).acts ≡ (appended folder said.flags (oracles.mark_of octets) (date_or now said.date) octets ∷ []) ∷ [] }
    ensures either { (oracles : Oracles) (now tag : List ℕ) (state : State) (mode : Mode) (account : ℕ) (store : StoreState) (said : Said)
        → TellsTrees oracles.has_tree → IsAuthenticated mode account state
        → let taken = step oracles now state store tag (append_of said) in
        let context = context_of oracles now tag store in
        IsPut context state mode account said taken ⊎ IsRefused context state mode account said taken }
    ensures none { (tag : List ℕ) (state : State) (cause : Cause) → changes_in (says tag (words_of_cause cause) state).acts ≡ [] }
    ensures before { (oracles : Oracles) (now tag : List ℕ) (store : StoreState) (said : Said)
        → step oracles now not_authenticated store tag (append_of said) ≡ out_of_order tag not_authenticated }
{}

/// Only CREATE, APPEND, STORE, FETCH, EXPUNGE and CLOSE may change the store, and no command does before login. Where a folder was opened by EXAMINE
/// only what adds something to the store changes it.
pub fn few_commands_change_the_store()
    ensures others { (oracles : Oracles) (now tag : List ℕ) (state : State) (store : StoreState) (said : Command) → changes_store said ≡ false
        → changes_in (step oracles now state store tag said).acts ≡ [] }
    ensures before { (oracles : Oracles) (now tag : List ℕ) (store : StoreState) (said : Command) → changes_in (step oracles now not_authenticated store tag said).acts ≡ [] }
    ensures examined { (oracles : Oracles) (now tag : List ℕ) (mode : Mode) (account folder : ℕ) (store : StoreState) (said : Command) → adds_to_store said ≡ false
        → let state = selected (record { mode = mode; account = account; folder = folder; read_only = true }) in
        changes_in (step oracles now state store tag said).acts ≡ [] }
{}

/// Until a session has ended each command is answered: all that it does is done before the line with its tag is given, which is the last.
pub fn each_command_is_answered()
    ensures { (oracles : Oracles) (now tag : List ℕ) (state : State) (store : StoreState) (said : Command) → state ≢ ended
        → EndsTagged tag (step oracles now state store tag said) }
{}

/// After a stream the machine's store is the one before it with the changes that its commands make.
pub fn the_store_has_the_changes()
    ensures { (oracles : Oracles) (machine : Machine) (octets : List ℕ) → let turn = all_turns (next_turn oracles) machine octets in
        turn.after.store ≡ with_records machine.store (records_of (changes_in turn.parts)) }
{}

/// Only FETCH and UID FETCH ask the cache for messages, and no command does once UTF-8 is enabled. In a legacy session each message that is told
/// is asked for once, in their order, where an item is of the message itself: flags, UID and date are kept beside it.
pub fn only_fetch_asks_for_messages()
    ensures others { (oracles : Oracles) (now tag : List ℕ) (state : State) (store : StoreState) (said : Command) → is_fetch said ≡ false
        → asked_in (step oracles now state store tag said).acts ≡ [] }
    ensures enabled { (oracles : Oracles) (now tag : List ℕ) (state : State) (store : StoreState) (said : Command) → mode_of state ≡ enabled
        → asked_in (step oracles now state store tag said).acts ≡ [] }
    ensures once { (oracles : Oracles) (now tag : List ℕ) (account folder : ℕ) (read_only : Bool) (store : StoreState) (by_uid : Bool) (set : Set) (items : List FetchItem)
        → list_any is_of_message items ≡ true → is_refused by_uid set (listed store.kept folder) ≡ false
        → let state = selected (record { mode = legacy; account = account; folder = folder; read_only = read_only }) in
        asked_in (step oracles now state store tag (command_is.Fetch by_uid set items)).acts ≡ map (asked_as store) (chosen by_uid set (listed store.kept folder)) }
    ensures beside { (oracles : Oracles) (now tag : List ℕ) (mode : Mode) (account folder : ℕ) (read_only : Bool) (store : StoreState) (by_uid : Bool) (set : Set) (items : List FetchItem)
        → list_any is_of_message items ≡ false
        → let state = selected (record { mode = mode; account = account; folder = folder; read_only = read_only }) in
        asked_in (step oracles now state store tag (command_is.Fetch by_uid set items)).acts ≡ [] }
    ensures refused { (oracles : Oracles) (now tag : List ℕ) (mode : Mode) (account folder : ℕ) (read_only : Bool) (store : StoreState) (by_uid : Bool) (set : Set) (items : List FetchItem)
        → is_refused by_uid set (listed store.kept folder) ≡ true
        → let state = selected (record { mode = mode; account = account; folder = folder; read_only = read_only }) in
        asked_in (step oracles now state store tag (command_is.Fetch by_uid set items)).acts ≡ [] }
{}

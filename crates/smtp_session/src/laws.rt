//! Laws of which data are taken, of written paths, of transactions, of what is kept, and of the store after a stream.
ghost use Rattle.std.specs.Prelude.{◌≡◌, ◌≢◌, ◌<◌, ◌++◌, ◌∷◌, ℕ, List, [], Bool, Option, Some, IfSome, true, false, codes};
ghost use Rattle.mail_wire.specs.Message.{IsEnded};
ghost use Rattle.session_core.specs.Turns.{following};
ghost use Rattle.address_grammar.specs.declared.Address.{Address};
ghost use Rattle.address_grammar.specs.Paths.{ComesInPath, in_angles};
ghost use Rattle.session_core.specs.Acts.{gives, changes, changes_in};
ghost use Rattle.mail_store.specs.Answers.{IsFold};
ghost use Rattle.journal_records.specs.Addresses.{path_text};
ghost use Rattle.kept_mail.specs.Deliveries.{delivered};
ghost use Rattle.kept_mail.specs.Kept.{Kept, name_of};
ghost use Rattle.mail_store.specs.Following.{records_of};
ghost use Rattle.mail_store.specs.StoreState.{StoreState, with_records};
ghost use Rattle.journal_records.specs.Stored.{IsStored};
ghost use Rattle.smtp_grammar.specs.Commands.{path_after, ends_word};
ghost use Rattle.smtp_grammar.specs.Data.{sent};
ghost use Rattle.smtp_grammar.specs.declared.command.Verb.{Verb};
ghost use Rattle.smtp_grammar.specs.declared.command.Verb.TheVariants as verb;
ghost use Rattle.smtp_session.specs.Intake.{AreRecipients, IsKeptOnce, KeepsAccepted, KnowsRecipients, acceptance, kept_after, stored_line};
ghost use Rattle.smtp_session.specs.Machine.{State, collecting, fresh, greeted, mail, envelope_recipient_count, says, step, delivery_of, end_data};
ghost use Rattle.session_core.specs.Oracles.{Oracles, TellsTrees};
ghost use Rattle.smtp_session.specs.Loops.{is_looping};
ghost use Rattle.smtp_session.specs.Room.{IsWithinLimits};
ghost use Rattle.smtp_session.specs.Session.{Machine, later_moments, next_moment, start_of, turns_of};
ghost use Rattle.session_core.specs.Desks.{IsStoreName};
ghost use Rattle.session_core.specs.Moments.{Moment};
ghost use Rattle.smtp_session.specs.Transaction.{TransactionGoesOn, IsTransactionKept, TakesData, TakesRecipient, TakesSender, go_ahead, recipient_ok, sender_ok};
ghost use Rattle.smtp_session.specs.declared.states.Client.{Client};
ghost use Rattle.smtp_session.specs.declared.states.Envelope.{Envelope};

/// With a recipient DATA is accepted. Data that a client sends of any lines that have a tree, don't go in a circle and are within the
/// limits are accepted: over a stream they are kept and told to be stored, and what follows them is read on.
pub fn whole_data_are_taken()
    ensures begun { (oracles : Oracles) (client : Client) (envelope : Envelope) (store : StoreState) (argument : List ℕ) → 0 < envelope_recipient_count envelope
        → step oracles (mail client envelope) store verb.Data argument ≡ says (codes "354 go ahead") (collecting client envelope) }
    ensures accepted { (oracles : Oracles) (store : StoreState) (client : Client) (envelope : Envelope) (moment : Moment) (octets : List ℕ)
        → TellsTrees oracles.has_tree → IsStored octets → is_looping octets ≡ false → IsWithinLimits store (delivery_of oracles store client envelope moment octets)
        → (end_data oracles store client envelope moment octets).reply ≡ acceptance }
    ensures stream { (oracles : Oracles) (store : StoreState) (client : Client) (envelope : Envelope) (moments : List Moment) (octets rest : List ℕ)
        → TellsTrees oracles.has_tree → IsEnded octets → IsStored octets → is_looping octets ≡ false
        → let delivery = delivery_of oracles store client envelope (next_moment moments) octets in IsWithinLimits store delivery
        → turns_of oracles (record { state = collecting client envelope; store = store; moments = moments }) (sent octets rest)
        ≡ following (changes (delivered store.kept delivery) ∷ gives stored_line ∷ [])
        (turns_of oracles (record { state = greeted client; store = with_records store (delivered store.kept delivery); moments = later_moments moments }) rest) }
{}

/// The path that is written for an address is found whole after any word, also where a space stands between, and so is the
/// null path, where nothing follows or white does.
pub fn written_paths_are_found()
    ensures following { (word : List ℕ) (path : Option Address) → IfSome path ComesInPath → (rest : List ℕ) → ends_word rest ≡ true
        → path_after word (word ++ (in_angles (path_text path) ++ rest)) ≡ Some (record { path = in_angles (path_text path); rest = rest }) }
    ensures spaced { (word : List ℕ) (path : Option Address) → IfSome path ComesInPath → (rest : List ℕ) → ends_word rest ≡ true
        → path_after word (word ++ 32 ∷ (in_angles (path_text path) ++ rest)) ≡ Some (record { path = in_angles (path_text path); rest = rest }) }
{}

/// An accepted MAIL begins a transaction with the path that it says and without recipients; of an accepted RCPT the recipient stands
/// after all that were there; after an accepted DATA the data are those of the transaction; and while it goes on no command takes
/// its path or a recipient away.
pub fn recipients_stay()
    ensures sender { (oracles : Oracles) (state : State) (store : StoreState) (argument : List ℕ)
        → let taken = step oracles state store verb.Mail argument in taken.reply ≡ sender_ok → TakesSender oracles argument state taken.state }
    ensures recipient { (oracles : Oracles) (state : State) (store : StoreState) (argument : List ℕ)
        → let taken = step oracles state store verb.Rcpt argument in taken.reply ≡ recipient_ok → TakesRecipient oracles store.kept argument state taken.state }
    ensures data { (oracles : Oracles) (state : State) (store : StoreState) (argument : List ℕ)
        → let taken = step oracles state store verb.Data argument in taken.reply ≡ go_ahead → TakesData state taken.state }
    ensures going { (oracles : Oracles) (client : Client) (envelope : Envelope) (store : StoreState) (word : Verb) (argument : List ℕ)
        → TransactionGoesOn client envelope (step oracles (mail client envelope) store word argument).state }
{}

/// Mail that is accepted is kept once for each of its recipients, and nothing else is kept: neither of mail that isn't accepted
/// nor by a command. The recipients that a state names are accounts that are there, none of them twice, and different mailboxes
/// elsewhere: before the first command, after each one, and after data, where none are left. So over a whole stream each message
/// that is kept is kept once for each of its recipients and then told to be stored, and nothing else is kept or told so.
pub fn accepted_mail_is_kept_once()
    ensures stored { (oracles : Oracles) (store : StoreState) (client : Client) (envelope : Envelope) (moment : Moment) (octets : List ℕ)
        → IsFold store.kept → AreRecipients store.kept envelope
        → let taken = end_data oracles store client envelope moment octets in taken.reply ≡ acceptance
        → IsKeptOnce store.kept (kept_after store taken) (delivery_of oracles store client envelope moment octets) }
    ensures transaction { (oracles : Oracles) (store : StoreState) (client : Client) (envelope : Envelope) (moment : Moment) (octets : List ℕ)
        → IsFold store.kept → AreRecipients store.kept envelope
        → let taken = end_data oracles store client envelope moment octets in taken.reply ≡ acceptance
        → IsTransactionKept store.kept (kept_after store taken) client envelope moment octets }
    ensures refused { (oracles : Oracles) (store : StoreState) (client : Client) (envelope : Envelope) (moment : Moment) (octets : List ℕ)
        → let taken = end_data oracles store client envelope moment octets in taken.reply ≢ acceptance → taken.changes ≡ [] }
    ensures commands { (oracles : Oracles) (state : State) (store : StoreState) (verb : Verb) (argument : List ℕ)
        → (step oracles state store verb argument).changes ≡ [] }
    ensures fresh { (kept : Kept) (first : Bool) → KnowsRecipients kept (fresh first) }
    ensures recipients { (oracles : Oracles) (state : State) (store : StoreState) (verb : Verb) (argument : List ℕ)
        → KnowsRecipients store.kept state → KnowsRecipients store.kept (step oracles state store verb argument).state }
    ensures forgotten { (oracles : Oracles) (store : StoreState) (client : Client) (envelope : Envelope) (moment : Moment) (octets : List ℕ)
        → (end_data oracles store client envelope moment octets).state ≡ greeted client }
    ensures stream { (oracles : Oracles) (store : StoreState) (moments : List Moment) (octets : List ℕ) → IsFold store.kept → IsStoreName (name_of store.kept)
        → KeepsAccepted store (turns_of oracles (start_of store moments) octets).parts }
{}

/// After a stream the machine's store is the one before it with the changes that its commands and its data make.
pub fn the_store_has_the_changes()
    ensures { (oracles : Oracles) (machine : Machine) (octets : List ℕ) → let turn = turns_of oracles machine octets in
        turn.after.store ≡ with_records machine.store (records_of (changes_in turn.parts)) }
{}

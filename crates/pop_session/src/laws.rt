//! Laws of HTTP requests, of what is sent of a message, of the mode of a session, of what QUIT takes out, of the store after a stream, and of what is asked for.
ghost use Rattle.std.specs.Prelude.{◌≡◌, ◌≢◌, ◌++◌, ◌∷◌, ◌↔◌, [], ℕ, List, Option, None, Some, codes, map, true, false, IsTrue};
ghost use Rattle.std.specs.List.{All, flat_map};
ghost use Rattle.http_lines.specs.Requests.{is_http_request};
ghost use Rattle.mail_wire.specs.Framing.{next_line, whole};
ghost use Rattle.mail_wire.specs.Lines.{lines_of};
ghost use Rattle.kept_mail.specs.declared.kept.Listed.{Listed};
ghost use Rattle.mail_store.specs.Following.{records_of};
ghost use Rattle.mail_store.specs.StoreState.{StoreState, with_records};
ghost use Rattle.surrogate_cache.specs.Caching.{Asked, asked_by};
ghost use Rattle.surrogate_cache.specs.Served.{Mode, legacy, enabled};
ghost use Rattle.session_core.specs.Acts.{asked_in, changes_in};
ghost use Rattle.session_core.specs.Desks.{stored_octets};
ghost use Rattle.session_core.specs.Oracles.{Oracles};
ghost use Rattle.pop_session.specs.Commands.{Command, command_of};
ghost use Rattle.mail_wire.specs.Numbers.{number_of};
ghost use Rattle.pop_session.specs.History.{after_commands, commands_in, IsOfMode, enables, some_enables, mode_after, IsQuit, with_marks, marks_by, marks_after, IsMarked, AreInStore, IsRefused, TellsSizes, asked_by_commands, number_in};
ghost use Rattle.pop_session.specs.Machine.{State, greeted, authorization, transaction, ended, acts_in, answers, asked_of, done, inbox_messages, left_of, listed_at, quit_step, step, syntax_error, transaction_step};
ghost use Rattle.pop_session.specs.Replies.{multi_line};
ghost use Rattle.mail_wire.specs.Dots.{unstuffed_line, missing_end};
ghost use Rattle.pop_session.specs.Session.{Machine, after_step, pop_protocol, start_of, turns_of};
ghost use Rattle.pop_session.specs.declared.command.Keyword.TheVariants as keyword;
ghost use Rattle.pop_session.specs.declared.states.MaildropMessage.{MaildropMessage};

/// No line of what is sent of a multi-line reply is a dot alone but the last. Without the dots that they begin with, the
/// others are the lines of the text, the last of them complete.
pub fn stuffed_lines_are_no_dots()
    ensures none { (text : List ℕ) → All (λ line. line ≢ codes ".\r\n") (lines_of (multi_line text)) }
    ensures end { (text : List ℕ) → lines_of (multi_line text ++ codes ".\r\n") ≡ lines_of (multi_line text) ++ codes ".\r\n" ∷ [] }
    ensures back { (text : List ℕ) → flat_map unstuffed_line (lines_of (multi_line text)) ≡ text ++ missing_end text }
{}

/// A first line that begins an HTTP request is answered `-ERR syntax`, and the session has ended. Any other does what it does in AUTHORIZATION
/// of a legacy session in which no name was given. A later line that begins such a request is one with an unknown keyword.
pub fn only_a_first_line_is_refused_as_http()
    ensures first { (oracles : Oracles) (store : StoreState) (text rest octets : List ℕ) → next_line octets ≡ whole text rest → is_http_request text ≡ true
        → pop_protocol.next oracles (start_of store) octets
        ≡ Some (record { parts = acts_in (answers syntax_error ended); after = after_step store (answers syntax_error ended); rest = rest }) }
    ensures others { (oracles : Oracles) (store : StoreState) (text : List ℕ) → is_http_request text ≡ false
        → step oracles greeted store (command_of text) ≡ step oracles (authorization legacy None) store (command_of text) }
    ensures later { (oracles : Oracles) (state : State) (store : StoreState) (argument : Option (List ℕ)) → state ≢ greeted
        → step oracles state store (record { keyword = keyword.Http; argument = argument }) ≡ step oracles state store (record { keyword = keyword.Other; argument = argument }) }
{}

/// Only UTF8 that is accepted changes the mode, and every other command leaves it. So after a stream a session is enabled
/// where one of its commands was such, and else it is legacy, or it has ended.
pub fn only_utf8_changes_the_mode()
    ensures accepted { (oracles : Oracles) (state : State) (store : StoreState) (argument : Option (List ℕ))
        → let command : Command = record { keyword = keyword.Utf8; argument = argument } in
        ((step oracles state store command).reply ≡ done) ↔ IsTrue (enables state command) }
    ensures other { (state : State) (command : Command) → command.keyword ≢ keyword.Utf8 → ¬ IsTrue (enables state command) }
    ensures command { (oracles : Oracles) (state : State) (store : StoreState) (command : Command) (mode : Mode)
        → IsOfMode mode state → IsOfMode (mode_after (enables state command) mode) (step oracles state store command).state }
    ensures stream { (oracles : Oracles) (store : StoreState) (octets : List ℕ)
        → IsOfMode (mode_after (some_enables oracles (start_of store) (commands_in octets)) legacy) (turns_of oracles (start_of store) octets).after.state }
{}

/// QUIT takes out exactly the messages that DELE has marked since the last RSET, where each DELE is one that was answered so. No other
/// command changes the store: until the session has ended, it is as it was.
pub fn quit_takes_out_what_is_marked()
    ensures login { (oracles : Oracles) (mode is : Mode) (user : Option (List ℕ)) (store : StoreState) (command : Command) (maildrop : List MaildropMessage)
        → (step oracles (authorization mode user) store command).state ≡ transaction is maildrop
        → (account : ℕ) × (maildrop ≡ with_marks 1 [] (inbox_messages store.kept account)) }
    ensures marked { (oracles : Oracles) (mode : Mode) (listing : List Listed) (marks : List ℕ) (machine : Machine) (commands : List Command)
        → IsMarked mode listing marks machine.state
        → IsMarked mode listing (marks_after listing marks commands) (after_commands oracles machine commands).state }
    ensures answered { (oracles : Oracles) (mode : Mode) (listing : List Listed) (marks : List ℕ) (store : StoreState) (text : List ℕ) (number : ℕ)
        → number_of text ≡ Some number
        → ((transaction_step oracles mode (with_marks 1 marks listing) store keyword.Dele (Some text)).reply ≡ done)
        ↔ (marks_by listing marks keyword.Dele (Some text) ≡ number ∷ marks) }
    ensures quit { (oracles : Oracles) (mode : Mode) (listing : List Listed) (marks : List ℕ) (store : StoreState) (command : Command)
        → let state = transaction mode (with_marks 1 marks listing) in IsQuit state command → step oracles state store command ≡ quit_step (with_marks 1 marks listing) }
    ensures others { (oracles : Oracles) (state : State) (store : StoreState) (command : Command) → ¬ IsQuit state command
        → (step oracles state store command).changes ≡ [] }
    ensures stream { (oracles : Oracles) (machine : Machine) (octets : List ℕ) → (turns_of oracles machine octets).after.state ≢ ended
        → (turns_of oracles machine octets).after.store ≡ machine.store }
{}

/// After a stream the machine's store is the one before it with the changes that its commands make.
pub fn the_store_has_the_changes()
    ensures { (oracles : Oracles) (machine : Machine) (octets : List ℕ) → let turn = turns_of oracles machine octets in
        turn.after.store ≡ with_records machine.store (records_of (changes_in turn.parts)) }
{}

/// A legacy session asks its cache for each message whose size it adds up or lists, in their order, and for the one that it names or shows, each
/// with the octets that the store has of it.
pub fn legacy_sizes_and_messages_are_asked_for()
    ensures sizes { (maildrop : List MaildropMessage) (store : StoreState) (command : Command) → TellsSizes command
        → map (λ (one : Asked). one.id) (asked_of (transaction legacy maildrop) store command) ≡ map (λ (one : Listed). one.id) (left_of maildrop) }
    ensures named { (maildrop : List MaildropMessage) (store : StoreState) (command : Command) (number : ℕ) (one : Listed)
        → number_in command.keyword command.argument ≡ Some number → listed_at maildrop number ≡ Some one
        → asked_of (transaction legacy maildrop) store command ≡ asked_by legacy one.id (stored_octets store one.id) }
    ensures octets { (state : State) (store : StoreState) (command : Command) → AreInStore store (asked_of state store command) }
{}

/// No other command asks its cache for a message, nor does one that is refused, and a session that has enabled UTF-8 asks for none.
pub fn nothing_else_is_asked_for()
    ensures others { (state : State) (store : StoreState) (command : Command) → ¬ TellsSizes command → number_in command.keyword command.argument ≡ None
        → asked_of state store command ≡ [] }
    ensures refused { (oracles : Oracles) (state : State) (store : StoreState) (command : Command) → IsRefused (step oracles state store command).reply
        → asked_of state store command ≡ [] }
    ensures enabled { (state : State) (store : StoreState) (command : Command) → IsOfMode enabled state → asked_of state store command ≡ [] }
{}

/// The messages that a stream asks for are those of its commands, in their order.
pub fn a_stream_asks_for_what_its_commands_do()
    ensures { (oracles : Oracles) (machine : Machine) (octets : List ℕ)
        → asked_in (turns_of oracles machine octets).parts ≡ asked_by_commands oracles machine (commands_in octets) }
{}

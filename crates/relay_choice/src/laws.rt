//! Laws of the choice, of replies and of a run.
ghost use Rattle.std.specs.Prelude.{◌≡◌, ◌++◌, ℕ, ◌<◌, ◌≤◌, List, [], Option, true, false, Some, length, slice_get, flat_map, sum_by, Contains};
ghost use Rattle.std.specs.List.{All, range_with_len};
ghost use Rattle.address_grammar.specs.declared.Address.{Address};
ghost use Rattle.journal_records.specs.Stored.{mark_in};
ghost use Rattle.mail_wire.specs.Octets.{is_high};
ghost use Rattle.mime_tree.specs.declared.entity.Entity.{Entity};
ghost use Rattle.mime_tree.specs.Tree.{has_high_block};
ghost use Rattle.relay_choice.specs.declared.mail_objects.Act.{Act};
ghost use Rattle.relay_choice.specs.declared.mail_objects.Act.TheVariants as act;
ghost use Rattle.relay_choice.specs.declared.reader.ReplyReader.{ReplyReader};
ghost use Rattle.relay_choice.specs.declared.mail_objects.MailObject.{MailObject};
ghost use Rattle.relay_choice.specs.declared.mail_objects.Outcome.{Outcome};
ghost use Rattle.relay_choice.specs.declared.plans.Demands.{Demands};
ghost use Rattle.relay_choice.specs.declared.plans.Form.{Form};
ghost use Rattle.relay_choice.specs.declared.plans.Offer.{Offer};
ghost use Rattle.relay_choice.specs.declared.replies.Reply.{Reply};
ghost use Rattle.relay_choice.specs.declared.replies.ReplyRead.{ReplyRead};
ghost use Rattle.relay_choice.specs.declared.replies.ReplyRead.TheVariants as read;
ghost use Rattle.relay_choice.specs.MailObjects.{demands_of};
ghost use Rattle.relay_choice.specs.Offers.{offer_of};
ghost use Rattle.relay_choice.specs.Pieces.{BeginsBy, DecidesBy};
ghost use Rattle.relay_choice.specs.Plans.{form_of, has_bit, is_sent, plan_for};
ghost use Rattle.relay_choice.specs.Relay.{Run, after_acts, finished, left_count, outcomes_in, relay_of, stopped, waits};
ghost use Rattle.relay_choice.specs.Replies.{IsDecided, IsReply, IsReplyRead};
ghost use Rattle.relay_choice.specs.Said.{said_path};
ghost use Rattle.relay_choice.specs.Settling.{AreItsOutcomes, HasCode, IsFitOutcome, IsSentToSome, numbers_in, offer_in};
ghost use Rattle.relay_choice.specs.Standing.{rest_of};
ghost use Rattle.relay_choice.specs.declared.states.Client.{Client};
ghost use Rattle.relay_choice.specs.declared.replies.TheConstants.{REPLY_LINES, REPLY_LINE_MAX};

/// The first bit of a message's mark says whether a header block has an octet above 127, and the second whether the message has one.
pub fn marks_say_what_is_needed()
    ensures header { (octets : List ℕ) (entities : List Entity) → has_bit 1 (mark_in octets entities) ≡ has_high_block octets entities }
    ensures eight { (octets : List ℕ) (entities : List Entity) → has_bit 2 (mark_in octets entities) ≡ is_high octets }
{}

/// A header in UTF-8 goes to no server that doesn't offer SMTPUTF8, and such an offer has 8BITMIME.
pub fn utf8_headers_go_where_they_are_read()
    ensures header { (demands : Demands) (recipient : Form) (offer : Offer) → demands.header ≡ true → offer.smtputf8 ≡ false → is_sent (plan_for demands recipient offer) ≡ false }
    ensures eight { (reply : Reply) → (offer_of reply).smtputf8 ≡ true → (offer_of reply).eight ≡ true }
{}

/// What is sent to a server without SMTPUTF8 has no octet above 127 in a header block, nor in its path or the recipient's, in A-labels; to one
/// without 8BITMIME, none at all.
pub fn no_more_is_sent_than_is_offered()
    ensures header { (path : Option Address) (octets : List ℕ) (entities : List Entity) (address : Address) (offer : Offer) → offer.smtputf8 ≡ false
        → is_sent (plan_for (demands_of path octets entities) (form_of address) offer) ≡ true → has_high_block octets entities ≡ false }
    ensures path { (path : Option Address) (octets : List ℕ) (entities : List Entity) (address : Address) (offer : Offer) → offer.smtputf8 ≡ false
        → is_sent (plan_for (demands_of path octets entities) (form_of address) offer) ≡ true → is_high (said_path offer path) ≡ false }
    ensures recipient { (path : Option Address) (octets : List ℕ) (entities : List Entity) (address : Address) (offer : Offer) → offer.smtputf8 ≡ false
        → is_sent (plan_for (demands_of path octets entities) (form_of address) offer) ≡ true → is_high (said_path offer (Some address)) ≡ false }
    ensures octets { (path : Option Address) (octets : List ℕ) (entities : List Entity) (address : Address) (reply : Reply) → (offer_of reply).eight ≡ false
        → is_sent (plan_for (demands_of path octets entities) (form_of address) (offer_of reply)) ≡ true → is_high octets ≡ false }
{}

/// Octets begin with one thing.
pub fn octets_are_read_once()
    ensures { (octets : List ℕ) (one other : ReplyRead) → IsReplyRead octets one → IsReplyRead octets other → one ≡ other }
{}

/// A reader finds what all octets begin with, however they were cut into pieces, and what it decides is no front that goes on.
pub fn pieces_are_read_as_one()
    ensures begun { (before piece : List ℕ) (reader : ReplyReader) → BeginsBy before piece reader → IsReplyRead (before ++ piece) read.More }
    ensures decided { (before piece octets : List ℕ) (used : ℕ) (found : ReplyRead) → DecidesBy before piece octets used → IsReplyRead octets found → IsReplyRead (before ++ piece) found }
    ensures ended { (octets : List ℕ) → IsDecided octets → IsReplyRead octets read.More → ⊥ }
{}

/// The code of a reply is 200 to 599, and so is that of an outcome, where the replies have such codes.
pub fn codes_are_those_of_replies()
    ensures reply { (octets : List ℕ) (reply : Reply) → IsReply octets reply → HasCode reply }
    ensures outcome { (name : List ℕ) (mail_objects : List MailObject) (replies : List Reply) (number : ℕ) (outcomes : List Outcome) → All HasCode replies
        → Contains (relay_of name mail_objects replies).acts (act.Settle number outcomes) → All IsFitOutcome outcomes }
{}

/// A run that was stopped or is finished doesn't go on, whatever else a server says.
pub fn an_ended_run_stays()
    ensures stopped { (name : List ℕ) (mail_objects : List MailObject) (replies more : List Reply) (reply : Reply) → (relay_of name mail_objects replies).end ≡ stopped reply
        → relay_of name mail_objects (replies ++ more) ≡ relay_of name mail_objects replies }
    ensures finished { (name : List ℕ) (mail_objects : List MailObject) (replies more : List Reply) → (relay_of name mail_objects replies).end ≡ finished
        → relay_of name mail_objects (replies ++ more) ≡ relay_of name mail_objects replies }
{}

/// A run that awaits a reply goes on from there: what was done is done, whatever else a server says.
pub fn a_waiting_run_goes_on()
    ensures waits { (name : List ℕ) (mail_objects : List MailObject) (replies more : List Reply) → (relay_of name mail_objects replies).end ≡ waits
        → (rest : Run) × (relay_of name mail_objects (replies ++ more) ≡ after_acts (relay_of name mail_objects replies).acts rest) }
    ensures grows { (name : List ℕ) (mail_objects : List MailObject) (replies more : List Reply)
        → (rest : List Act) × ((relay_of name mail_objects (replies ++ more)).acts ≡ (relay_of name mail_objects replies).acts ++ rest) }
{}

/// A client waits for the reply that it awaits: without one it does nothing.
pub fn a_client_waits_for_its_reply()
    ensures { (client : Client) → rest_of client [] ≡ record { acts = []; end = waits } }
{}

/// Mail objects are settled in order, each once and with an outcome for each recipient. No recipient is left where a run is finished, and only there.
pub fn mail_objects_are_settled_in_order()
    ensures order { (name : List ℕ) (mail_objects : List MailObject) (replies : List Reply)
        → (count : ℕ) × (count ≤ length mail_objects) × (flat_map numbers_in (relay_of name mail_objects replies).acts ≡ range_with_len 0 count) }
    ensures all { (name : List ℕ) (mail_objects : List MailObject) (replies : List Reply) → (relay_of name mail_objects replies).end ≡ finished
        → flat_map numbers_in (relay_of name mail_objects replies).acts ≡ range_with_len 0 (length mail_objects) }
    ensures whole { (name : List ℕ) (mail_objects : List MailObject) (replies : List Reply) (number : ℕ) (outcomes : List Outcome)
        → Contains (relay_of name mail_objects replies).acts (act.Settle number outcomes) → AreItsOutcomes mail_objects number outcomes }
    ensures none_left { (name : List ℕ) (mail_objects : List MailObject) (replies : List Reply) → (relay_of name mail_objects replies).end ≡ finished
        → left_count mail_objects (relay_of name mail_objects replies).acts ≡ 0 }
    ensures most { (name : List ℕ) (mail_objects : List MailObject) (replies : List Reply)
        → length (flat_map outcomes_in (relay_of name mail_objects replies).acts) ≤ sum_by (λ (mail_object : MailObject). length mail_object.recipients) mail_objects }
    // Of mail objects without recipients nobody is left from the beginning on.
    ensures some_left { (name : List ℕ) (mail_objects : List MailObject) (replies : List Reply) → 0 < sum_by (λ (mail_object : MailObject). length mail_object.recipients) mail_objects
        → left_count mail_objects (relay_of name mail_objects replies).acts ≡ 0 → (relay_of name mail_objects replies).end ≡ finished }
{}

/// A message goes out only where the plan says so, by what the reply to EHLO offers.
pub fn messages_go_by_plan()
    ensures sent { (name : List ℕ) (mail_objects : List MailObject) (replies : List Reply) (number : ℕ) → Contains (relay_of name mail_objects replies).acts (act.SayData number)
        → IsSentToSome (offer_in replies) mail_objects number }
    ensures header { (name : List ℕ) (mail_objects : List MailObject) (replies : List Reply) (number : ℕ) (mail_object : MailObject) → Contains (relay_of name mail_objects replies).acts (act.SayData number)
        → slice_get mail_objects number ≡ Some mail_object → mail_object.demands.header ≡ true → (offer_in replies).smtputf8 ≡ true }
{}

/// A reply has at most 100 lines, and a line 2,048 octets.
pub fn limits_are_these()
    ensures lines { REPLY_LINES ≡ 100 }
    ensures line { REPLY_LINE_MAX ≡ 2048 }
{}

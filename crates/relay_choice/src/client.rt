//! The client of a next server.
ghost use Rattle.std.specs.Prelude.{◌≡◌, ◌+◌, ◌<◌, List, ◌∷◌, [], IfOk, length, map, drop};
ghost use Rattle.std.specs.List.{All};
ghost use Rattle.relay_choice.specs.MailObjects.{IsAddressed};
ghost use Rattle.relay_choice.specs.Relay.{answered_transaction, after_acts, done, outcome_by, rcpt_transaction, relay_of, sent_after};
ghost use Rattle.relay_choice.specs.declared.states.Awaited.TheVariants as awaited;
ghost use Rattle.relay_choice.specs.Standing.{ComesTo, HasFewerLeft, LeavesBy, RunsOn, mail_object_left, mail_object_run, replies_left, replies_to, rest_of, run_from, standing_of};
ghost use Rattle.relay_choice.specs.Said.{reset_line};
ghost use Rattle.relay_choice.specs.Within.{HasItsMailObject};
ghost use Rattle.relay_choice.specs.declared.replies.Reply.{Reply as ReplyValue};
ghost use Rattle.relay_choice.specs.private.Turns.{PassesUnsent, SaysOnly};

use crate::mail_objects::{Act, Acts, MailObjects};
use crate::offers::{is_completed, is_intermediate, is_permanent, offer_of};
use crate::outcomes::{is_answer, is_some_accepted, next_sent, outcomes_of, same_answers};
use crate::plans::Offer;
use crate::replies::Reply;
use crate::said::{ehlo_line, mail_line, rcpt_line};
use crate::states::{Awaited, Client};
use mail_wire::{Items, Memory, Octets};
use std::alloc::Global;

/// What came of a reply.
#[derive(Debug, Drop)]
pub enum Turn {
    /// These acts, and a further reply is awaited.
    Goes { client: Client, acts: Acts },
    /// These acts, the last of which is QUIT, and nothing more.
    Ends(Acts),
    /// Nothing: this reply stops the run.
    Stops,
}

impl Client {
    /// A client of this name, with these mail objects, that was connected to a server.
    pub fn new(alloc: Global, name: Octets, mail_objects: MailObjects) -> Self
        requires { All IsAddressed mail_objects }
        ensures { (replies : List ReplyValue) → rest_of result replies ≡ relay_of name mail_objects replies }
    {
        let offer = Offer {
            smtputf8: false,
            eight: false,
        };
        Client {
            alloc,
            name,
            mail_objects,
            at: 0,
            offer,
            awaited: Awaited::Greeting,
            answers: Items::new(alloc),
        }
    }

    // Says this, and awaits the reply to it.
    fn says(self, octets: Octets, awaited: Awaited) -> Result<Turn, Memory>
        requires { HasItsMailObject awaited self.at self.mail_objects }
        ensures { IfOk result (SaysOnly (standing_of self) octets awaited) }
    {
        let mut acts = Items::new(self.alloc);
        acts.push(Act::Say(octets))?;
        let mut client = self;
        client.awaited = awaited;
        Ok(Turn::Goes { client, acts })
    }

    // Settles the mail objects from this number on that are sent to nobody, up to one that is: its number, or how many mail objects there are.
    fn pass_unsent(&self, from: usize, acts: &mut Acts) -> Result<usize, Memory>
        ensures { IfOk result (PassesUnsent self.now from acts.old acts.new) }
    {
        let mail_objects = self.mail_objects.as_slice();
        let mut at = from;
        while at < mail_objects.len() {
            let mail_object = &mail_objects[at];
            if next_sent(mail_object, self.offer, 0).is_some() {
                return Ok(at);
            }
            let outcomes = outcomes_of(self.alloc, self.offer, mail_object, &[], None)?;
            acts.push(Act::Settle(at, outcomes))?;
            at += 1;
        }
        Ok(at)
    }

    // Begins with the first mail object from this number on that is sent to somebody; without one it takes leave.
    fn begin_from(self, from: usize, acts: Acts) -> Result<Turn, Memory>
        ensures runs { IfOk result (RunsOn (λ left. after_acts acts (run_from (standing_of self) from left))) }
        ensures fewer { IfOk result (HasFewerLeft (replies_to (drop from self.mail_objects) + 1)) }
    {
        let alloc = self.alloc;
        let mut acts = acts;
        let at = self.pass_unsent(from, &mut acts)?;
        let Some(mail_object) = self.mail_objects.as_slice().get(at) else {
            acts.push(Act::Say(Octets::from_slice(alloc, b"QUIT\r\n")?))?;
            return Ok(Turn::Ends(acts));
        };
        let line = mail_line(alloc, self.offer, mail_object)?;
        acts.push(Act::Say(line))?;
        let client = Client {
            alloc,
            name: self.name,
            mail_objects: self.mail_objects,
            at,
            offer: self.offer,
            awaited: Awaited::Mail,
            answers: Items::new(alloc),
        };
        Ok(Turn::Goes { client, acts })
    }

    // Settles the mail object, which a reply with this code refuses, if one does, and goes on with those after it.
    fn settle(self, code: Option<u16>) -> Result<Turn, Memory>
        requires { self.at < length self.mail_objects }
        ensures runs { IfOk result (RunsOn (λ left. mail_object_run (standing_of self) (λ mail_object. done [] (map (outcome_by code) self.answers) left))) }
        ensures fewer { IfOk result (HasFewerLeft (mail_object_left (standing_of self) (λ mail_object. 1))) }
    {
        let mail_object = &self.mail_objects.as_slice()[self.at];
        let outcomes = outcomes_of(
            self.alloc,
            self.offer,
            mail_object,
            self.answers.as_slice(),
            code,
        )?;
        let mut acts = Items::new(self.alloc);
        acts.push(Act::Settle(self.at, outcomes))?;
        let next = self.at + 1;
        self.begin_from(next, acts)
    }

    // RSET; what the answers say of the recipients stays.
    fn reset(self) -> Result<Turn, Memory>
        requires { self.at < length self.mail_objects }
        ensures { IfOk result (SaysOnly (standing_of self) reset_line awaited.Reset) }
    {
        let line = Octets::from_slice(self.alloc, b"RSET\r\n")?;
        self.says(line, Awaited::Reset)
    }

    // All recipients have answers.
    fn end_recipients(self) -> Result<Turn, Memory>
        requires { self.at < length self.mail_objects }
        ensures runs { IfOk result (RunsOn (λ left. mail_object_run (standing_of self) (λ mail_object. answered_transaction self.at self.answers left))) }
        ensures fewer { IfOk result (HasFewerLeft (mail_object_left (standing_of self) (λ mail_object. 3))) }
    {
        if !is_some_accepted(self.answers.as_slice()) {
            return self.reset();
        }
        let line = Octets::from_slice(self.alloc, b"DATA\r\n")?;
        self.says(line, Awaited::Data)
    }

    // RCPT for the first recipient from this place on to whom the mail object is sent, or what follows the last.
    fn ask_from(self, from: usize) -> Result<Turn, Memory>
        requires { self.at < length self.mail_objects }
        ensures runs { IfOk result (RunsOn (λ left. mail_object_run (standing_of self) (λ mail_object. rcpt_transaction self.offer self.at (sent_after self.offer mail_object from) self.answers left))) }
        ensures fewer { IfOk result (HasFewerLeft (mail_object_left (standing_of self) (λ mail_object. length (sent_after self.offer mail_object from) + 3))) }
    {
        let mail_object = &self.mail_objects.as_slice()[self.at];
        let Some(place) = next_sent(mail_object, self.offer, from) else {
            return self.end_recipients();
        };
        let recipient = &mail_object.recipients.as_slice()[place];
        let line = rcpt_line(self.alloc, self.offer, recipient)?;
        self.says(line, Awaited::Rcpt(place + 1))
    }

    fn take_greeting(self, reply: &Reply) -> Result<Turn, Memory>
        requires { self.awaited ≡ awaited.Greeting }
        ensures comes { IfOk result (ComesTo reply.now (λ left. rest_of self (reply.now ∷ left))) }
        ensures fewer { IfOk result (HasFewerLeft (replies_left (standing_of self))) }
    {
        if !is_completed(reply.code) {
            return Ok(Turn::Stops);
        }
        let line = ehlo_line(self.alloc, self.name.as_slice())?;
        self.says(line, Awaited::Ehlo)
    }

    fn take_offer(self, reply: &Reply) -> Result<Turn, Memory>
        requires { self.awaited ≡ awaited.Ehlo }
        ensures comes { IfOk result (ComesTo reply.now (λ left. rest_of self (reply.now ∷ left))) }
        ensures fewer { IfOk result (HasFewerLeft (replies_left (standing_of self))) }
    {
        if !is_completed(reply.code) {
            return Ok(Turn::Stops);
        }
        let alloc = self.alloc;
        let mut client = self;
        client.offer = offer_of(reply);
        client.begin_from(0, Items::new(alloc))
    }

    fn take_mail(self, reply: &Reply) -> Result<Turn, Memory>
        requires { self.awaited ≡ awaited.Mail }
        ensures comes { IfOk result (ComesTo reply.now (λ left. rest_of self (reply.now ∷ left))) }
        ensures fewer { IfOk result (HasFewerLeft (replies_left (standing_of self))) }
    {
        if is_completed(reply.code) {
            let mut client = self;
            client.answers = Items::new(client.alloc);
            return client.ask_from(0);
        }
        if !is_permanent(reply.code) {
            return Ok(Turn::Stops);
        }
        let mail_object = &self.mail_objects.as_slice()[self.at];
        let answers = same_answers(self.alloc, self.offer, mail_object, reply.code)?;
        let mut client = self;
        client.answers = answers;
        client.reset()
    }

    fn take_answer(self, following: usize, reply: &Reply) -> Result<Turn, Memory>
        requires { self.awaited ≡ awaited.Rcpt following }
        ensures comes { IfOk result (ComesTo reply.now (λ left. rest_of self (reply.now ∷ left))) }
        ensures fewer { IfOk result (HasFewerLeft (replies_left (standing_of self))) }
    {
        if !is_answer(reply.code) {
            return Ok(Turn::Stops);
        }
        let mut client = self;
        client.answers.push(reply.code)?;
        client.ask_from(following)
    }

    // Class 3 asks for the data.
    fn take_data(self, reply: &Reply) -> Result<Turn, Memory>
        requires { self.awaited ≡ awaited.Data }
        ensures comes { IfOk result (ComesTo reply.now (λ left. rest_of self (reply.now ∷ left))) }
        ensures fewer { IfOk result (HasFewerLeft (replies_left (standing_of self))) }
    {
        if is_intermediate(reply.code) {
            let mut acts = Items::new(self.alloc);
            acts.push(Act::SayData(self.at))?;
            let mut client = self;
            client.awaited = Awaited::End;
            return Ok(Turn::Goes { client, acts });
        }
        if is_permanent(reply.code) {
            return self.settle(Some(reply.code));
        }
        Ok(Turn::Stops)
    }

    fn take_end(self, reply: &Reply) -> Result<Turn, Memory>
        requires { self.awaited ≡ awaited.End }
        ensures comes { IfOk result (ComesTo reply.now (λ left. rest_of self (reply.now ∷ left))) }
        ensures fewer { IfOk result (HasFewerLeft (replies_left (standing_of self))) }
    {
        if is_completed(reply.code) {
            return self.settle(None);
        }
        if is_permanent(reply.code) {
            return self.settle(Some(reply.code));
        }
        Ok(Turn::Stops)
    }

    fn take_reset(self, reply: &Reply) -> Result<Turn, Memory>
        requires { self.awaited ≡ awaited.Reset }
        ensures comes { IfOk result (ComesTo reply.now (λ left. rest_of self (reply.now ∷ left))) }
        ensures fewer { IfOk result (HasFewerLeft (replies_left (standing_of self))) }
    {
        if is_completed(reply.code) {
            self.settle(None)
        } else {
            Ok(Turn::Stops)
        }
    }

    /// Takes the reply that is awaited.
    pub fn take(self, reply: &Reply) -> Result<Turn, Memory>
        ensures comes { IfOk result (ComesTo reply.now (λ left. rest_of self (reply.now ∷ left))) }
        ensures fewer { IfOk result (HasFewerLeft (replies_left (standing_of self))) }
        ensures leave { IfOk result LeavesBy }
    {
        match self.awaited {
            Awaited::Greeting => self.take_greeting(reply),
            Awaited::Ehlo => self.take_offer(reply),
            Awaited::Mail => self.take_mail(reply),
            Awaited::Rcpt(following) => self.take_answer(following, reply),
            Awaited::Data => self.take_data(reply),
            Awaited::End => self.take_end(reply),
            Awaited::Reset => self.take_reset(reply),
        }
    }
}

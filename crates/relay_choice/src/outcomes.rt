//! What comes of a mail object's recipients.
ghost use Rattle.std.specs.Prelude.{◌≡◌, ◌<◌, IfOk, IfSome, length, map};
ghost use Rattle.relay_choice.specs.declared.mail_objects.Recipient.{Recipient as RecipientValue};
ghost use Rattle.relay_choice.specs.Relay.{is_answer as is_answer_code, is_some_accepted as is_some_accepted_of, merged, outcome_by as outcome_by_code, plan_of as plan_of_recipient, sent_to};
ghost use Rattle.relay_choice.specs.private.Asking.{AsksNext, detail_of as detail_of_plan};

use crate::mail_objects::{MailObject, Outcome, Outcomes, Recipient};
use crate::offers::{is_completed, is_permanent};
use crate::plans::{Offer, Plan, choose, is_sent};
use mail_wire::{Items, Memory};
use std::alloc::Global;

fn plan_of(offer: Offer, mail_object: &MailObject, recipient: &Recipient) -> Plan
    ensures { result ≡ plan_of_recipient offer mail_object.now recipient.now }
{
    choose(&mail_object.demands, recipient.form, offer)
}

/// The place of the first recipient, from this place on, to whom the mail object is sent.
pub fn next_sent(mail_object: &MailObject, offer: Offer, from: usize) -> Option<usize>
    ensures next { AsksNext offer mail_object.now from result }
    ensures bound { IfSome result (λ place. place < length mail_object.now.recipients) }
{
    let recipients = mail_object.recipients.as_slice();
    let mut place = from;
    while place < recipients.len() {
        if is_sent(plan_of(offer, mail_object, &recipients[place])) {
            return Some(place);
        }
        place += 1;
    }
    None
}

/// Whether a reply answers RCPT: it accepts the recipient, or refuses him for good.
pub fn is_answer(code: u16) -> bool
    ensures { result ≡ is_answer_code code }
{
    is_completed(code) || is_permanent(code)
}

/// Whether one of the answers accepts a recipient.
pub fn is_some_accepted(answers: &[u16]) -> bool
    ensures { result ≡ is_some_accepted_of answers.now }
{
    answers.iter().any(|answer| !is_permanent(*answer))
}

// What comes of a recipient with this answer, where a reply with this code refuses the mail object, if one does.
fn outcome_by(code: Option<u16>, answer: u16) -> Outcome
    ensures { result ≡ outcome_by_code code answer }
{
    if is_permanent(answer) {
        return Outcome::Refused {
            detail: 0,
            code: Some(answer),
        };
    }
    match code {
        None => Outcome::Sent,
        Some(code) => Outcome::Refused {
            detail: 0,
            code: Some(code),
        },
    }
}

// The detail of the status of a recipient to whom nothing is sent.
fn detail_of(plan: Plan) -> u8
    ensures { result ≡ detail_of_plan plan }
{
    match plan {
        Plan::Report5(detail) => detail,
        Plan::Send => 0,
        Plan::SendNormal => 0,
    }
}

/// What comes of all recipients of a mail object, where those to whom it is sent have these answers, and a reply with this code refuses it, if
/// one does.
pub fn outcomes_of(
    alloc: Global,
    offer: Offer,
    mail_object: &MailObject,
    answers: &[u16],
    code: Option<u16>,
) -> Result<Outcomes, Memory>
    ensures { IfOk result (λ outcomes. outcomes ≡ merged (map (plan_of_recipient offer mail_object.now) mail_object.now.recipients) (map (outcome_by_code code) answers.now)) }
{
    let mut outcomes = Items::new(alloc);
    let mut rest = answers;
    for recipient in mail_object.recipients.as_slice() {
        let plan = plan_of(offer, mail_object, recipient);
        if !is_sent(plan) {
            let detail = detail_of(plan);
            outcomes.push(Outcome::Refused { detail, code: None })?;
        } else if let Some((answer, others)) = rest.split_first() {
            outcomes.push(outcome_by(code, *answer))?;
            rest = others;
        }
    }
    Ok(outcomes)
}

/// Answers of this code for all to whom the mail object is sent.
pub fn same_answers(
    alloc: Global,
    offer: Offer,
    mail_object: &MailObject,
    code: u16,
) -> Result<Items<u16>, Memory>
    ensures { IfOk result (λ answers. answers ≡ map (λ (recipient : RecipientValue). code) (sent_to offer mail_object.now)) }
{
    let mut answers = Items::new(alloc);
    for recipient in mail_object.recipients.as_slice() {
        if is_sent(plan_of(offer, mail_object, recipient)) {
            answers.push(code)?;
        }
    }
    Ok(answers)
}

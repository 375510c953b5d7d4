//! The messages of a folder, listed, and a message that is changed.
ghost use Rattle.std.specs.Prelude.{◌≡◌, ◌<◌, ℕ, length, reverse, slice_get, IfOk, IfSome};
ghost use Rattle.std.specs.List.{All};
ghost use Rattle.kept_mail.specs.Kept.{change_at, gone, listed_from, listed_one, numbers_in, with_flags};
ghost use Rattle.kept_mail.specs.private.Chains.{chain};

use crate::contents::Content;
use crate::kept::{Listed, Message};
use mail_wire::Memory;
use std::alloc::Global;

// What is listed of a message.
fn listed_one(messages: &[Message], id: u32, uid: u32) -> Option<Listed>
    ensures listed { result ≡ listed_one (slice_get messages.now id) id uid }
    ensures known { IfSome result (λ one. one.id < length messages.now) }
{
    match messages.get(id as usize) {
        Some(message) => {
            if message.live {
                Some(Listed {
                    id,
                    uid,
                    flags: message.flags,
                })
            } else {
                None
            }
        }
        None => None,
    }
}

/// What is listed of a folder's messages, the last of them first.
pub fn list_back(
    alloc: Global,
    messages: &[Message],
    previous: &[Option<u32>],
    content: Content,
) -> Result<Vec<Listed>, Memory>
    requires len { length previous.now ≡ length messages.now }
    requires count { length (chain content.count previous.now content.last) ≡ content.count }
    requires known { All (λ id. id < length messages.now) (chain content.count previous.now content.last) }
    ensures listing { IfOk result (λ listing. (folder : ℕ) → chain content.count previous.now content.last ≡ reverse (numbers_in folder 0 messages.now)
        → reverse listing.items ≡ listed_from folder 0 1 messages.now) }
    ensures known { IfOk result (λ listing. All (λ one. one.id < length messages.now) listing.items) }
{
    let mut listing = Vec::new(alloc);
    let mut place = content.last;
    for back in 0..content.count {
        let Some(id) = place else {
            break;
        };
        if let Some(one) = listed_one(messages, id, content.count - back) {
            listing.push(one)?;
        }
        place = previous[id as usize];
    }
    Ok(listing)
}

/// The message has these flags.
pub fn put_flags(messages: &mut Vec<Message>, at: usize, flags: u8)
    requires { at < length messages.old.items }
    ensures { messages.new.items ≡ change_at (with_flags flags) messages.old.items at }
{
    let message = &mut messages[at];
    message.flags = flags;
}

/// The message is expunged.
pub fn take_away(messages: &mut Vec<Message>, at: usize)
    requires { at < length messages.old.items }
    ensures { messages.new.items ≡ change_at gone messages.old.items at }
{
    let message = &mut messages[at];
    message.live = false;
}

//! The messages of each folder, as a chain from the last one back.
ghost use Rattle.std.specs.Prelude.{◌≡◌, ◌+◌, ◌<◌, ◌≤◌, ◌++◌, ◌∷◌, [], length, set, Some, vec_len, vec_capacity};
ghost use Rattle.std.specs.List.{All};
ghost use Rattle.kept_mail.specs.private.Chains.{AreChained, content_at};
ghost use Rattle.kept_mail.specs.declared.limits.TheConstants.{THINGS_MAX};

use crate::kept::Message;

/// How many messages a folder ever had, and the number of the last one.
#[derive(Clone, Copy, Debug, PartialEq, Eq)]
pub struct Content {
    pub count: u32,
    pub last: Option<u32>,
}

/// That of a folder without messages.
pub const EMPTY: Content = Content {
    count: 0,
    last: None,
};

/// Puts an item last, for which there is room.
pub fn push_reserved<T: Drop>(items: &mut Vec<T>, item: T)
    requires { vec_len items.old < vec_capacity items.old }
    ensures items { items.new.items ≡ items.old.items ++ item ∷ [] }
    ensures room { vec_capacity items.old ≤ vec_capacity items.new }
{
    if items.push(item).is_err() {
        unreachable!();
    }
}

// The message is the last one of its folder now. Answers the one before it.
fn put_number(contents: &mut Vec<Content>, folder: usize, message: u32) -> Option<u32>
    requires known { folder < length contents.old.items }
    requires few { (content_at contents.old.items folder).count < THINGS_MAX }
    ensures before { result ≡ (content_at contents.old.items folder).last }
    ensures contents { contents.new.items ≡ set contents.old.items folder (record { count = (content_at contents.old.items folder).count + 1; last = Some message }) }
{
    let content = &mut contents[folder];
    let before = content.last;
    content.count += 1;
    content.last = Some(message);
    before
}

/// Puts a message last, for which there is room.
pub fn put_message(
    contents: &mut Vec<Content>,
    previous: &mut Vec<Option<u32>>,
    messages: &mut Vec<Message>,
    message: Message,
)
    requires chained { AreChained messages.old.items contents.old.items previous.old.items }
    requires few { length messages.old.items < THINGS_MAX }
    requires known { message.folder < length contents.old.items }
    requires room { vec_len messages.old < vec_capacity messages.old }
    requires room_before { vec_len previous.old < vec_capacity previous.old }
    ensures messages { messages.new.items ≡ messages.old.items ++ message ∷ [] }
    ensures chained { AreChained messages.new.items contents.new.items previous.new.items }
    ensures count { length contents.new.items ≡ length contents.old.items }
    ensures room { vec_capacity messages.old ≤ vec_capacity messages.new }
    ensures room_before { vec_capacity previous.old ≤ vec_capacity previous.new }
{
    let number = messages.len() as u32;
    let before = put_number(contents, message.folder as usize, number);
    push_reserved(previous, before);
    push_reserved(messages, message);
}

/// Puts messages last, for which there is room.
pub fn put_messages(
    contents: &mut Vec<Content>,
    previous: &mut Vec<Option<u32>>,
    messages: &mut Vec<Message>,
    more: Vec<Message>,
)
    requires chained { AreChained messages.old.items contents.old.items previous.old.items }
    requires few { length messages.old.items + length more.items ≤ THINGS_MAX }
    requires known { All (λ message. message.folder < length contents.old.items) more.items }
    requires room { vec_len messages.old + length more.items ≤ vec_capacity messages.old }
    requires room_before { vec_len previous.old + length more.items ≤ vec_capacity previous.old }
    ensures messages { messages.new.items ≡ messages.old.items ++ more.items }
    ensures chained { AreChained messages.new.items contents.new.items previous.new.items }
    ensures count { length contents.new.items ≡ length contents.old.items }
{
    for message in more {
        put_message(contents, previous, messages, message);
    }
}

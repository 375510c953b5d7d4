//! The tables of words.
ghost use Rattle.std.specs.Prelude.{◌≡◌, ℕ, MatchResult};
ghost use Rattle.imap_words.specs.Reading.{Reads, StopsReading, never};
ghost use Rattle.imap_words.specs.Keywords.{IsWordOf};
ghost use Rattle.imap_grammar.specs.Commands.{command_names, uid_names, status_words, utf8_words};

use crate::command::StatusItem;
use crate::words::{Name, UidName};
use imap_words::{Stop, read_word};
use mail_wire::TableWord;

// The names of commands.
const COMMAND_NAMES: [TableWord<Name>; 25] = [
    TableWord(b"CAPABILITY", Name::Capability),
    TableWord(b"NOOP", Name::Noop),
    TableWord(b"CHECK", Name::Check),
    TableWord(b"LOGOUT", Name::Logout),
    TableWord(b"LOGIN", Name::Login),
    TableWord(b"ENABLE", Name::Enable),
    TableWord(b"SELECT", Name::Select),
    TableWord(b"EXAMINE", Name::Examine),
    TableWord(b"CREATE", Name::Create),
    TableWord(b"LIST", Name::List),
    TableWord(b"STATUS", Name::Status),
    TableWord(b"APPEND", Name::Append),
    TableWord(b"FETCH", Name::Fetch),
    TableWord(b"STORE", Name::Store),
    TableWord(b"UID", Name::Uid),
    TableWord(b"EXPUNGE", Name::Expunge),
    TableWord(b"CLOSE", Name::Close),
    TableWord(b"AUTHENTICATE", Name::NotHere),
    TableWord(b"DELETE", Name::NotHere),
    TableWord(b"RENAME", Name::NotHere),
    TableWord(b"COPY", Name::NotHere),
    TableWord(b"SUBSCRIBE", Name::NotHere),
    TableWord(b"UNSUBSCRIBE", Name::NotHere),
    TableWord(b"LSUB", Name::NotHere),
    TableWord(b"SEARCH", Name::NotHere),
];

// Reads a command's name.
pub fn command_name(text: &[u8]) -> Result<(Name, &[u8]), Stop>
    ensures { MatchResult result (λ x. Reads (IsWordOf command_names) never text.now x.0 x.1.now) (λ stop. StopsReading (IsWordOf command_names) never text.now stop) }
{
    read_word(&COMMAND_NAMES, text)
}

// The names after UID.
const UID_NAMES: [TableWord<UidName>; 4] = [
    TableWord(b"FETCH", UidName::Fetch),
    TableWord(b"STORE", UidName::Store),
    TableWord(b"COPY", UidName::NotHere),
    TableWord(b"SEARCH", UidName::NotHere),
];

// Reads the name after UID.
pub fn uid_name(text: &[u8]) -> Result<(UidName, &[u8]), Stop>
    ensures { MatchResult result (λ x. Reads (IsWordOf uid_names) never text.now x.0 x.1.now) (λ stop. StopsReading (IsWordOf uid_names) never text.now stop) }
{
    read_word(&UID_NAMES, text)
}

// The items of STATUS.
const STATUS_WORDS: [TableWord<StatusItem>; 5] = [
    TableWord(b"MESSAGES", StatusItem::Messages),
    TableWord(b"RECENT", StatusItem::Recent),
    TableWord(b"UIDNEXT", StatusItem::UidNext),
    TableWord(b"UIDVALIDITY", StatusItem::UidValidity),
    TableWord(b"UNSEEN", StatusItem::Unseen),
];

// Reads an item of STATUS.
pub fn status_word(text: &[u8]) -> Result<(StatusItem, &[u8]), Stop>
    ensures { MatchResult result (λ x. Reads (IsWordOf status_words) never text.now x.0 x.1.now) (λ stop. StopsReading (IsWordOf status_words) never text.now stop) }
{
    read_word(&STATUS_WORDS, text)
}

const UTF8_WORDS: [TableWord<bool>; 1] = [TableWord(b"UTF8", true)];

// Reads the word `UTF8`.
pub fn utf8_word(text: &[u8]) -> Result<(bool, &[u8]), Stop>
    ensures { MatchResult result (λ x. Reads (IsWordOf utf8_words) never text.now x.0 x.1.now) (λ stop. StopsReading (IsWordOf utf8_words) never text.now stop) }
{
    read_word(&UTF8_WORDS, text)
}

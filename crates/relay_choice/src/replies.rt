//! Replies of a server.
ghost use Rattle.std.specs.Prelude.{◌≡◌, ◌≤◌, IfOk, length, take, drop, true};
ghost use Rattle.mail_wire.specs.Numbers.{number_written};
ghost use Rattle.relay_choice.specs.declared.replies.ReplyRead.{ReplyRead as ReplyReadValue};
ghost use Rattle.relay_choice.specs.Replies.{AreReply, IsReplyRead, IsReply, is_code};
ghost use Rattle.relay_choice.specs.private.Texts.{text_of_line};

use crate::steps::{BEGINNING, Step, step_by};
use mail_wire::{Items, Memory, Octets, line_len};
use std::alloc::Global;

/// The most lines of a reply.
pub const REPLY_LINES: usize = 100;

/// The most octets of a line of a reply, its CRLF counted.
pub const REPLY_LINE_MAX: usize = 2_048;

/// The texts of a reply's lines.
pub type Texts = Items<Octets>;

/// A reply: its code, and what each line says after the code.
#[derive(Debug, Drop)]
pub struct Reply {
    pub code: u16,
    pub lines: Texts,
}

/// What octets begin with.
#[derive(Debug, Drop)]
pub enum ReplyRead {
    /// A reply, which has so many of them.
    Whole { reply: Reply, used: usize },
    /// They are the front of one.
    More,
    /// So many of them, and no fewer, begin no reply.
    NotReply { used: usize },
}

// The number of a code.
fn code_of(octets: &[u8]) -> u16
    requires { is_code (take 3 octets.now) ≡ true }
    ensures { result ≡ number_written (take 3 octets.now) }
{
    let hundreds = u16::from(octets[0] - b'0');
    let tens = u16::from(octets[1] - b'0');
    hundreds * 100 + tens * 10 + u16::from(octets[2] - b'0')
}

// What a line says after the code.
fn text_of_line(line: &[u8]) -> &[u8]
    ensures { result.now ≡ text_of_line line.now }
{
    if line.len() < 6 {
        return b"";
    }
    &line[4..line.len() - 2]
}

// The reply that these octets are.
fn reply_of(alloc: Global, octets: &[u8]) -> Result<Reply, Memory>
    requires { AreReply octets.now }
    ensures { IfOk result (IsReply octets.now) }
{
    let code = code_of(octets);
    let mut lines = Items::new(alloc);
    let mut rest = octets;
    while !rest.is_empty() {
        let (line, others) = rest.split_at(line_len(rest));
        lines.push(Octets::from_slice(alloc, text_of_line(line))?)?;
        rest = others;
    }
    Ok(Reply { code, lines })
}

/// What octets begin with: a reply, the front of one, or neither.
pub fn read_reply(alloc: Global, octets: &[u8]) -> Result<ReplyRead, Memory>
    ensures read { IfOk result (IsReplyRead octets.now) }
    // They begin with nothing else.
    ensures exact { (read : ReplyReadValue) → IsReplyRead octets.now read → IfOk result (λ found. found ≡ read) }
{
    let mut place = BEGINNING;
    let mut used = 0;
    while used < octets.len() {
        let (before, following) = octets.split_at(used);
        used += 1;
        match step_by(before, place, following[0]) {
            Step::Within(next) => place = next,
            Step::Whole => {
                let reply = reply_of(alloc, &octets[..used])?;
                return Ok(ReplyRead::Whole { reply, used });
            }
            Step::NotReply => return Ok(ReplyRead::NotReply { used }),
        }
    }
    Ok(ReplyRead::More)
}

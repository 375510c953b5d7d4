//! Groups: comments, quoted strings and literals, each from its opening mark to its closing mark.
ghost use Rattle.std.specs.Prelude.{◌≡◌, ◌<◌, ◌≤◌, length, IfSome, IfNone};
ghost use Rattle.field_tokens.specs.TokenOctets.{is_control as is_control_of};
ghost use Rattle.field_tokens.specs.Groups.{may_stand as may_stand_of, AreMarks};
ghost use Rattle.field_tokens.specs.private.Levels.{LevelStep, NeverCloses, SplitsGroup, BeginsNoGroup};

/// The marks of a kind of group, how many may be open at one place, and whether control octets may stand in it.
#[derive(Clone, Copy)]
pub struct Marks {
    open_mark: u8,
    close_mark: u8,
    limit: usize,
    holds_controls: bool,
}

pub const COMMENT: Marks = Marks {
    open_mark: b'(',
    close_mark: b')',
    limit: 64,
    holds_controls: true,
};

pub const QUOTED: Marks = Marks {
    open_mark: b'"',
    close_mark: b'"',
    limit: 1,
    holds_controls: true,
};

pub const LITERAL: Marks = Marks {
    open_mark: b'[',
    close_mark: b']',
    limit: 1,
    holds_controls: false,
};

/// An octet below 32 other than a tab, or 127.
pub fn is_control(octet: u8) -> bool
    ensures { result ≡ is_control_of octet }
{
    (octet < 32 && octet != b'\t') || octet == 127
}

// Whether an octet that is no mark may stand in a group.
fn may_stand(marks: Marks, octet: u8) -> bool
    ensures { result ≡ may_stand_of marks octet }
{
    marks.holds_controls || !is_control(octet)
}

// One octet, pair or mark of open groups: how many are open after it, and what follows.
fn group_step(marks: Marks, depth: usize, rest: &[u8]) -> Option<(usize, &[u8])>
    requires marks { AreMarks marks }
    requires is_open { 0 < depth }
    requires room { depth ≤ marks.limit }
    ensures found { IfSome result (λ x. LevelStep marks depth rest.now x.0 x.1.now) }
    ensures shorter { IfSome result (λ x. length x.1.now < length rest.now) }
    ensures still { IfSome result (λ x. x.0 ≤ marks.limit) }
    ensures none { IfNone result (NeverCloses marks depth rest.now) }
{
    let [octet, after @ ..] = rest else {
        return None;
    };
    if *octet == b'\\' {
        let [quoted, following @ ..] = after else {
            return None;
        };
        if !may_stand(marks, *quoted) {
            return None;
        }
        return Some((depth, following));
    }
    if *octet == marks.close_mark {
        return Some((depth - 1, after));
    }
    if *octet == marks.open_mark {
        if depth == marks.limit {
            return None;
        }
        return Some((depth + 1, after));
    }
    if !may_stand(marks, *octet) {
        return None;
    }
    Some((depth, after))
}

/// What follows the group that the text begins with.
pub fn group_rest(marks: Marks, text: &[u8]) -> Option<&[u8]>
    requires { AreMarks marks }
    ensures found { IfSome result (λ rest. SplitsGroup marks text.now rest.now) }
    ensures none { IfNone result (BeginsNoGroup marks text.now) }
{
    let [octet, body @ ..] = text else {
        return None;
    };
    if *octet != marks.open_mark {
        return None;
    }
    let mut depth = 1;
    let mut rest = body;
    while depth > 0 {
        let Some((next_depth, after)) = group_step(marks, depth, rest) else {
            return None;
        };
        depth = next_depth;
        rest = after;
    }
    Some(rest)
}

//! The usual machine: it reads lines and blocks of octets, and a protocol gives its rows alone.
ghost use Rattle.std.specs.Prelude.{◌≡◌, ◌<◌, ◌≤◌, ◌++◌, ℕ, List, Option, Some, None, IfOk, OnOk, IfSome, length, []};
ghost use Rattle.mail_wire.specs.Framing.{waiting, framed_as, ends_in};
ghost use Rattle.session_core.specs.declared.desk.Desk.{Desk as DeskValue};
ghost use Rattle.session_core.specs.declared.rows.Wants.{Wants as Wanted};
ghost use Rattle.session_core.specs.Desks.{IsOpen};
ghost use Rattle.session_core.specs.FramedRows.{framed_next};
ghost use Rattle.session_core.specs.Grammar.{Grammar, Answers, BeginsRows, IsFitRow, IsUnit, LongRowsFit, Refuses, RowsFit, cut_by, opening_row, protocol_of};
ghost use Rattle.session_core.specs.Keeps.{Keeps, fault_of};
ghost use Rattle.session_core.specs.Oracles.{Oracles, AreOracles};
ghost use Rattle.session_core.specs.Moments.{Moment};
ghost use Rattle.session_core.specs.laws.FramedLaws.{framed_by, waits_by, goes_on_by, quiet_by, fits_by};

use crate::machine::{Advance, Machine};
use crate::outside::Outside;
use mail_wire::{Clock, Fault, FoundLine, Keeper, Octets, Wire, find_line};

/// What a state reads next.
#[derive(Clone, Copy, Debug, PartialEq, Eq)]
pub enum Wants {
    /// A line with its CRLF.
    Line,
    /// So many octets, one at least.
    Count(usize),
}

/// The rows of a protocol.
pub trait Rows: Drop {
    /// The protocol: its states, what each reads next, and the row of what was read.
    ghost grammar: { Grammar };

    /// The states that these rows stand for, with these moments to come.
    ghost stands: { List Moment → Self → DeskValue → grammar.S → Type 0 };

    ghost wanted: { Self → Wanted };

    /// The rows have what they need.
    ghost knows: { Self → DeskValue → Type 0 };

    /// Begins a session: does what the protocol opens with.
    fn begin<W: Wire, J: Keeper, C: Clock>(outside: &mut Outside<W, J, C>) -> Result<Self, Fault>
        requires { IsOpen outside.old.desk }
        ensures begins { BeginsRows grammar stands outside.old outside.new result }
        ensures known { IfOk result (λ rows. knows rows outside.new.desk) }
        ensures keeps { Keeps outside.old outside.new (fault_of result) };

    fn wants(&self) -> Wants
        ensures { result ≡ wanted self.now };

    /// Does the acts of the row. None where it ends the session.
    fn answer<W: Wire, J: Keeper, C: Clock>(
        self,
        unit: &[u8],
        outside: &mut Outside<W, J, C>,
    ) -> Result<Option<Self>, Fault>
        requires opens { IsOpen outside.old.desk }
        requires knows { knows self outside.old.desk }
        requires unit { IsUnit (wanted self) unit.now }
        ensures answers { Answers grammar stands outside.old outside.new self unit.now result }
        ensures known { IfOk result (λ next. IfSome next (λ rows. knows rows outside.new.desk)) }
        ensures keeps { Keeps outside.old outside.new (fault_of result) };

    /// Does the acts of the row of a line that is too long, which ends the session.
    fn refuse_line<W: Wire, J: Keeper, C: Clock>(
        self,
        outside: &mut Outside<W, J, C>,
    ) -> Result<(), Fault>
        requires opens { IsOpen outside.old.desk }
        requires knows { knows self outside.old.desk }
        ensures refuses { Refuses grammar stands outside.old outside.new self result }
        ensures keeps { Keeps outside.old outside.new (fault_of result) };

    /// The rows want what their states want, and a line that is too long ends the session.
    ghost agrees: { (more : List Moment) (rows : Self) (desk : DeskValue) (state : grammar.S) → stands more rows desk state → grammar.wants state ≡ Some (wanted rows) };

    ghost ends: { (oracles : Oracles) (state : grammar.S) → grammar.wants (grammar.long_row oracles state).after ≡ None };

    /// Whatever is asked for, the replies may be sent.
    ghost opening_fits: { (oracles : Oracles) → AreOracles oracles → (moments : List Moment) (desk : DeskValue) → IsOpen desk → IsFitRow grammar oracles (opening_row grammar moments desk.store) };

    ghost rows_fit: { RowsFit grammar };

    ghost long_rows_fit: { LongRowsFit grammar };
}

fn count_end(count: usize, kept: &[u8], piece: &[u8]) -> FoundLine
    requires { cut_by (Wants.Count count) kept.now ≡ waiting }
    ensures unit { cut_by (Wants.Count count) (kept.now ++ piece.now) ≡ framed_as result kept.now piece.now }
    ensures bound { ends_in result piece.now }
{
    if kept.len() < count && count - kept.len() <= piece.len() {
        FoundLine::Whole(count - kept.len())
    } else {
        FoundLine::Waiting
    }
}

/// What the octets that were kept, which have no whole unit, and a piece begin with.
fn find_unit(wants: Wants, kept: &[u8], piece: &[u8]) -> FoundLine
    requires { cut_by wants kept.now ≡ waiting }
    ensures unit { cut_by wants (kept.now ++ piece.now) ≡ framed_as result kept.now piece.now }
    ensures bound { ends_in result piece.now }
{
    match wants {
        Wants::Line => find_line(kept, piece),
        Wants::Count(count) => count_end(count, kept, piece),
    }
}

/// A machine of these rows.
#[derive(Debug, Drop)]
pub struct Framed<R> {
    pub rows: R,
}

fn advance_of<R: Rows>(next: Option<R>, used: usize) -> Advance<Framed<R>>
    ensures { result ≡ record { next = framed_next next; used = used } }
{
    match next {
        Some(rows) => Advance {
            next: Some(Framed { rows }),
            used,
        },
        None => Advance { next: None, used },
    }
}

// Puts octets last that end a unit, and does the acts of its row. Nothing is kept then.
fn answer_unit<R: Rows, W: Wire, J: Keeper, C: Clock>(
    rows: R,
    kept: &mut Octets,
    front: &[u8],
    outside: &mut Outside<W, J, C>,
) -> Result<Option<R>, Fault>
    requires opens { IsOpen outside.old.desk }
    requires knows { R.knows rows outside.old.desk }
    requires unit { IsUnit (R.wanted rows) (kept.old ++ front.now) }
    ensures answers { Answers R.grammar R.stands outside.old outside.new rows (kept.old ++ front.now) result }
    ensures known { IfOk result (λ next. IfSome next (λ rows. R.knows rows outside.new.desk)) }
    ensures cleared { OnOk result (kept.new ≡ []) }
    ensures keeps { Keeps outside.old outside.new (fault_of result) }
{
    kept.push_slice(front)?;
    let next = rows.answer(kept.as_slice(), outside)?;
    kept.clear();
    Ok(next)
}

impl<R: Rows> Machine for Framed<R> {
    ghost protocol = { protocol_of R.grammar };

    ghost stands = { λ more machine kept desk state rest. R.stands more machine.rows desk state × (rest ≡ kept) };

    ghost is_ready = { λ machine kept desk. (cut_by (R.wanted machine.rows) kept ≡ waiting) × R.knows machine.rows desk };

    fn begin<W: Wire, J: Keeper, C: Clock>(outside: &mut Outside<W, J, C>) -> Result<Self, Fault> {
        let rows = R::begin(outside)?;
        Ok(Framed { rows })
    }

    fn take_next<W: Wire, J: Keeper, C: Clock>(
        self,
        kept: &mut Octets,
        piece: &[u8],
        outside: &mut Outside<W, J, C>,
    ) -> Result<Advance<Self>, Fault> {
        match find_unit(self.rows.wants(), kept.as_slice(), piece) {
            FoundLine::Whole(used) => {
                let (front, _) = piece.split_at(used);
                let next = answer_unit(self.rows, kept, front, outside)?;
                Ok(advance_of(next, used))
            }
            FoundLine::TooLong => {
                self.rows.refuse_line(outside)?;
                Ok(Advance {
                    next: None,
                    used: piece.len(),
                })
            }
            FoundLine::Waiting => {
                kept.push_slice(piece)?;
                Ok(Advance {
                    next: Some(self),
                    used: piece.len(),
                })
            }
        }
    }

    ghost framed = { λ oracles are. framed_by R.grammar oracles };

    ghost waits = { λ oracles are more machine kept desk state rest ready stands. waits_by R.grammar oracles (R.wanted machine.rows) kept state rest (R.agrees more machine.rows desk state stands.0) ready.0 stands.1 };

    ghost goes_on = { λ more machine kept desk state rest stands. goes_on_by R.grammar (R.wanted machine.rows) state (R.agrees more machine.rows desk state stands.0) };

    ghost quiet = { λ oracles state rest ended. quiet_by R.grammar oracles state rest ended };

    ghost begins_fit = { λ oracles are moments desk opens. let row = R.opening_fits oracles are moments desk opens in record { fit = row.fit; sound = row.sound } };

    ghost fits = { fits_by R.grammar R.rows_fit R.long_rows_fit };
}

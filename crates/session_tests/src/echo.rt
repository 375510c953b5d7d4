//! The rows of the toy.
ghost use Rattle.std.specs.Prelude.{◌≡◌, refl};
ghost use Rattle.std.specs.Str.{bytes_eq};
ghost use Rattle.session_core.specs.Grammar.{Answers};
ghost use Rattle.session_core.specs.Keeps.{Keeps, fault_of};
ghost use Rattle.session_tests.specs.Echo.{EchoStands, echo_grammar, literal_of, quit, wanted_by};
ghost use Rattle.session_tests.specs.laws.EchoLaws.{agrees_by, lines_fit, rows_fit_by};

use mail_wire::{Clock, Fault, Keeper, Octets, Wire};
use session_core::{Outside, Rows, Wants};

/// A session: what was said of a command so far, and whether a literal comes next.
#[derive(Drop)]
pub enum Echo {
    Saying(Octets),
    Literal(Octets, usize),
}

// How many octets the literal has that a line announces, one to nine.
fn literal_len(line: &[u8]) -> Option<usize>
    ensures { result ≡ literal_of line.now }
{
    if line.len() < 5 {
        return None;
    }
    let at = line.len() - 5;
    let digit = line[at + 1];
    if line[at] == b'{' && digit >= b'1' && digit <= b'9' && line[at + 2] == b'}' {
        Some((digit - b'0') as usize)
    } else {
        None
    }
}

fn is_quit(command: &[u8]) -> bool
    ensures { result ≡ bytes_eq command.now quit }
{
    command == b"QUIT\r\n".as_slice()
}

// A line of a command.
fn say<W: Wire, J: Keeper, C: Clock>(
    mut said: Octets,
    line: &[u8],
    outside: &mut Outside<W, J, C>,
) -> Result<Option<Echo>, Fault>
    ensures answers { Answers echo_grammar EchoStands outside.old outside.new (Echo.Saying said) line.now result }
    ensures keeps { Keeps outside.old outside.new (fault_of result) }
{
    said.push_slice(line)?;
    if let Some(n) = literal_len(line) {
        outside.give(b"+ go\r\n")?;
        return Ok(Some(Echo::Literal(said, n)));
    }
    if is_quit(said.as_slice()) {
        outside.give(b"bye\r\n")?;
        return Ok(None);
    }
    outside.give(said.as_slice())?;
    said.clear();
    Ok(Some(Echo::Saying(said)))
}

// A literal, after which the command goes on.
fn say_literal<W: Wire, J: Keeper, C: Clock>(
    mut said: Octets,
    n: usize,
    octets: &[u8],
    outside: &mut Outside<W, J, C>,
) -> Result<Option<Echo>, Fault>
    ensures answers { Answers echo_grammar EchoStands outside.old outside.new (Echo.Literal said n) octets.now result }
    ensures keeps { Keeps outside.old outside.new (fault_of result) }
{
    said.push_slice(octets)?;
    outside.give(octets)?;
    Ok(Some(Echo::Saying(said)))
}

impl Rows for Echo {
    ghost grammar = { echo_grammar };

    ghost stands = { EchoStands };

    ghost wanted = { wanted_by };

    ghost knows = { λ _ _. Unit {0} };

    fn begin<W: Wire, J: Keeper, C: Clock>(outside: &mut Outside<W, J, C>) -> Result<Self, Fault> {
        Ok(Echo::Saying(Octets::new(outside.alloc())))
    }

    fn wants(&self) -> Wants {
        match self {
            Echo::Saying(_) => Wants::Line,
            Echo::Literal(_, n) => Wants::Count(*n),
        }
    }

    fn answer<W: Wire, J: Keeper, C: Clock>(
        self,
        unit: &[u8],
        outside: &mut Outside<W, J, C>,
    ) -> Result<Option<Self>, Fault> {
        match self {
            Echo::Saying(said) => say(said, unit, outside),
            Echo::Literal(said, n) => say_literal(said, n, unit, outside),
        }
    }

    fn refuse_line<W: Wire, J: Keeper, C: Clock>(
        self,
        outside: &mut Outside<W, J, C>,
    ) -> Result<(), Fault> {
        outside.give(b"too long\r\n")
    }

    ghost agrees = { agrees_by };

    ghost ends = { λ oracles state. refl };

    ghost opening_fits = { λ oracles are moments desk opens. record { fit = tt; sound = tt } };

    ghost rows_fit = { rows_fit_by };

    ghost long_rows_fit = { lines_fit };
}

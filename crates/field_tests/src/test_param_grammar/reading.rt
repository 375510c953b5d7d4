//! Texts, and the parameters that they have. A row has what is told: the main part and each parameter, on a line each, and
//! parentheses for each comment.
use encoded_words::Unit;
use mail_wire::{Memory, Octets};
use param_grammar::{Param, ParamFault, ParamKind, Params, read_params};
use std::alloc::Global;
use std::test::Fail;
use test_mail::{Case, all_hold};

struct Row(&'static str, &'static str);

impl Case for Row {
    fn holds(&self, alloc: Global) -> Result<bool, Memory> {
        let mut told = Octets::new(alloc);
        tell(alloc, self.0.as_bytes(), &mut told)?;
        Ok(told.as_slice() == self.1.as_bytes())
    }
}

fn tell(alloc: Global, text: &[u8], told: &mut Octets) -> Result<(), Memory> {
    match read_params(alloc, ParamKind::Disposition, text) {
        Ok(params) => tell_params(&params, told),
        Err(ParamFault::Malformed) => told.push_slice(b"malformed"),
        Err(ParamFault::Memory) => Err(Memory),
    }
}

fn tell_params(params: &Params, told: &mut Octets) -> Result<(), Memory> {
    told.push_slice(params.main.as_slice())?;
    told.push(b'\n')?;
    for param in params.list.as_slice() {
        tell_param(param, told)?;
    }
    for _ in &params.comments {
        told.push_slice(b"()")?;
    }
    Ok(())
}

// Tells a name, the charset of a value that is no text, and the octets of the value.
fn tell_param(param: &Param, told: &mut Octets) -> Result<(), Memory> {
    told.push_slice(param.name.as_slice())?;
    let octets = match &param.value {
        Unit::Text(octets) => octets,
        Unit::Opaque {
            charset,
            octets,
            ..
        } => {
            told.push(b' ')?;
            told.push_slice(charset.as_slice())?;
            octets
        }
    };
    told.push(b'=')?;
    told.push_slice(octets.as_slice())?;
    told.push(b'\n')
}

const ROWS: [(&str, &[Row]); 6] = [
    (
        "pieces in falling order are joined",
        &[Row("A; x*1=b; X*0=a; y=c (d)", "a\nx=ab\ny=c\n()")],
    ),
    (
        "quoted values are what they say",
        &[Row("a; x=\"b; y=\\\"c\"; z=\"\"", "a\nx=b; y=\"c\nz=\n")],
    ),
    (
        "pieces are joined by number",
        &[Row(
            "a; x*10=k; x*9=j; x*8=i; x*7=h; x*6=g; x*5=f; x*4=e; x*3=d; x*2=c; x*1=b; x*0=a",
            "a\nx=abcdefghijk\n",
        )],
    ),
    (
        "other numbers are malformed",
        &[
            Row("a; x*0=a; x*2=c", "malformed"),
            Row("a; x*1=b", "malformed"),
            Row("a; x*0=a; x*0=b", "malformed"),
            Row("a; x*0=a; x*1=b; y*0=c; x*1=d", "malformed"),
            Row("a; x*0=a; x*99999999999999999999999999=b", "malformed"),
        ],
    ),
    (
        "values are of their charset",
        &[Row(
            "a; x*=''%C3%A9; y*=US-ASCII''%C3%A9",
            "a\nx=é\ny us-ascii=é\n",
        )],
    ),
    (
        "each parameter of a name is read",
        &[Row("a; x*1=b; x=c; x=d; x*0=a", "a\nx=ab\nx=c\nx=d\n")],
    ),
];

#[test]
fn parameters_are_read(rt: HostRuntime) -> Result<(), Fail> {
    all_hold(rt.alloc(), &ROWS)
}

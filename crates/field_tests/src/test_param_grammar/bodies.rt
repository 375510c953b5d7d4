//! Texts, and the pieces of parameters in them. A row has what is told: the main part, and then each piece, on a line each.
use mail_wire::{Memory, Octets};
use param_grammar::{Body, ParamFault, ParamKind, base_at, push_written, read_body};
use std::alloc::Global;
use std::test::Fail;
use test_mail::{Case, all_hold};

struct Row(ParamKind, &'static str, &'static str);

impl Case for Row {
    fn holds(&self, alloc: Global) -> Result<bool, Memory> {
        let mut told = Octets::new(alloc);
        tell(alloc, self.0, self.1.as_bytes(), &mut told)?;
        Ok(told.as_slice() == self.2.as_bytes())
    }
}

fn tell(alloc: Global, kind: ParamKind, text: &[u8], told: &mut Octets) -> Result<(), Memory> {
    match read_body(alloc, kind, text) {
        Ok(body) => tell_body(text, &body, told),
        Err(ParamFault::Malformed) => told.push_slice(b"malformed"),
        Err(ParamFault::Memory) => Err(Memory),
    }
}

// Tells the name of each piece without stars and number, and the piece as it is written.
fn tell_body(text: &[u8], body: &Body, told: &mut Octets) -> Result<(), Memory> {
    told.push_slice(body.main.as_slice())?;
    told.push(b'\n')?;
    for place in &body.placed.places {
        told.push_slice(base_at(text, *place))?;
        told.push(b' ')?;
        push_written(told, text, *place)?;
        told.push(b'\n')?;
    }
    Ok(())
}

const ROWS: [(&str, &[Row]); 3] = [
    (
        "a file name is read",
        &[Row(
            ParamKind::Disposition,
            "Attachment ; filename=\"é\\\".txt\"; (c);FileName*0*=''%41;x*=UTF-8''b;a = b/=",
            "attachment\nfilename filename=\"é\\\".txt\"\nFileName FileName*0*=''%41\nx x*=UTF-8''b\na a=b/=\n",
        )],
    ),
    (
        "extended pieces are read",
        &[Row(
            ParamKind::Content,
            "a/b; x*=utf-8'en'%C3%A9; y*0*=''%C3; y*1*=%A9;;",
            "a/b\nx x*=utf-8'en'%C3%A9\ny y*0*=''%C3\ny y*1*=%A9\n",
        )],
    ),
    (
        "other bodies are malformed",
        &[
            Row(ParamKind::Disposition, "é", "malformed"),
            Row(ParamKind::Disposition, "a;b", "malformed"),
            Row(ParamKind::Disposition, "a;b=", "malformed"),
            Row(ParamKind::Disposition, "a;b=c d", "malformed"),
            Row(ParamKind::Disposition, "a;b*=UTF-8''%4", "malformed"),
            Row(ParamKind::Disposition, "a;b*=c", "malformed"),
            Row(ParamKind::Disposition, "a;*=c", "malformed"),
            Row(ParamKind::Disposition, "a;*0=c", "malformed"),
            Row(ParamKind::Disposition, "a;b*00=c", "malformed"),
            Row(ParamKind::Disposition, "a;b*0*=c", "malformed"),
            Row(ParamKind::Disposition, "a/b;c=d", "malformed"),
        ],
    ),
];

#[test]
fn bodies_are_read(rt: HostRuntime) -> Result<(), Fail> {
    all_hold(rt.alloc(), &ROWS)
}

//! The reader of the units of a text.
ghost use Rattle.std.specs.Prelude.{◌≡◌, [], ◌∷◌, ◌++◌, map, if◌then◌else◌, position, IfOk, OnOk};
ghost use Rattle.encoded_words.specs.private.Values.{value_of};
ghost use Rattle.encoded_words.specs.Units.{with_text, HasUnits};
ghost use Rattle.mail_wire.specs.Octets.{is_white as is_white_of, is_nonwhite};
ghost use Rattle.mail_wire.specs.Spans.{IsSpan};
ghost use Rattle.encoded_words.specs.private.Merging.{IsMerging, done_values, AddsUnit, TakesWord};

use crate::Unit;
use crate::word::read_word;
use mail_wire::{Memory, Octets, is_white, split_white};
use std::alloc::Global;
use std::mem;

// The place of the first white octet.
fn find_white(octets: &[u8]) -> Option<usize>
    ensures { result ≡ position is_white_of octets.now }
{
    octets.iter().position(|b| is_white(*b))
}

// The longest front without white, and what follows it.
fn split_word(octets: &[u8]) -> (&[u8], &[u8])
    ensures { IsSpan is_nonwhite octets.now result.0.now result.1.now }
{
    match find_white(octets) {
        Some(at) => octets.split_at(at),
        None => octets.split_at(octets.len()),
    }
}

/// Units that are made one after another: those that are done, and text that may go on.
#[derive(Drop)]
pub struct Merging {
    done: Vec<Unit>,
    text: Vec<u8>,
}

impl Merging {
    pub fn new(alloc: Global) -> Self
        ensures { IsMerging result [] [] }
    {
        Merging {
            done: Vec::new(alloc),
            text: Vec::new(alloc),
        }
    }

    /// Goes on with text.
    pub fn push_text(&mut self, text: &[u8]) -> Result<(), Memory>
        ensures { OnOk result (IsMerging self.new (done_values self.old) (self.old.text.items ++ text.now)) }
    {
        self.text.extend_from_slice(text)?;
        Ok(())
    }

    /// Ends the text, if there is any.
    pub fn end_text(&mut self, alloc: Global) -> Result<(), Memory>
        ensures { OnOk result (IsMerging self.new (done_values self.old ++ with_text self.old.text.items []) []) }
    {
        if !self.text.is_empty() {
            let text = mem::replace(&mut self.text, Vec::new(alloc));
            self.done.push(Unit::Text(Octets::from_vec(text)))?;
        }
        Ok(())
    }

    // Adds what an encoded word says.
    fn push_unit(&mut self, alloc: Global, unit: Unit) -> Result<(), Memory>
        ensures { OnOk result (AddsUnit self.old self.new (value_of unit)) }
    {
        match unit {
            Unit::Text(octets) => self.push_text(octets.as_slice()),
            Unit::Opaque {
                charset,
                octets,
                source,
            } => {
                self.end_text(alloc)?;
                self.done.push(Unit::Opaque {
                    charset,
                    octets,
                    source,
                })?;
                Ok(())
            }
        }
    }

    /// Takes the next word, and the run of white before it. Answers whether it is an encoded word.
    pub fn push_word(
        &mut self,
        alloc: Global,
        run: &[u8],
        after_encoded: bool,
        word: &[u8],
    ) -> Result<bool, Memory>
        ensures { IfOk result (TakesWord self.old self.new run.now after_encoded word.now) }
    {
        match read_word(alloc, word)? {
            Some(unit) => {
                self.push_text(kept_run(run, after_encoded))?;
                self.push_unit(alloc, unit)?;
                Ok(true)
            }
            None => {
                self.push_text(run)?;
                self.push_text(word)?;
                Ok(false)
            }
        }
    }

    /// Takes the units away that are done.
    pub fn take_done(&mut self, alloc: Global) -> Vec<Unit>
        ensures units { map value_of result.items ≡ done_values self.old }
        ensures left { IsMerging self.new [] self.old.text.items }
    {
        mem::replace(&mut self.done, Vec::new(alloc))
    }

    /// The units that are done.
    pub fn into_done(self) -> Vec<Unit>
        ensures { result.items ≡ self.done.items }
    {
        self.done
    }
}

// A run of white, or nothing of it.
fn kept_run(run: &[u8], is_dropped: bool) -> &[u8]
    ensures { result.now ≡ (if is_dropped then [] else run.now) }
{
    if is_dropped { &[] } else { run }
}

/// The units of an unstructured text.
pub fn read_unstructured(alloc: Global, text: &[u8]) -> Result<Vec<Unit>, Memory>
    ensures { IfOk result (λ units. HasUnits text.now (map value_of units.items)) }
{
    let (mut run, mut rest) = split_white(text);
    let mut units = Merging::new(alloc);
    let mut after_encoded = false;
    while !rest.is_empty() {
        let (word, after) = split_word(rest);
        let (next_run, next_rest) = split_white(after);
        after_encoded = units.push_word(alloc, run, after_encoded, word)?;
        run = next_run;
        rest = next_rest;
    }
    units.push_text(run)?;
    units.end_text(alloc)?;
    Ok(units.into_done())
}

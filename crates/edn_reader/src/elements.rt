//! A text's elements, one by one.

ghost use Rattle.std.specs.Prelude.{◌≡◌, ◌≢◌, ◌+◌, ◌<◌, ◌≤◌, List, length, Some, None, IfOk, IfErr};
ghost use Rattle.std.specs.Prelude.{IsErrAnd, if◌then◌else◌};
ghost use Rattle.std.specs.Str.{IsUtf8};
ghost use Rattle.edn_reader.specs.Datum.{Datum};
ghost use Rattle.edn_reader.specs.Elements.{ReadsNext, GivesForm, PassesElement};
ghost use Rattle.edn_reader.specs.Shapes.{nothing_open};
ghost use Rattle.edn_reader.specs.Sound.{IsShort, IsUnreadable, IsSoundFrom};
ghost use Rattle.edn_reader.specs.Spells.{Spells};
ghost use Rattle.edn_reader.specs.TokenBuffers.{open_levels};

use crate::fault::{EdnFault, FaultKind};
use crate::form::Form;
use crate::forming::form_at;
use crate::lexer::skip;
use crate::piece::Piece;
use crate::reader::MAX_LENGTH;
use crate::token_buffer::TokenBuffer;
use std::alloc::Global;

/// What is left of a text, and the tokens that were kept of the element that was read last: all, or
/// the beginning of each value. The room of the tokens is used again for the next element.
#[derive(Drop)]
pub struct Elements<'a> {
    alloc: Global,
    rest: &'a str,
    whole: usize,
    cuts: bool,
    token_buffer: TokenBuffer<'a>,
    ghost fresh: { open_levels token_buffer ≡ nothing_open },
    ghost within: { length rest.now ≤ whole },
}

impl<'a> Elements<'a> {
    ghost use Rattle.std.specs.Prelude.{true, false, option_map, IsSome};
    ghost use Rattle.edn_reader.specs.Left.{text_left, start_of, is_truncating, tokens_in};
    ghost use Rattle.edn_reader.specs.Pieces.{token_buffer_tokens};
    ghost use Rattle.edn_reader.specs.Reading.{skip};
    ghost use Rattle.edn_reader.specs.View.{view};

    /// A text that is too long is not looked at; then comes whether it is UTF-8 as a whole. No
    /// memory is taken.
    fn over(alloc: Global, cuts: bool, text: &'a [u8]) -> Result<Elements<'a>, EdnFault>
        ensures text { IfOk result (λ r. (text_left r ≡ text.entry.now) × (start_of r ≡ 0)) }
        ensures cuts { IfOk result (λ r. is_truncating r ≡ cuts) }
        ensures short { IfOk result (λ r. IsShort text.entry.now × IsUtf8 text.entry.now) }
        ensures unreadable { IfErr result (IsUnreadable text.entry.now) }
    {
        if text.len() > MAX_LENGTH {
            return Err(EdnFault {
                kind: FaultKind::TooLong,
                place: 0,
            });
        }
        match std::str::from_utf8(text) {
            Ok(rest) => Ok(Elements {
                alloc,
                rest,
                whole: text.len(),
                cuts,
                token_buffer: TokenBuffer::new(alloc),
            }),
            Err(e) => Err(EdnFault {
                kind: FaultKind::BadUtf8,
                place: e.valid_up_to(),
            }),
        }
    }

    /// Elements of which each token is kept. A text that is too long is not looked at; then comes
    /// whether it is UTF-8 as a whole. No memory is taken.
    pub fn new(alloc: Global, text: &'a [u8]) -> Result<Elements<'a>, EdnFault>
        ensures text { IfOk result (λ r. (text_left r ≡ text.entry.now) × (start_of r ≡ 0)) }
        ensures cuts { IfOk result (λ r. is_truncating r ≡ false) }
        ensures short { IfOk result (λ r. IsShort text.entry.now × IsUtf8 text.entry.now) }
        ensures unreadable { IfErr result (IsUnreadable text.entry.now) }
    {
        Elements::over(alloc, false, text)
    }

    /// Elements of which only the beginning of each value is kept: of a vector four elements, with
    /// nil in place of those that are vectors and maps, and of a map none. An element that is no
    /// map is kept as a value is. What is not kept takes no memory, and is read as all else is.
    pub fn truncated(alloc: Global, text: &'a [u8]) -> Result<Elements<'a>, EdnFault>
        ensures text { IfOk result (λ r. (text_left r ≡ text.entry.now) × (start_of r ≡ 0)) }
        ensures cuts { IfOk result (λ r. is_truncating r ≡ true) }
        ensures short { IfOk result (λ r. IsShort text.entry.now × IsUtf8 text.entry.now) }
        ensures unreadable { IfErr result (IsUnreadable text.entry.now) }
    {
        Elements::over(alloc, true, text)
    }

    /// What is left of the text.
    #[inline(always)]
    pub fn rest(&self) -> &'a str
        ensures { result.now ≡ text_left self.now }
    {
        self.rest
    }

    /// Passes over an element that was read from what is left of the text by other means, with this
    /// rest. What was kept of an element stays.
    #[inline(always)]
    #[tactic(auto, using(crate::proofs::Fronts::rest_shorter))]
    pub fn pass(&mut self, after: &'a [u8])
        requires { PassesElement (text_left self.old) after.now }
        ensures left { text_left self.new ≡ after.entry.now }
        ensures cuts { is_truncating self.new ≡ is_truncating self.old }
        ensures tokens { tokens_in self.new ≡ tokens_in self.old }
        ensures moves { start_of self.new + length (text_left self.new)
            ≡ start_of self.old + length (text_left self.old) }
        ensures shorter { length (text_left self.new) < length (text_left self.old) }
    {
        // What follows an element of a text is text.
        self.rest = unsafe { std::str::from_utf8_unchecked(after) };
    }

    /// The byte of the text at which the next token begins, or the text's length if there is
    /// none.
    pub(crate) fn place(&self) -> usize
        ensures place { result + length (skip (text_left self.now))
            ≡ start_of self.now + length (text_left self.now) }
        ensures utf8 { IsUtf8 (text_left self.now) }
    {
        self.whole - skip(self.rest.as_bytes()).len()
    }

    /// Reads the next element, or says that there is none. After an error what is left stays as it
    /// was, and the next call returns the same, except for an allocation failure.
    pub fn advance(&mut self) -> Result<bool, EdnFault>
        ensures reads { IfOk result (λ more.
            ReadsNext (is_truncating self.old) (text_left self.old) (tokens_in self.new)
            (if more then Some (text_left self.new) else None)) }
        ensures cuts { is_truncating self.new ≡ is_truncating self.old }
        ensures moves { start_of self.new + length (text_left self.new)
            ≡ start_of self.old + length (text_left self.old) }
        ensures shorter { IfOk result (λ more. more ≡ true →
            length (text_left self.new) < length (text_left self.old)) }
        ensures same { IfErr result (λ _. text_left self.new ≡ text_left self.old) }
        ensures none { IfErr result (λ e. e.kind ≢ FaultKind.NoMemory
            → (ds : List Datum) → Spells ds (text_left self.old) → ⊥) }
        // An allocation failed, and nothing was wrong yet, as in `read_forms`.
        ensures memory { IfErr result (λ e. e.kind ≡ FaultKind.NoMemory
            → IsSoundFrom (start_of self.old) e.place (text_left self.old)) }
        ensures short { IfErr result (λ e. e.kind ≢ FaultKind.TooLong) }
    {
        match self
            .token_buffer
            .read(self.alloc, self.cuts, self.rest.as_bytes())
        {
            Ok(Some(rest)) => {
                // What follows an element of a text is text.
                self.rest = unsafe { std::str::from_utf8_unchecked(rest) };
                Ok(true)
            }
            Ok(None) => Ok(false),
            Err(stop) => Err(stop.fault(self.whole)),
        }
    }

    /// The tokens that were kept of the element that was read last.
    pub fn pieces(&self) -> &[Piece<'a>]
        ensures { token_buffer_tokens result.now ≡ tokens_in self.now }
    {
        self.token_buffer.pieces()
    }

    /// Reads the next element as a form, or says that there is none. Each token must be kept. The
    /// form is made once the element is whole. After an allocation failure what is left may begin
    /// after the element.
    pub fn next_form(&mut self) -> Result<Option<Form>, EdnFault>
        requires { is_truncating self.old ≡ false }
        ensures gives { IfOk result (λ form.
            GivesForm (text_left self.old) (option_map view form) (text_left self.new)) }
        ensures cuts { is_truncating self.new ≡ is_truncating self.old }
        ensures moves { start_of self.new + length (text_left self.new)
            ≡ start_of self.old + length (text_left self.old) }
        ensures shorter { IfOk result (λ form. IsSome form →
            length (text_left self.new) < length (text_left self.old)) }
        ensures none { IfErr result (λ e. e.kind ≢ FaultKind.NoMemory
            → (ds : List Datum) → Spells ds (text_left self.old) → ⊥) }
        // An allocation failed, and nothing was wrong yet, as in `read_forms`.
        ensures memory { IfErr result (λ e. e.kind ≡ FaultKind.NoMemory
            → IsSoundFrom (start_of self.old) e.place (text_left self.old)) }
        ensures short { IfErr result (λ e. e.kind ≢ FaultKind.TooLong) }
    {
        let place = self.place();
        match self.advance() {
            Ok(true) => match form_at(self.alloc, self.pieces()) {
                Ok(form) => Ok(Some(form)),
                Err(_) => Err(EdnFault {
                    kind: FaultKind::NoMemory,
                    place,
                }),
            },
            Ok(false) => Ok(None),
            Err(fault) => Err(fault),
        }
    }
}

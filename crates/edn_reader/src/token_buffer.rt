//! A text, element by element, on a token buffer that is used again.

ghost use Rattle.std.specs.Prelude.{◌≡◌, ◌≢◌, ◌<◌, [], List, length, Some, None, IfOk, IfErr};
ghost use Rattle.std.specs.Prelude.{IfSome, OnOk, MatchResult, option_map};
ghost use Rattle.std.specs.Str.{IsUtf8};
ghost use Rattle.edn_reader.specs.Datum.{Datum};
ghost use Rattle.edn_reader.specs.Reading as reading;
ghost use Rattle.edn_reader.specs.Shapes.{after_piece, nothing_open};
ghost use Rattle.edn_reader.specs.Spells.{Spells};
ghost use Rattle.edn_reader.specs.Elements.{ReadsNext, KeepsToken};
ghost use Rattle.edn_reader.specs.Results.{Denies};
ghost use Rattle.edn_reader.specs.TokenBuffers.{IsSoundAfter};

use crate::fault::{Cause, Stop};
use crate::levels::Levels;
use crate::lexer::skip;
use crate::piece::Piece;
use crate::truncated::TruncatedTokens;
use std::alloc::Global;

/// The tokens of one element that are kept, what is open while they are read, and what follows the
/// last of them; and, if reading fails, how much of the text was left there.
#[derive(Drop)]
pub struct TokenBuffer<'a> {
    truncated: TruncatedTokens<'a>,
    levels: Levels<'a>,
    remains: &'a [u8],
    left: usize,
}

impl<'a> TokenBuffer<'a> {
    ghost use Rattle.edn_reader.specs.TokenBuffers.{kept_tokens, kept_by, open_levels};
    ghost use Rattle.edn_reader.specs.Pieces.{piece_token, token_buffer_tokens};

    pub fn new(alloc: Global) -> TokenBuffer<'a>
        ensures { open_levels result ≡ nothing_open }
    {
        TokenBuffer {
            truncated: TruncatedTokens::new(alloc),
            levels: Levels::new(alloc),
            remains: b"",
            left: 0,
        }
    }

    /// Takes this token, which is at the front, and keeps what follows it.
    // Put in its callers' place, so that a token whose kind is known there is never copied. What
    // follows, and where reading fails, are no part of the result: they would be copied in parts,
    // and the parts read as one.
    #[inline(always)]
    fn put(
        &mut self,
        alloc: Global,
        piece: Piece<'a>,
        here: &'a [u8],
        rest: &'a [u8],
    ) -> Result<(), Cause>
        requires front { reading.first here.now ≡ reading.got (piece_token piece) rest.now }
        requires place { self.old.left ≡ length here.now }
        ensures taken { MatchResult result
            (λ _. after_piece (open_levels self.old) (reading.first here.entry.now)
            ≡ Some (open_levels self.new, self.new.remains.now))
            (λ cause. Denies cause
            (after_piece (open_levels self.old) (reading.first here.entry.now))) }
        ensures place { self.new.left ≡ length here.entry.now }
        ensures kept { OnOk result
            (KeepsToken (kept_by self.old) (reading.first here.entry.now) (kept_by self.new)) }
    {
        self.levels.step(alloc, &piece)?;
        self.remains = rest;
        self.truncated.keep(piece)?;
        Ok(())
    }

    /// Takes the token at the front, of whatever kind: the slow way of `take`.
    #[inline(never)]
    fn take_any(&mut self, alloc: Global, here: &'a [u8]) -> Result<(), Cause>
        requires some { 0 < length here.now }
        requires place { self.old.left ≡ length here.now }
        ensures taken { MatchResult result
            (λ _. after_piece (open_levels self.old) (reading.first here.entry.now)
            ≡ Some (open_levels self.new, self.new.remains.now))
            (λ cause. Denies cause
            (after_piece (open_levels self.old) (reading.first here.entry.now))) }
        ensures place { IfErr result (λ cause. cause ≡ Cause.NoMemory →
            self.new.left ≡ length here.entry.now) }
        ensures kept { OnOk result
            (KeepsToken (kept_by self.old) (reading.first here.entry.now) (kept_by self.new)) }
    {
        // A string is no key, whatever it holds.
        if self.levels.takes_key() && here[0] == b'"' {
            return Err(Cause::KeyKind);
        }
        match Piece::first(here) {
            Ok((piece, rest)) => self.put(alloc, piece, here, rest),
            Err(stop) => {
                self.left = stop.left;
                Err(stop.cause)
            }
        }
    }

    /// Takes the token at the front, and keeps what follows it. Do not use the token buffer after
    /// an error.
    #[inline(always)]
    #[tactic(auto, unfolding(crate::specs::Reading::first))]
    fn take(&mut self, alloc: Global, here: &'a [u8]) -> Result<(), Cause>
        requires { 0 < length here.now }
        ensures taken { MatchResult result
            (λ _. after_piece (open_levels self.old) (reading.first here.entry.now)
            ≡ Some (open_levels self.new, self.new.remains.now))
            (λ cause. Denies cause
            (after_piece (open_levels self.old) (reading.first here.entry.now))) }
        ensures place { IfErr result (λ cause. cause ≡ Cause.NoMemory →
            self.new.left ≡ length here.entry.now) }
        ensures kept { OnOk result
            (KeepsToken (kept_by self.old) (reading.first here.entry.now) (kept_by self.new)) }
    {
        self.left = here.len();
        match here {
            [b':', tail @ ..] => match Piece::usual_keyword(tail) {
                Some((name, rest)) => self.put(alloc, Piece::Keyword(name), here, rest),
                None => self.take_any(alloc, here),
            },
            [b'1'..=b'9', ..] => match Piece::usual_number(here) {
                Some((number, rest)) => self.put(alloc, Piece::Int(number), here, rest),
                None => self.take_any(alloc, here),
            },
            [b'{', rest @ ..] => self.put(alloc, Piece::OpenMap, here, rest),
            [b'}', rest @ ..] => self.put(alloc, Piece::CloseMap, here, rest),
            [b'[', rest @ ..] => self.put(alloc, Piece::OpenVector, here, rest),
            [b']', rest @ ..] => self.put(alloc, Piece::CloseVector, here, rest),
            _ => self.take_any(alloc, here),
        }
    }

    /// Reads the next element. Do not use the token buffer after an error.
    #[tactic(auto, using(crate::proofs::Lexical::skip_within, crate::proofs::BufferTurns::after_piece_shorter))]
    fn try_read(
        &mut self,
        alloc: Global,
        cuts: bool,
        text: &'a [u8],
    ) -> Result<Option<&'a [u8]>, Cause>
        requires utf8 { IsUtf8 text.now }
        requires fresh { open_levels self.old ≡ nothing_open }
        ensures reads { IfOk result (λ rest.
            ReadsNext cuts text.entry.now (kept_tokens self.new) (option_map (λ r. r.now) rest)) }
        ensures shorter { IfOk result (λ rest. IfSome rest
            (λ r. length r.now < length text.entry.now)) }
        ensures none { IfErr result (λ cause. cause ≢ Cause.NoMemory → (ds : List Datum) →
            Spells ds text.entry.now → ⊥) }
        ensures memory { IfErr result (λ cause. cause ≡ Cause.NoMemory →
            IsSoundAfter self.new.left text.entry.now) }
        ensures fresh { OnOk result (open_levels self.new ≡ nothing_open) }
    {
        self.truncated.clear(cuts);
        let here = skip(text);
        if here.is_empty() {
            return Ok(None);
        }
        self.take(alloc, here)?;
        'tokens: while !self.levels.is_outermost() {
            let here = skip(self.remains);
            if here.is_empty() {
                self.left = 0;
                return Err(Cause::Unfinished);
            }
            self.take(alloc, here)?;
        }
        Ok(Some(self.remains))
    }

    /// Reads the next element of a text, and returns what follows it, or none if there is no
    /// element more. Of its tokens all are kept, or the beginning of each value if it is to be
    /// cut. After an error nothing is open, as before.
    pub fn read(
        &mut self,
        alloc: Global,
        cuts: bool,
        text: &'a [u8],
    ) -> Result<Option<&'a [u8]>, Stop>
        requires utf8 { IsUtf8 text.now }
        requires fresh { open_levels self.old ≡ nothing_open }
        ensures reads { IfOk result (λ rest.
            ReadsNext cuts text.entry.now (kept_tokens self.new) (option_map (λ r. r.now) rest)) }
        ensures shorter { IfOk result (λ rest. IfSome rest
            (λ r. length r.now < length text.entry.now)) }
        ensures none { IfErr result (λ e. e.cause ≢ Cause.NoMemory → (ds : List Datum) →
            Spells ds text.entry.now → ⊥) }
        ensures memory { IfErr result (λ e. e.cause ≡ Cause.NoMemory →
            IsSoundAfter e.left text.entry.now) }
        ensures fresh { open_levels self.new ≡ nothing_open }
    {
        match self.try_read(alloc, cuts, text) {
            Ok(rest) => Ok(rest),
            Err(cause) => {
                self.levels = Levels::new(alloc);
                Err(Stop {
                    cause,
                    left: self.left,
                })
            }
        }
    }

    /// The tokens that were kept of the element that was read last.
    pub fn pieces(&self) -> &[Piece<'a>]
        ensures { token_buffer_tokens result.now ≡ kept_tokens self.now }
    {
        self.truncated.pieces()
    }
}

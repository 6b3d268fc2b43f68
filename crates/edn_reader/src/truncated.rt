//! The tokens of an element that are kept.

ghost use Rattle.std.specs.Prelude.{◌≡◌, ◌<◌, OnOk};
ghost use Rattle.edn_reader.specs.Truncation as spec;
ghost use Rattle.edn_reader.specs.Pieces.{piece_token};

use crate::piece::Piece;
use std::alloc::{AllocError, Global};

/// How many elements of a vector are kept, if it is cut.
const MOST_ITEMS: usize = 4;

/// The tokens so far that are kept: all, or the beginning of each value. How many brackets of a
/// value are open is counted only if values are cut.
#[derive(Drop)]
pub struct TruncatedTokens<'a> {
    pieces: Vec<Piece<'a>>,
    cuts: bool,
    in_map: bool,
    below: usize,
    room: usize,
}

impl<'a> TruncatedTokens<'a> {
    ghost use Rattle.edn_reader.specs.Kepts.{kept_in};
    ghost use Rattle.edn_reader.specs.Pieces.{token_buffer_tokens};

    pub fn new(alloc: Global) -> TruncatedTokens<'a> {
        TruncatedTokens {
            pieces: Vec::new(alloc),
            cuts: false,
            in_map: false,
            below: 0,
            room: 0,
        }
    }

    /// Nothing is kept. The room is used again.
    pub fn clear(&mut self, cuts: bool)
        ensures { kept_in self.new ≡ spec.nothing_kept cuts }
    {
        self.pieces.clear();
        self.cuts = cuts;
        self.in_map = false;
        self.below = 0;
        self.room = 0;
    }

    /// One more token, which may ask for room.
    #[cold]
    #[inline(never)]
    fn push_growing(&mut self, piece: Piece<'a>) -> Result<(), AllocError>
        ensures { OnOk result (kept_in self.new
            ≡ spec.pushed (piece_token piece.entry) (kept_in self.old)) }
    {
        self.pieces.push(piece)?;
        Ok(())
    }

    #[inline(always)]
    fn push(&mut self, piece: Piece<'a>) -> Result<(), AllocError>
        ensures { OnOk result (kept_in self.new
            ≡ spec.pushed (piece_token piece.entry) (kept_in self.old)) }
    {
        // Most pushes find room: these are made here, and only the others by a call.
        if self.pieces.len() < self.pieces.capacity() {
            self.pieces.push_reserved(piece);
            return Ok(());
        }
        self.push_growing(piece)
    }

    /// An element of a value, if it has room.
    fn keep_item(&mut self, piece: Piece<'a>) -> Result<(), AllocError>
        ensures { OnOk result
            (kept_in self.new ≡ spec.keep_item (piece_token piece.entry) (kept_in self.old)) }
    {
        if self.room == 0 {
            return Ok(());
        }
        self.push(piece)?;
        self.room -= 1;
        Ok(())
    }

    /// A token in a value. Few are, so this is apart from what takes the others.
    #[inline(never)]
    fn keep_inside(&mut self, piece: Piece<'a>) -> Result<(), AllocError>
        ensures { OnOk result
            (kept_in self.new ≡ spec.keep_inside (piece_token piece.entry) (kept_in self.old)) }
    {
        match piece {
            Piece::OpenVector | Piece::OpenMap => {
                self.keep_item(Piece::Nil)?;
                self.below = 2;
                Ok(())
            }
            Piece::CloseVector | Piece::CloseMap => {
                self.below = 0;
                self.room = 0;
                self.push(piece)
            }
            _ => self.keep_item(piece),
        }
    }

    /// A token deeper in a value, which is not kept.
    #[inline(always)]
    fn pass_over(&mut self, piece: Piece<'a>) -> Result<(), AllocError>
        requires { 1 < self.old.below }
        ensures { OnOk result
            (kept_in self.new ≡ spec.pass_over (piece_token piece.entry) (kept_in self.old)) }
    {
        match piece {
            Piece::OpenVector | Piece::OpenMap => {
                // More brackets than can be counted would be more than memory holds.
                let Some(below) = self.below.checked_add(1) else {
                    return Err(AllocError);
                };
                self.below = below;
            }
            Piece::CloseVector | Piece::CloseMap => self.below -= 1,
            _ => {}
        }
        Ok(())
    }

    /// A token that no value has round it.
    #[inline(always)]
    fn keep_outside(&mut self, piece: Piece<'a>) -> Result<(), AllocError>
        ensures { OnOk result
            (kept_in self.new ≡ spec.keep_outside (piece_token piece.entry) (kept_in self.old)) }
    {
        match piece {
            Piece::OpenVector if self.cuts => {
                self.below = 1;
                self.room = MOST_ITEMS;
            }
            Piece::OpenMap if self.cuts => {
                if self.in_map {
                    self.below = 1;
                } else {
                    self.in_map = true;
                }
            }
            _ => {}
        }
        self.push(piece)
    }

    /// One more token.
    #[inline(always)]
    pub fn keep(&mut self, piece: Piece<'a>) -> Result<(), AllocError>
        ensures { OnOk result (kept_in self.new
            ≡ spec.keep (piece_token piece.entry) (kept_in self.old)) }
    {
        if self.below == 0 {
            return self.keep_outside(piece);
        }
        if self.below == 1 {
            return self.keep_inside(piece);
        }
        self.pass_over(piece)
    }

    /// The tokens that are kept.
    pub fn pieces(&self) -> &[Piece<'a>]
        ensures { token_buffer_tokens result.now ≡ (kept_in self.now).tokens }
    {
        self.pieces.as_slice()
    }
}

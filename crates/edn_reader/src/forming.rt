//! Forms from the tokens of an element.

ghost use Rattle.std.specs.Prelude.{◌≡◌, ◌<◌, ◌≤◌, ◌∷◌, ◌++◌, [], List, length, true, false, IfOk};
ghost use Rattle.std.specs.Prelude.{OnOk, MatchOption};
ghost use Rattle.edn_reader.specs.Datum.{keyword, atom};
ghost use Rattle.edn_reader.specs.Forming.{BeginsForm, BeginsItems, BeginsPairs};
ghost use Rattle.edn_reader.specs.Pieces.{piece_token, token_buffer_tokens};
ghost use Rattle.edn_reader.specs.Token.{Token, tokens_of, leaf, open_vector, close_vector};
ghost use Rattle.edn_reader.specs.Token.{open_map, close_map};
ghost use Rattle.edn_reader.specs.View.{view};

use crate::form::{Form, Name};
use crate::piece::Piece;
use crate::string::string_in;
use std::alloc::{AllocError, Global};

/// The form that a single token stands for.
fn leaf_of(alloc: Global, piece: &Piece) -> Result<Form, AllocError>
    requires { BeginsForm (piece_token piece.now ∷ []) }
    ensures { IfOk result (λ form. tokens_of (view form) ≡ piece_token piece.now ∷ []) }
{
    match piece {
        Piece::Nil => Ok(Form::Nil),
        Piece::True => Ok(Form::Bool(true)),
        Piece::False => Ok(Form::Bool(false)),
        Piece::Int(number) => Ok(Form::Int(*number)),
        Piece::Str(raw) => Ok(Form::Str(string_in(alloc, raw)?)),
        Piece::Keyword(name) => Ok(Form::Keyword(Name::from_bytes(alloc, name.as_bytes())?)),
        // None of these is a form alone.
        Piece::OpenVector | Piece::CloseVector | Piece::OpenMap | Piece::CloseMap => unreachable!(),
    }
}

/// The tokens that are not read yet.
#[derive(Drop)]
struct Tokens<'p, 'a> {
    rest: &'p [Piece<'a>],
}

impl<'p, 'a> Tokens<'p, 'a> {
    ghost use Rattle.edn_reader.specs.Formings.{tokens_left};

    /// The next token, of which there is one.
    fn next(&mut self) -> Piece<'a>
        requires { 0 < length self.old.rest.now }
        ensures token { tokens_left self.old ≡ piece_token result ∷ tokens_left self.new }
        ensures shorter { length self.new.rest.now < length self.old.rest.now }
    {
        let [first, rest @ ..] = self.rest else {
            unreachable!()
        };
        self.rest = rest;
        *first
    }

    /// Whether a vector ends here. Then the bracket that ends it is read.
    fn ends_vector(&mut self) -> bool
        ensures ends { result ≡ true → tokens_left self.old ≡ close_vector ∷ tokens_left self.new }
        ensures goes_on { result ≡ false → (ts : List Token) →
            tokens_left self.old ≡ close_vector ∷ ts → ⊥ }
        ensures same { result ≡ false → tokens_left self.new ≡ tokens_left self.old }
        ensures within { length self.new.rest.now ≤ length self.old.rest.now }
    {
        match self.rest {
            [Piece::CloseVector, rest @ ..] => {
                self.rest = rest;
                true
            }
            _ => false,
        }
    }

    /// The next key of a map, unless the map ends here. Then the brace that ends it is read.
    fn next_key(&mut self) -> Option<&'a str>
        requires { BeginsPairs (tokens_left self.old) }
        ensures next { MatchOption result (tokens_left self.old ≡ close_map ∷ tokens_left self.new)
            (λ name. tokens_left self.old ≡ leaf (atom (keyword name.now)) ∷ tokens_left self.new) }
        ensures shorter { length self.new.rest.now < length self.old.rest.now }
    {
        match self.next() {
            Piece::Keyword(name) => Some(name),
            _ => None,
        }
    }

    /// The form whose tokens come next.
    #[cycle(forms)]
    fn form(&mut self, alloc: Global) -> Result<Form, AllocError>
        requires { BeginsForm (tokens_left self.old) }
        ensures form { IfOk result (λ form. tokens_left self.old
            ≡ tokens_of (view form) ++ tokens_left self.new) }
        ensures shorter { OnOk result (length self.new.rest.now < length self.old.rest.now) }
    {
        match self.next() {
            Piece::OpenVector => self.vector(alloc),
            Piece::OpenMap => self.map(alloc),
            piece => leaf_of(alloc, &piece),
        }
    }

    /// The vector after its first bracket.
    #[cycle(forms)]
    fn vector(&mut self, alloc: Global) -> Result<Form, AllocError>
        requires { BeginsItems (tokens_left self.old) }
        ensures form { IfOk result (λ form.
            open_vector ∷ tokens_left self.old ≡ tokens_of (view form) ++ tokens_left self.new) }
        ensures within { OnOk result (length self.new.rest.now ≤ length self.old.rest.now) }
    {
        let mut forms = Vec::new(alloc);
        'items: while !self.ends_vector() {
            let form = self.form(alloc)?;
            forms.push(form)?;
        }
        Ok(Form::Vector(forms))
    }

    /// The map after its first brace.
    #[cycle(forms)]
    fn map(&mut self, alloc: Global) -> Result<Form, AllocError>
        requires { BeginsPairs (tokens_left self.old) }
        ensures form { IfOk result (λ form.
            open_map ∷ tokens_left self.old ≡ tokens_of (view form) ++ tokens_left self.new) }
        ensures within { OnOk result (length self.new.rest.now ≤ length self.old.rest.now) }
    {
        let mut pairs = Vec::new(alloc);
        'pairs: while let Some(name) = self.next_key() {
            let key = Name::from_bytes(alloc, name.as_bytes())?;
            let value = self.form(alloc)?;
            pairs.push((key, value))?;
        }
        Ok(Form::Map(pairs))
    }
}

/// The form whose tokens are at the front.
pub(crate) fn form_at(alloc: Global, pieces: &[Piece]) -> Result<Form, AllocError>
    requires { BeginsForm (token_buffer_tokens pieces.now) }
    ensures { IfOk result (λ form. (remains : List Token)
        × (token_buffer_tokens pieces.now ≡ tokens_of (view form) ++ remains)) }
{
    let mut tokens = Tokens { rest: pieces };
    tokens.form(alloc)
}

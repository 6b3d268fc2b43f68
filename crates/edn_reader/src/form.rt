//! What a text can hold, in memory.

ghost use Rattle.std.specs.Prelude.{◌≡◌, ◌≤◌, true, IfOk};
ghost use Rattle.edn_reader.specs.Bytes.{is_name};
ghost use Rattle.edn_reader.specs.declared.form.TheConstants.{SHORT};
ghost use Rattle.edn_reader.specs.NameTexts.{text_bytes, short_length};

use std::alloc::{AllocError, Global};

/// How many bytes of a name are in place.
const SHORT: usize = 22;

/// A name's bytes: their number and the bytes with zeros after them, or in memory of their own.
#[derive(Debug, PartialEq, Eq, Drop)]
enum Text {
    Short(u8, [u8; SHORT]),
    Long(Box<Vec<u8>>),
}

/// A keyword's text without its colon: a letter, and then up to 63 letters, digits and `-_.?!`.
/// A name of up to 22 bytes has no memory of its own.
#[derive(Debug, PartialEq, Eq, Drop)]
pub struct Name {
    text: Text,
    ghost spelled: { is_name (text_bytes text) ≡ true },
    ghost within: { short_length text ≤ SHORT },
}

impl Name {
    ghost use Rattle.edn_reader.specs.Names.{name_bytes};

    pub fn as_bytes(&self) -> &[u8]
        ensures text { result.now ≡ name_bytes self.now }
        ensures spelled { is_name result.now ≡ true }
    {
        match &self.text {
            Text::Short(length, bytes) => &bytes[..usize::from(*length)],
            Text::Long(bytes) => bytes.as_slice(),
        }
    }

    pub fn as_str(&self) -> &str
        ensures text { result.now ≡ name_bytes self.now }
        ensures spelled { is_name result.now ≡ true }
    {
        // A name is ASCII, so its bytes are text as they are.
        unsafe { std::str::from_utf8_unchecked(self.as_bytes()) }
    }

    /// A name of its own with these bytes.
    pub fn from_bytes(alloc: Global, bytes: &[u8]) -> Result<Name, AllocError>
        requires { is_name bytes.now ≡ true }
        ensures { IfOk result (λ n. name_bytes n ≡ bytes.now) }
    {
        let text = if bytes.len() <= SHORT {
            let mut short = [0; SHORT];
            short[..bytes.len()].copy_from_slice(bytes);
            Text::Short(bytes.len() as u8, short)
        } else {
            Text::Long(Box::new(alloc, Vec::from_slice(alloc, bytes)?)?)
        };
        Ok(Name { text })
    }
}

/// An element of a text. `Str` holds what is between the quotes, with the escapes resolved.
#[derive(Debug, PartialEq, Drop)]
pub enum Form {
    Nil,
    Bool(bool),
    Int(i64),
    Str(String),
    Keyword(Name),
    Vector(Vec<Form>),
    Map(Vec<(Name, Form)>),
}

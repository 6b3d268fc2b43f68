//! What is between the quotes of a string.

ghost use Rattle.std.specs.Prelude.{◌≡◌, IfOk, string_bytes};
ghost use Rattle.std.specs.Str.{IsUtf8};
ghost use Rattle.edn_reader.specs.Spells as spec;
ghost use Rattle.edn_reader.specs.Pieces.{unquoted};

use std::alloc::{AllocError, Global};

pub(crate) fn escape_of(c: u8) -> Option<u8>
    ensures { result ≡ spec.escape_of c }
{
    match c {
        b't' => Some(b'\t'),
        b'r' => Some(b'\r'),
        b'n' => Some(b'\n'),
        b'\\' => Some(b'\\'),
        b'"' => Some(b'"'),
        _ => None,
    }
}

/// What is between quotes, with the escapes resolved.
pub(crate) fn string_in(alloc: Global, raw: &[u8]) -> Result<String, AllocError>
    requires { IsUtf8 (unquoted raw.now) }
    ensures { IfOk result (λ s. string_bytes s ≡ unquoted raw.now) }
{
    let mut bytes = Vec::new(alloc);
    let mut rest = raw;
    'bytes: while let [b, tail @ ..] = rest {
        if *b == b'\\' {
            let [c, more @ ..] = tail else {
                break;
            };
            bytes.push(escape_of(*c).unwrap_or(*c))?;
            rest = more;
        } else {
            bytes.push(*b)?;
            rest = tail;
        }
    }
    Ok(unsafe { String::from_utf8_unchecked(bytes) })
}

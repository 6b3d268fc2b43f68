//! Numbers in decimal.

ghost use Rattle.std.specs.Prelude.{◌≡◌, ◌++◌, false, decimal, OnOk};
ghost use Rattle.std.specs.Fmt.{signed_decimal};
ghost use Rattle.edn.specs.Sent.{Writes};

use crate::writer::write_bytes;
use crate::{Failed, Sink};
use itoa::Buffer;
use std::alloc::AllocError;

/// Appends a number in decimal.
pub fn push_natural(text: &mut Vec<u8>, n: u64) -> Result<(), AllocError>
    ensures { OnOk result (text.new.items ≡ text.old.items ++ decimal n) }
{
    let mut buffer = Buffer::new();
    text.extend_from_slice(buffer.format(n).as_bytes())
}

/// Appends an integer in decimal, with a `-` if it is negative.
pub fn push_integer(text: &mut Vec<u8>, n: i64) -> Result<(), AllocError>
    ensures { OnOk result (text.new.items ≡ text.old.items ++ signed_decimal n) }
{
    let mut buffer = Buffer::new();
    text.extend_from_slice(buffer.format(n).as_bytes())
}

/// Writes a number in decimal.
pub fn write_natural<S: Sink>(n: u64, sink: &mut S) -> Result<(), Failed>
    requires { S.broken sink.old ≡ false }
    ensures sent { Writes result (S.sent sink.old) (S.sent sink.new) (S.broken sink.new)
        (decimal n) }
{
    let mut buffer = Buffer::new();
    let digits = buffer.format(n);
    write_bytes(digits.as_bytes(), sink)
}

/// Writes an integer in decimal, with a `-` if it is negative.
pub fn write_integer<S: Sink>(n: i64, sink: &mut S) -> Result<(), Failed>
    requires { S.broken sink.old ≡ false }
    ensures sent { Writes result (S.sent sink.old) (S.sent sink.new) (S.broken sink.new)
        (signed_decimal n) }
{
    let mut buffer = Buffer::new();
    let numeral = buffer.format(n);
    write_bytes(numeral.as_bytes(), sink)
}

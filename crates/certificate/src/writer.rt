//! Certificates as text.

ghost use Rattle.std.specs.Prelude.{◌≡◌, ◌++◌, false, true, codes, OnOk, IfErr};
ghost use Rattle.std.specs.Fmt.{signed_decimal};
ghost use Rattle.std.specs.List.{AllByRecursion};
ghost use Rattle.edn.specs.Sent.{Writes};
ghost use Rattle.edn_reader.specs.Text.{between, IsInt64};
ghost use Rattle.certificate.specs.Denotes.{AreDistinct};
ghost use Rattle.certificate.specs.Lines as text;
ghost use Rattle.certificate.specs.Lines.{AreCertificatesInRange, SpellsCertificates};

use crate::Certificate;
use edn::{Failed, Sink, WriteFault, write_bytes, write_integer};

/// The space before each integer that is not the first.
fn write_between<S: Sink>(first: bool, sink: &mut S) -> Result<(), Failed>
    requires { S.broken sink.old ≡ false }
    ensures sent { Writes result (S.sent sink.old) (S.sent sink.new) (S.broken sink.new)
        (between first (codes " ")) }
{
    write_bytes(if first { b"" } else { b" " }, sink)
}

/// An integer, after the space before each that is not the first.
fn write_next<S: Sink>(first: bool, n: i64, sink: &mut S) -> Result<(), Failed>
    requires { S.broken sink.old ≡ false }
    ensures sent { Writes result (S.sent sink.old) (S.sent sink.new) (S.broken sink.new)
        (between first (codes " ") ++ signed_decimal n) }
    ensures in_range { IsInt64 n }
{
    write_between(first, sink)?;
    write_integer(n, sink)
}

/// The integers with a space between them.
fn write_numbers<S: Sink>(numbers: &[i64], sink: &mut S) -> Result<(), Failed>
    requires { S.broken sink.old ≡ false }
    ensures sent { Writes result (S.sent sink.old) (S.sent sink.new) (S.broken sink.new)
        (text.numbers_text true numbers.now) }
    ensures in_range { OnOk result (AllByRecursion IsInt64 numbers.now) }
{
    let mut first = true;
    for n in numbers {
        write_next(first, *n, sink)?;
        first = false;
    }
    Ok(())
}

/// The line of a certificate.
fn write_line<S: Sink>(certificate: &Certificate, sink: &mut S) -> Result<(), Failed>
    requires { S.broken sink.old ≡ false }
    ensures sent { Writes result (S.sent sink.old) (S.sent sink.new) (S.broken sink.new)
        (text.certificate_line certificate.now) }
    ensures in_range { OnOk result (AllByRecursion IsInt64 certificate.now.order.items) }
{
    write_bytes(b"{:object ", sink)?;
    write_integer(i64::from(certificate.object), sink)?;
    write_bytes(b", :order [", sink)?;
    write_numbers(&certificate.order, sink)?;
    write_bytes(b"]}\n", sink)
}

/// Writes each certificate as a line, without taking memory. `Device` is the only error.
pub fn write_certificates<S: Sink>(
    certificates: &[Certificate],
    sink: &mut S,
) -> Result<(), WriteFault>
    requires working { S.broken sink.old ≡ false }
    ensures sent { Writes result (S.sent sink.old) (S.sent sink.new) (S.broken sink.new)
        (text.certificate_lines certificates.now) }
    // What was sent reads back as these certificates.
    ensures spelled { OnOk result (AreDistinct certificates.now
        → AreCertificatesInRange certificates.now →
        SpellsCertificates certificates.now (text.certificate_lines certificates.now)) }
    ensures device { IfErr result (λ e. e ≡ WriteFault.Device) }
{
    for certificate in certificates {
        write_line(certificate, sink)?;
    }
    Ok(())
}

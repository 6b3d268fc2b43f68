//! The lines of certificates, in memory: as they are, and as comments.

ghost use Rattle.std.specs.Prelude.{◌≡◌, ◌++◌, false, true, codes, OnOk, IfOk};
ghost use Rattle.std.specs.Io.KnownBytes.{Appends};
ghost use Rattle.certificate.specs.Lines.{certificate_line, certificate_lines};
ghost use Rattle.history_commands.specs.Comments.{comment_lines};

use certificate::{Certificate, write_certificates};
use edn::{Failed, Out, Sink, write_bytes};
use std::alloc::{AllocError, Global};

/// The text of these certificates.
pub(crate) fn certificates_text(
    alloc: Global,
    certificates: &[Certificate],
) -> Result<Vec<u8>, AllocError>
    ensures { IfOk result (λ v. v.items ≡ certificate_lines certificates.now) }
{
    let mut sink = Out::new(Vec::new(alloc));
    match write_certificates(certificates, &mut sink) {
        Ok(()) => Ok(sink.into_inner()),
        Err(_) => Err(AllocError),
    }
}

/// The line of a certificate, as a comment.
fn write_comment<S: Sink>(certificate: &Certificate, sink: &mut S) -> Result<(), Failed>
    requires { S.broken sink.old ≡ false }
    ensures ok { OnOk result (Appends (S.sent sink.old) (S.sent sink.new) (codes "; "
        ++ certificate_line certificate.now)) }
    ensures usable { OnOk result (S.broken sink.new ≡ false) }
{
    write_bytes(b"; ", sink)?;
    match write_certificates(std::slice::from_ref(certificate), sink) {
        Ok(()) => Ok(()),
        Err(_) => Err(Failed),
    }
}

fn write_comments<S: Sink>(certificates: &[Certificate], sink: &mut S) -> Result<(), Failed>
    requires { S.broken sink.old ≡ false }
    ensures ok { OnOk result (Appends (S.sent sink.old) (S.sent sink.new)
        (comment_lines certificates.now)) }
    ensures usable { OnOk result (S.broken sink.new ≡ false) }
{
    for certificate in certificates {
        write_comment(certificate, sink)?;
    }
    Ok(())
}

/// Returns the text of these certificates, each line a comment.
pub fn comments_text(alloc: Global, certificates: &[Certificate]) -> Result<Vec<u8>, AllocError>
    ensures { IfOk result (λ v. v.items ≡ comment_lines certificates.now) }
{
    let mut sink = Out::new(Vec::new(alloc));
    match write_comments(certificates, &mut sink) {
        Ok(()) => Ok(sink.into_inner()),
        Err(Failed) => Err(AllocError),
    }
}

//! Certificates that other text stands behind.

ghost use Rattle.std.specs.Prelude.{◌≡◌, IfErr, IfOk};
ghost use Rattle.certificate.specs.declared.certificate.Certificate.{Certificate};
ghost use Rattle.certificate_text.specs.CertificateText.{Text};
ghost use Rattle.certificate_text.specs.Readable.{IsReadableCertificate};
ghost use Rattle.certificate_read.specs.Fronts as spec;
ghost use Rattle.certificate_read.specs.TextCalls.{RefusesText};
ghost use Rattle.certificate_read.specs.TextReading.{UnlessMemory};

use crate::reading::{derivation, plan};
use crate::text_lines::TextLines;
use certificate::Certificate;
use certificate_text::{TextFault, TextReason};
use std::alloc::Global;

/// The certificate that a text begins with, and what stands behind it.
#[derive(Drop)]
pub struct Front<'a> {
    pub certificate: Certificate,
    pub rest: &'a [u8],
    /// How many lines the certificate's text has. Those behind it are numbered on from there.
    pub lines: usize,
}

/// The certificate with whose text the bytes begin, within the limits of certificates, and the bytes behind it. A fault of its lines is
/// reported as `read` does.
pub fn read_front(alloc: Global, bytes: &[u8]) -> Result<Front<'_>, TextFault>
    ensures sound { IfOk result (λ front. spec.IsFront front.certificate front.rest.now bytes.now) }
    ensures lines { IfOk result (λ front. front.lines ≡ spec.line_count front.certificate) }
    ensures readable { IfOk result (λ front. IsReadableCertificate front.certificate) }
    // Bytes that begin with the text of a certificate that can be read give that certificate and the rest.
    ensures complete { (c : Certificate) (rest : Text) → IsReadableCertificate c → spec.IsFront c rest bytes.now → UnlessMemory (λ front. (front.certificate ≡ c) × (front.rest.now ≡ rest)) result }
    // What is refused has a faulty line, as `read` tells it; the first of them is reported, and why.
    ensures refused { IfErr result (λ fault. RefusesText bytes.now fault) }
{
    let mut text = TextLines::of(bytes);
    text.expect(b"SQLPLAN 1", TextReason::OtherVersion)?;
    let lines = derivation(alloc, &mut text)?;
    let plan = plan(alloc, &mut text)?;
    text.expect(b"end", TextReason::OtherForm)?;
    Ok(Front {
        certificate: Certificate { lines, plan },
        rest: text.left,
        lines: text.number,
    })
}

//! Certificates with labels as text.

ghost use Rattle.std.specs.Prelude.{◌≡◌, ◌==◌, IfOk};
ghost use Rattle.std.specs.List.{AllByRecursion};
ghost use Rattle.values.specs.Faults.{Gives};
ghost use Rattle.certificate.specs.NodeInputs.{HaveInputs};
ghost use Rattle.certificate_text.specs.Readable.{IsReadableCertificate};
ghost use Rattle.label_text.specs.LabelText as spec;

use crate::labels_text::push_labels;
use certificate::Certificate;
use certificate_text::{TextFault, TextReason, TextRefusal};
use labels::Label;
use std::alloc::Global;
use values::Fault;

/// The most labels that a text may have: 16 for each line that a derivation may have, since a class may have labels in several orders.
pub const MOST_LABELS: usize = 3_200_000;

/// The number of the line behind a text, from 1.
fn line_behind(text: &[u8]) -> usize
    ensures { result ≡ spec.line_behind text.now }
{
    text.iter().filter(|byte| **byte == b'\n').count() + 1
}

/// The text of a certificate within its limits, and of at most 3,200,000 labels behind it. Else the first line is reported that would be
/// over a limit.
pub fn write(
    alloc: Global,
    certificate: &Certificate,
    labels: &[Label],
) -> Result<Vec<u8>, TextFault>
    ensures text { Gives (λ text. text.items) result (spec.least_text certificate.now labels.now) }
    // What was written can be read, where the certificate's nodes have the inputs that they take, as where it replays.
    ensures readable { HaveInputs certificate.now.plan → IfOk result (λ text. IsReadableCertificate certificate.now × AllByRecursion spec.IsReadableLabel labels.now) }
{
    let mut text = certificate_text::write(alloc, certificate)?;
    if labels.len() > MOST_LABELS {
        let line = line_behind(text.as_slice());
        let reason = TextReason::OverLimit;
        return Err(Fault::Refused(TextRefusal { line, reason }));
    }
    push_labels(&mut text, labels)?;
    Ok(text)
}

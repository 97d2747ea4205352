//! Certificates with labels from their text.

ghost use Rattle.std.specs.Prelude.{◌≡◌, ◌≤◌, ◌++◌, List, length, flat_map, codes, decimal, Ok, IfErr, IfOk};
ghost use Rattle.std.specs.List.{AllByRecursion};
ghost use Rattle.certificate.specs.declared.certificate.Certificate.{Certificate};
ghost use Rattle.certificate_text.specs.CertificateText.{Text, ◌␣◌, ended};
ghost use Rattle.certificate_text.specs.Readable.{IsReadableCertificate};
ghost use Rattle.certificate_read.specs.TextReading.{LeavesText, UnlessMemory};
ghost use Rattle.labels.specs.declared.goal.Label.{Label};
ghost use Rattle.label_text.specs.LabelReading as reading;
ghost use Rattle.label_text.specs.LabelText as spec;

use crate::label_lines::label;
use crate::writing::MOST_LABELS;
use certificate::Certificate;
use certificate_read::read_front;
use certificate_read::reading::count;
use certificate_read::text_lines::TextLines;
use certificate_text::TextFault;
use labels::Label;
use std::alloc::Global;
use values::Items;

/// A certificate, and the labels that stood behind it.
#[derive(Drop)]
pub struct LabelledCertificate {
    pub certificate: Certificate,
    pub labels: Items<Label>,
}

/// The label that is the next line of the text.
fn next_label(alloc: Global, text: &mut TextLines<'_>) -> Result<Label, TextFault>
    ensures exact { reading.PassesLabel text.old text.new result }
    ensures complete { (l : Label) (rest : Text) → spec.IsReadableLabel l → text.old.left.now ≡ spec.label_text l ++ rest → LeavesText (λ l. l) l rest text.new result }
{
    let line = text.line()?;
    match label(alloc, line) {
        Ok(read) => Ok(read),
        Err(fault) => Err(text.fault(fault)),
    }
}

/// The labels, behind how many they are.
fn labels(alloc: Global, text: &mut TextLines<'_>) -> Result<Items<Label>, TextFault>
    ensures exact { reading.PassesLabels text.old text.new result }
    ensures complete { (ls : List Label) (rest : Text) → AllByRecursion spec.IsReadableLabel ls → length ls ≤ spec.most_labels
        → text.old.left.now ≡ ended (codes "labels" ␣ decimal (length ls)) ++ (flat_map spec.label_text ls ++ rest)
        → LeavesText (λ ls. ls) ls rest text.new result }
{
    let count = count(text, "labels", MOST_LABELS)?;
    let mut labels = Items::new(alloc);
    for _done in 0..count {
        labels.push(next_label(alloc, text)?)?;
    }
    Ok(labels)
}

/// The certificate and the labels that the bytes are the text of, within the limits. Else the first faulty line is reported, as
/// `certificate_read` does.
pub fn read(alloc: Global, bytes: &[u8]) -> Result<LabelledCertificate, TextFault>
    ensures sound { IfOk result (λ read. spec.least_text read.certificate read.labels ≡ Ok bytes.now) }
    // The text of each certificate that can be read, with labels that can, is read as these.
    ensures complete { (c : Certificate) (ls : List Label) → IsReadableCertificate c → AllByRecursion spec.IsReadableLabel ls → spec.least_text c ls ≡ Ok bytes.now
        → UnlessMemory (λ read. (read.certificate ≡ c) × (read.labels ≡ ls)) result }
    // What is refused has a faulty line; the first of them is reported, and why.
    ensures refused { IfErr result (λ fault. reading.RefusesLeast bytes.now fault) }
{
    let front = read_front(alloc, bytes)?;
    let mut text = TextLines {
        left: front.rest,
        number: front.lines,
    };
    let labels = labels(alloc, &mut text)?;
    text.finish()?;
    Ok(LabelledCertificate {
        certificate: front.certificate,
        labels,
    })
}

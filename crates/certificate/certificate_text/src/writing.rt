//! Certificates as text.

ghost use Rattle.std.specs.Prelude.{◌≡◌, IfOk};
ghost use Rattle.values.specs.Faults.{Gives};
ghost use Rattle.certificate.specs.NodeInputs.{HaveInputs};
ghost use Rattle.certificate_text.specs.CertificateText as spec;
ghost use Rattle.certificate_text.specs.Limits.{written};
ghost use Rattle.certificate_text.specs.Readable.{IsReadableCertificate, PartsCanBeRead};

use crate::fault::TextFault;
use crate::limits::check_limits;
use crate::line_text::push_lines;
use crate::node_text::{count_nodes, push_plan};
use crate::parts::{push_count, push_text};
use certificate::Certificate;
use std::alloc::{AllocError, Global};

/// The text of a certificate, of any size. A plan with more nodes than there are numbers has no room in memory.
fn certificate_text(alloc: Global, certificate: &Certificate) -> Result<Vec<u8>, AllocError>
    ensures text { IfOk result (λ text. text.items ≡ spec.certificate_text certificate.now) }
    ensures readable { IfOk result (λ text. PartsCanBeRead certificate.now) }
{
    let mut text = Vec::new(alloc);
    push_text(&mut text, "SQLPLAN 1\n")?;
    let lines = certificate.lines.as_slice();
    push_count(&mut text, "lines ", lines.len())?;
    push_text(&mut text, "\n")?;
    push_lines(alloc, &mut text, lines)?;
    push_count(&mut text, "plan ", count_nodes(&certificate.plan)?)?;
    push_text(&mut text, "\n")?;
    push_plan(alloc, &mut text, &certificate.plan)?;
    push_text(&mut text, "end\n")?;
    Ok(text)
}

/// The text of a certificate that is within the limits of certificates: 200,000 lines of its derivation, 200,000 nodes, 256 conditions
/// in one another, and 1,024 nodes from the root down. Else the first line is reported that would be over one.
#[tactic(auto, using(crate::proofs::WholeTexts::certificate_readable))]
pub fn write(alloc: Global, certificate: &Certificate) -> Result<Vec<u8>, TextFault>
    ensures text { Gives (λ text. text.items) result (written certificate.now) }
    // What was written of a certificate whose nodes have the inputs that they take, as it is where it replays, can be read.
    ensures readable { HaveInputs certificate.now.plan → IfOk result (λ text. IsReadableCertificate certificate.now) }
{
    check_limits(certificate)?;
    Ok(certificate_text(alloc, certificate)?)
}

//! Texts that are spelled out. The function does nothing: its contract is the law.

ghost use Rattle.certificate_text.specs.WorkedTexts.{CertificateIsSpelled, LinesAreSpelled, NodesAreSpelled};

/// The texts of a certificate, of each form of line and of each form of node.
pub fn worked_texts()
    ensures certificate { CertificateIsSpelled }
    ensures lines { LinesAreSpelled }
    ensures nodes { NodesAreSpelled }
{}

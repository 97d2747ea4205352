//! Certificates from their text.

ghost use Rattle.std.specs.Prelude.{◌≡◌, ◌≤◌, ◌<◌, ◌+◌, ◌-◌, ◌^◌, ◌++◌, ◌∷◌, ℕ, suc, List, [], length, map, flat_map, sum, codes, decimal, Ok, IfOk, IfErr, true};
ghost use Rattle.std.specs.List.{AllByRecursion};
ghost use Rattle.derivation.specs.declared.line.Line.{Line};
ghost use Rattle.physical.specs.declared.plan.Node.{Node};
ghost use Rattle.physical.specs.declared.plan.Plan.{Plan};
ghost use Rattle.certificate.specs.declared.certificate.Certificate.{Certificate};
ghost use Rattle.certificate_text.specs.PartTexts.{lacks};
ghost use Rattle.certificate_text.specs.Parts.{IsShort};
ghost use Rattle.certificate_text.specs.CertificateText.{Text, ◌␣◌, ended, line_text, node_text, plan_text, node_count, certificate_text};
ghost use Rattle.certificate_text.specs.Limits.{written, most_lines, most_nodes, most_deep};
ghost use Rattle.certificate_text.specs.Readable.{IsReadableCertificate, IsReadableLine, IsReadableNode};
ghost use Rattle.certificate_read.specs.TextCalls as calls;
ghost use Rattle.certificate_read.specs.TextReading as spec;
ghost use Rattle.certificate_read.specs.WordReading.{UnlessMemory};

use crate::derivation_lines::derivation_line;
use crate::line_fault::LineFault;
use crate::nodes::{ReadNode, node};
use crate::text_lines::TextLines;
use certificate::Certificate;
use certificate_text::numbers::number;
use certificate_text::{MOST_DEEP, MOST_LINES, MOST_NODES, TextFault, TextReason};
use derivation::Line;
use physical::Plan;
use std::alloc::Global;
use values::Items;

/// The number behind a word and a space, which is at most so large.
fn count_of(line: &str, word: &str, most: usize) -> Result<usize, LineFault>
    ensures complete { (n : ℕ) → n ≤ most → IsShort n → lacks 32 word.now ≡ true → line.now ≡ word.now ␣ decimal n → UnlessMemory (λ count. count ≡ n) result }
    ensures exact { IsShort most → lacks 32 word.now ≡ true → calls.ReadsCount word.now most line.now result }
{
    let Some((first, text)) = line.split_once(' ') else {
        return Err(LineFault::OtherForm);
    };
    if first != word {
        return Err(LineFault::OtherForm);
    }
    let Some(count) = number(text)? else {
        return Err(LineFault::OverLimit);
    };
    if count as usize <= most {
        Ok(count as usize)
    } else {
        Err(LineFault::OverLimit)
    }
}

/// The count of what follows, on a line of its own.
pub fn count(text: &mut TextLines<'_>, word: &str, most: usize) -> Result<usize, TextFault>
    ensures complete { (n : ℕ) (rest : Text) → n ≤ most → IsShort n → spec.IsWord word.now → text.old.left.now ≡ ended (word.now ␣ decimal n) ++ rest → spec.LeavesText (λ count. count) n rest text.new result }
    ensures exact { IsShort most → spec.IsWord word.now → calls.PassesCount word.now most text.old text.new result }
{
    let line = text.line()?;
    match count_of(line, word, most) {
        Ok(count) => Ok(count),
        Err(fault) => Err(text.fault(fault)),
    }
}

/// The line of the derivation that is the next line of the text.
fn next_line(alloc: Global, text: &mut TextLines<'_>) -> Result<Line, TextFault>
    ensures complete { (l : Line) (rest : Text) → IsReadableLine l → text.old.left.now ≡ line_text l ++ rest → spec.LeavesText (λ l. l) l rest text.new result }
    ensures exact { calls.PassesDerivationLine text.old text.new result }
{
    let line = text.line()?;
    match derivation_line(alloc, line) {
        Ok(read) => Ok(read),
        Err(fault) => Err(text.fault(fault)),
    }
}

pub(crate) fn derivation(alloc: Global, text: &mut TextLines<'_>) -> Result<Items<Line>, TextFault>
    ensures complete { (ls : List Line) (rest : Text) → AllByRecursion IsReadableLine ls → length ls ≤ most_lines
        → text.old.left.now ≡ ended (codes "lines" ␣ decimal (length ls)) ++ (flat_map line_text ls ++ rest)
        → spec.LeavesText (λ ls. ls) ls rest text.new result }
    ensures exact { calls.PassesDerivation text.old text.new result }
{
    let count = count(text, "lines", MOST_LINES)?;
    let mut lines = Items::new(alloc);
    for _done in 0..count {
        lines.push(next_line(alloc, text)?)?;
    }
    Ok(lines)
}

/// How many nodes are still to be read: those that the plan has by its count, and those that are the inputs of nodes that were read.
#[derive(Drop)]
struct Wanted {
    counted: u64,
    inputs: u64,
}

impl Wanted {
    /// Takes a node with so many inputs, behind which as many nodes are counted as inputs are wanted at least, and none where none is.
    fn take(&mut self, inputs: u64) -> bool
        ensures complete { (k : ℕ) (w : ℕ) → spec.IsWanted (k + 1) (w + 1) self.old → spec.IsBalanced k (w + inputs) → (result ≡ true) × spec.IsWanted k (w + inputs) self.new }
        ensures exact { (self.old.inputs - 1) + inputs < 2 ^ 64 → calls.Takes inputs self.old self.new result }
    {
        self.counted = self.counted.saturating_sub(1);
        self.inputs = self.inputs.saturating_sub(1).saturating_add(inputs);
        self.inputs <= self.counted && (self.inputs > 0 || self.counted == 0)
    }
}

/// The node that is the next line of the text.
fn next_node(
    alloc: Global,
    text: &mut TextLines<'_>,
    is_within: bool,
) -> Result<ReadNode, TextFault>
    ensures complete { (n : Node) (inputs : ℕ) (rest : Text) → IsReadableNode n inputs → is_within ≡ true → text.old.left.now ≡ node_text n inputs ++ rest
        → spec.UnlessMemory (λ r. (r.node ≡ n) × (r.inputs ≡ inputs) × (text.new.left.now ≡ rest)) result }
    ensures exact { calls.PassesNode is_within text.old text.new result }
{
    let line = text.line()?;
    match node(alloc, line, is_within) {
        Ok(read) => Ok(read),
        Err(fault) => Err(text.fault(fault)),
    }
}

/// The node on the next line, where so many nodes may stand from it down.
fn node_within(
    alloc: Global,
    text: &mut TextLines<'_>,
    wanted: &mut Wanted,
    room: usize,
) -> Result<ReadNode, TextFault>
    ensures complete { (n : Node) (inputs : ℕ) (k : ℕ) (w : ℕ) (rest : Text) → IsReadableNode n inputs → 0 < room
        → spec.IsWanted (k + 1) (w + 1) wanted.old → spec.IsBalanced k (w + inputs)
        → text.old.left.now ≡ node_text n inputs ++ rest
        → spec.UnlessMemory (λ r. (r.node ≡ n) × (r.inputs ≡ inputs) × (text.new.left.now ≡ rest) × spec.IsWanted k (w + inputs) wanted.new) result }
    ensures exact { (w : ℕ) (ws : List ℕ) → calls.IsBefore (suc w ∷ ws) room wanted.old → calls.PassesNodeOf w ws wanted.old wanted.new text.old text.new result }
{
    let read = next_node(alloc, text, room > 0)?;
    if wanted.take(read.inputs) {
        Ok(read)
    } else {
        Err(text.refused(TextReason::OtherForm))
    }
}

/// So many plans, one behind the other, where so many nodes may stand from the node down whose inputs they are.
#[cycle(plans)]
fn inputs_within(
    alloc: Global,
    text: &mut TextLines<'_>,
    wanted: &mut Wanted,
    count: u64,
    room: usize,
) -> Result<Items<Plan>, TextFault>
    ensures complete { (ps : List Plan) (k : ℕ) (w : ℕ) (rest : Text) → AllByRecursion (spec.IsReadablePlan (room - 1)) ps → length ps ≡ count → 0 < room
        → spec.IsWanted (sum (map node_count ps) + k) (w + length ps) wanted.old → spec.IsBalanced k w
        → text.old.left.now ≡ flat_map plan_text ps ++ rest
        → spec.UnlessMemory (λ read. (read ≡ ps) × (text.new.left.now ≡ rest) × spec.IsWanted k w wanted.new) result }
    ensures exact { (w : ℕ) (ws : List ℕ) → 0 < room → (room + length (w ∷ ws) ≡ most_deep + 1) → (wanted.old.inputs ≡ sum (count ∷ w ∷ ws)) → wanted.old.inputs ≤ wanted.old.counted → wanted.old.counted ≤ most_nodes
        → calls.PassesInputs room count w ws wanted.old wanted.new text.old text.new result }
{
    let Some(below) = room.checked_sub(1) else {
        return Err(text.refused(TextReason::OverLimit));
    };
    let mut inputs = Items::new(alloc);
    for _done in 0..count {
        inputs.push(plan_within(alloc, text, wanted, below)?)?;
    }
    Ok(inputs)
}

/// The plan whose topmost node stands on the next line, where so many nodes may stand from it down.
#[cycle(plans)]
fn plan_within(
    alloc: Global,
    text: &mut TextLines<'_>,
    wanted: &mut Wanted,
    room: usize,
) -> Result<Plan, TextFault>
    ensures complete { (p : Plan) (k : ℕ) (w : ℕ) (rest : Text) → spec.IsReadablePlan room p
        → spec.IsWanted (node_count p + k) (w + 1) wanted.old → spec.IsBalanced k w
        → text.old.left.now ≡ plan_text p ++ rest
        → spec.UnlessMemory (λ read. (read ≡ p) × (text.new.left.now ≡ rest) × spec.IsWanted k w wanted.new) result }
    ensures exact { (w : ℕ) (ws : List ℕ) → calls.IsBefore (suc w ∷ ws) room wanted.old → calls.PassesPlan room w ws wanted.old wanted.new text.old text.new result }
{
    let ReadNode { node, inputs } = node_within(alloc, text, wanted, room)?;
    let inputs = inputs_within(alloc, text, wanted, inputs, room)?;
    Ok(Plan { node, inputs })
}

pub(crate) fn plan(alloc: Global, text: &mut TextLines<'_>) -> Result<Plan, TextFault>
    ensures complete { (p : Plan) (rest : Text) → spec.IsReadablePlan most_deep p → node_count p ≤ most_nodes
        → text.old.left.now ≡ ended (codes "plan" ␣ decimal (node_count p)) ++ (plan_text p ++ rest)
        → spec.LeavesText (λ p. p) p rest text.new result }
    ensures exact { calls.PassesWholePlan text.old text.new result }
{
    let count = count(text, "plan", MOST_NODES)?;
    if count == 0 {
        return Err(text.refused(TextReason::OtherForm));
    }
    let mut wanted = Wanted {
        counted: count as u64,
        inputs: 1,
    };
    plan_within(alloc, text, &mut wanted, MOST_DEEP)
}

/// The plan, which the text ends behind.
fn last_plan(alloc: Global, text: &mut TextLines<'_>) -> Result<Plan, TextFault>
    ensures complete { (p : Plan) → spec.IsReadablePlan most_deep p → node_count p ≤ most_nodes
        → text.old.left.now ≡ ended (codes "plan" ␣ decimal (node_count p)) ++ (plan_text p ++ ended (codes "end"))
        → spec.UnlessMemory (λ read. read ≡ p) result }
    ensures exact { calls.PassesLastPlan text.old result }
{
    let plan = plan(alloc, text)?;
    text.finish()?;
    Ok(plan)
}

/// The certificate that the bytes are the text of, within the limits of certificates. Else the first faulty line is reported: of a line's
/// faults first that it is broken off, then that its version or its form is another, that it is over a limit, and that a number is past
/// its range.
pub fn read(alloc: Global, bytes: &[u8]) -> Result<Certificate, TextFault>
    ensures sound { IfOk result (λ certificate. written certificate ≡ Ok bytes.now) }
    // Numbers are in their ranges and lists in order, and each node has the inputs that it takes.
    ensures readable { IfOk result IsReadableCertificate }
    // The text of each certificate that can be read is read as that certificate.
    ensures complete { (c : Certificate) → IsReadableCertificate c → written c ≡ Ok bytes.now → spec.UnlessMemory (λ read. read ≡ c) result }
    // What is refused has a faulty line; the first of them is reported, and why.
    ensures refused { IfErr result (λ fault. calls.RefusesText bytes.now fault) }
{
    let mut text = TextLines::of(bytes);
    text.expect(b"SQLPLAN 1", TextReason::OtherVersion)?;
    let lines = derivation(alloc, &mut text)?;
    let plan = last_plan(alloc, &mut text)?;
    Ok(Certificate { lines, plan })
}

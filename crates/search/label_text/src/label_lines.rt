//! The lines of labels.

ghost use Rattle.certificate_read.specs.WordReading.{words_in};
ghost use Rattle.certificate_read.specs.Wordings.{ReadsLine, ReadsWords};
ghost use Rattle.label_text.specs.LabelReading as spec;

use crate::cost_words::cost;
use certificate_read::line_fault::LineFault;
use certificate_read::sort_keys::keys;
use certificate_read::words::{Words, words_of};
use labels::{Goal, Label};
use std::alloc::Global;

fn label_of(alloc: Global, words: &mut Words<'_>) -> Result<Label, LineFault>
    ensures { ReadsWords spec.label_wording (λ l. l) words.old words.new result }
{
    let class = words.number()?;
    let order = keys(alloc, words)?;
    let cost = cost(words)?;
    let goal = Goal { class, order };
    Ok(Label { goal, cost })
}

/// The label that a line of the text is.
pub(crate) fn label(alloc: Global, text: &str) -> Result<Label, LineFault>
    ensures { ReadsLine spec.label_wording (λ l. l) (words_in text.now) result }
{
    let parts = words_of(alloc, text)?;
    let mut words = Words::of(parts.as_slice());
    let label = label_of(alloc, &mut words)?;
    words.end(true)?;
    Ok(label)
}

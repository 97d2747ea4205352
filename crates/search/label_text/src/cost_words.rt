//! Costs as words of a line.

ghost use Rattle.certificate_text.specs.Parts.{IsRead, SpellsNumber};
ghost use Rattle.certificate_read.specs.Wordings.{ReadsWords};
ghost use Rattle.label_text.specs.LabelReading.{cost_wording};
ghost use Rattle.label_text.specs.LabelText.{IsCost};

use certificate_read::line_fault::LineFault;
use certificate_read::words::Words;
use certificate_text::numbers::is_numeral;
use certificate_text::part_fault::PartReason;

/// The cost that a word is; `None` where it is past 64 bits.
fn cost_of(word: &str) -> Result<Option<u64>, PartReason>
    ensures { IsRead SpellsNumber IsCost word.now result }
{
    if !is_numeral(word) {
        return Err(PartReason::OtherForm);
    }
    Ok(word.parse::<u64>().ok())
}

/// The next word's cost; that it is past 64 bits is noted.
pub(crate) fn cost(words: &mut Words<'_>) -> Result<u64, LineFault>
    ensures { ReadsWords cost_wording (λ x. x) words.old words.new result }
{
    match cost_of(words.word()?)? {
        Some(cost) => Ok(cost),
        None => {
            words.passes_range();
            Ok(0)
        }
    }
}

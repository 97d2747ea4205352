//! Labels as text, each part added behind what goes before it.

ghost use Rattle.std.specs.Prelude.{◌≡◌, ◌++◌, codes, decimal, flat_map, OnOk};
ghost use Rattle.std.specs.List.{AllByRecursion};
ghost use Rattle.certificate_text.specs.CertificateText.{key_text, keys_text};
ghost use Rattle.certificate_text.specs.Readable.{AreShortKeys, IsShortKey};
ghost use Rattle.label_text.specs.LabelText as spec;

use itoa::Buffer;
use labels::Label;
use physical::OrderKey;
use std::alloc::AllocError;

fn push_text(text: &mut Vec<u8>, part: &str) -> Result<(), AllocError>
    ensures { OnOk result (text.new.items ≡ text.old.items ++ part.now) }
{
    text.extend_from_slice(part.as_bytes())
}

fn push_key(text: &mut Vec<u8>, before: &str, key: OrderKey) -> Result<(), AllocError>
    ensures text { OnOk result (text.new.items ≡ text.old.items ++ (before.now ++ key_text key)) }
    ensures short { IsShortKey key }
{
    push_text(text, before)?;
    push_text(text, Buffer::new().format(key.column))?;
    push_text(text, if key.descending { "d" } else { "a" })
}

fn push_more_keys(text: &mut Vec<u8>, more: &[OrderKey]) -> Result<(), AllocError>
    ensures text { OnOk result (text.new.items ≡ text.old.items ++ flat_map (λ k. codes "," ++ key_text k) more.now) }
    ensures short { OnOk result (AreShortKeys more.now) }
{
    for key in more {
        push_key(text, ",", *key)?;
    }
    Ok(())
}

fn push_keys(text: &mut Vec<u8>, keys: &[OrderKey]) -> Result<(), AllocError>
    ensures text { OnOk result (text.new.items ≡ text.old.items ++ keys_text keys.now) }
    ensures short { OnOk result (AreShortKeys keys.now) }
{
    match keys {
        [] => push_text(text, "-"),
        [first, more @ ..] => {
            push_key(text, "", *first)?;
            push_more_keys(text, more)
        }
    }
}

/// Adds the line of a label.
fn push_label(text: &mut Vec<u8>, label: &Label) -> Result<(), AllocError>
    ensures text { OnOk result (text.new.items ≡ text.old.items ++ spec.label_text label.now) }
    ensures readable { OnOk result (spec.IsReadableLabel label.now) }
{
    push_text(text, Buffer::new().format(label.goal.class))?;
    push_text(text, " ")?;
    push_keys(text, label.goal.order.as_slice())?;
    push_text(text, " ")?;
    push_text(text, Buffer::new().format(label.cost))?;
    push_text(text, "\n")
}

fn push_each_label(text: &mut Vec<u8>, labels: &[Label]) -> Result<(), AllocError>
    ensures text { OnOk result (text.new.items ≡ text.old.items ++ flat_map spec.label_text labels.now) }
    ensures readable { OnOk result (AllByRecursion spec.IsReadableLabel labels.now) }
{
    for label in labels {
        push_label(text, label)?;
    }
    Ok(())
}

/// Adds how many labels there are, the labels in their order, and the end.
pub(crate) fn push_labels(text: &mut Vec<u8>, labels: &[Label]) -> Result<(), AllocError>
    ensures text { OnOk result (text.new.items ≡ text.old.items ++ spec.labels_text labels.now) }
    ensures readable { OnOk result (AllByRecursion spec.IsReadableLabel labels.now) }
{
    push_text(text, "labels ")?;
    push_text(text, Buffer::new().format(labels.len()))?;
    push_text(text, "\n")?;
    push_each_label(text, labels)?;
    push_text(text, "end\n")
}

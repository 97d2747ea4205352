//! Whether something has become known of what a line names.

use algebra::ClassId;
use memo::Memo;
use rules::MatchedLine;

fn has_changed(memo: &Memo<'_>, class: Option<ClassId>, since: usize) -> bool {
    match class {
        Some(class) => memo.changed_at(class) > since,
        None => false,
    }
}

/// Whether something has become known of a line's class, or of one that it takes, since the log had so many lines.
pub(crate) fn has_news(memo: &Memo<'_>, line: MatchedLine<'_>, since: usize) -> bool {
    let (first, second) = line.expr.children();
    has_changed(memo, Some(line.class), since)
        || has_changed(memo, first, since)
        || has_changed(memo, second, since)
}

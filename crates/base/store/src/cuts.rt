//! Where a part of a table's file can be cut, so that the records of both sides are those of the whole.

ghost use Rattle.std.specs.Prelude.{◌≡◌, ◌≢◌, ◌<◌, ◌≤◌, length, take, slice_index, IfSome};
ghost use Rattle.store.specs.Cuts.{quotes_outside, quotes_after, quotes_behind, IsQuoteless, IsLineEnd, CutsText, CutsFile};

use memchr::{memchr, memrchr};

const QUOTE: u8 = b'"';

const LINE_FEED: u8 = b'\n';

/// What a quote would do to the field at hand.
#[derive(Clone, Copy)]
enum Quotes {
    /// Open it: no byte of it was read.
    Fresh,
    /// Be one of its bytes.
    Plain,
    /// Close it, or be the first of two.
    Open,
    /// Be the second of two.
    Closed,
}

/// What a quote would do behind this byte, which is in no quotes and opens none.
fn outside(byte: u8) -> Quotes
    ensures { result ≡ quotes_outside byte }
{
    if byte == b',' {
        return Quotes::Fresh;
    }
    if byte == b'\r' || byte == LINE_FEED {
        return Quotes::Fresh;
    }
    Quotes::Plain
}

/// What a quote would do behind this byte.
fn behind(quotes: Quotes, byte: u8) -> Quotes
    ensures { result ≡ quotes_after quotes byte }
{
    match quotes {
        Quotes::Open => {
            if byte == QUOTE {
                Quotes::Closed
            } else {
                Quotes::Open
            }
        }
        Quotes::Plain => outside(byte),
        Quotes::Fresh | Quotes::Closed => {
            if byte == QUOTE {
                Quotes::Open
            } else {
                outside(byte)
            }
        }
    }
}

/// What a quote would do behind bytes of which none is one.
#[tactic(auto, using(crate::proofs::CutRecords::behind_none, crate::proofs::CutRecords::behind_open, crate::proofs::CutRecords::behind_last))]
fn behind_plain(quotes: Quotes, bytes: &[u8]) -> Quotes
    requires { IsQuoteless bytes.now }
    ensures { result ≡ quotes_behind quotes bytes.now }
{
    if bytes.is_empty() {
        return quotes;
    }
    match quotes {
        Quotes::Open => Quotes::Open,
        Quotes::Fresh | Quotes::Plain | Quotes::Closed => outside(bytes[bytes.len() - 1]),
    }
}

/// How many bytes there are before the first quote.
fn until_quote(bytes: &[u8]) -> usize
    ensures within { result ≤ length bytes.now }
    ensures plain { IsQuoteless (take result bytes.now) }
    ensures quote { result < length bytes.now → slice_index bytes.now result ≡ 34 }
{
    match memchr(QUOTE, bytes) {
        Some(at) => at,
        None => bytes.len(),
    }
}

/// The last line feed.
fn last_line_feed(bytes: &[u8]) -> Option<usize>
    ensures { IfSome result (IsLineEnd bytes.now) }
{
    memrchr(LINE_FEED, bytes)
}

/// The last line feed of bytes of which none is a quote, if they are in no quotes.
fn last_line_end(quotes: Quotes, bytes: &[u8]) -> Option<usize>
    ensures { IfSome result (λ at. IsLineEnd bytes.now at × (quotes ≢ Quotes.Open)) }
{
    match quotes {
        Quotes::Open => None,
        Quotes::Fresh | Quotes::Plain | Quotes::Closed => last_line_feed(bytes),
    }
}

/// The last line feed of a text that is in no quotes.
fn last_outside(text: &[u8]) -> Option<usize>
    ensures { IfSome result (CutsText text.now) }
{
    let mut quotes = Quotes::Fresh;
    let mut cut = None;
    let mut begin = 0;
    // From quote to quote: of what lies between, the last byte and the last line feed are all that counts.
    while begin < text.len() {
        let end = begin + until_quote(&text[begin..]);
        let plain = &text[begin..end];
        if let Some(at) = last_line_end(quotes, plain) {
            cut = Some(begin + at);
        }
        if end == text.len() {
            return cut;
        }
        quotes = behind(behind_plain(quotes, plain), QUOTE);
        begin = end + 1;
    }
    cut
}

/// A place at which the bytes can be cut, whatever comes behind them: the last one that there is.
pub fn cut_of(bytes: &[u8]) -> Option<usize>
    ensures { IfSome result (CutsFile bytes.now) }
{
    // Most files have no quotes, and then each line feed is a place.
    let plain = until_quote(bytes);
    if plain == bytes.len() {
        return last_line_feed(bytes);
    }
    // Behind a byte order mark the text begins, so that a quote there opens a field.
    if bytes.starts_with(&[0xEF, 0xBB, 0xBF]) {
        return match last_outside(&bytes[3..]) {
            Some(cut) => Some(cut + 3),
            None => None,
        };
    }
    last_outside(bytes)
}

// A text line by line.
ghost use Rattle.std.specs.Prelude.{◌≡◌, true, ◌+◌, ◌-◌, ◌≤◌, ◌<◌, length, take, drop};
ghost use Rattle.labels.specs.Bytes.{every};
ghost use Rattle.labels.specs.Reading.{Passed};
ghost use Rattle.programs.specs.Code.{is_text, stripped, Spans, line_steps};
ghost use Rattle.std.specs.Iterator.{at_most};

use labels::text::byte;

// A line of a text: its bytes, the place where it begins, and its number, the first being 1.
#[derive(Clone, Copy)]
pub(crate) struct TextLine<'a> {
    pub bytes: &'a [u8],
    pub at: usize,
    pub number: u64,
}

// The lines of a text from a place on, behind so many others.
#[derive(Drop)]
pub(crate) struct TextLines<'a> {
    text: &'a [u8],
    at: usize,
    before: u64,
}

pub(crate) fn text_lines(text: &[u8]) -> TextLines<'_>
    ensures { (result.text.now ≡ text.now) × (result.at ≡ 0) × (result.before ≡ 0) }
{
    TextLines {
        text,
        at: 0,
        before: 0,
    }
}

impl<'a> Iterator for TextLines<'a> {
    type Item = TextLine<'a>;

    ghost can_next = { λ s. (s.before ≤ s.at) × (s.at ≤ length s.text.now) };

    ghost next_gives = { line_steps };

    ghost remaining = { λ s. at_most (length s.text.now - s.at) };

    fn next(&mut self) -> Option<TextLine<'a>> {
        if self.text.len() <= self.at {
            return None;
        }
        let at = self.at;
        let span = span_at(self.text, at);
        self.at = span.next;
        self.before += 1;
        Some(TextLine {
            bytes: &self.text[at..span.stop],
            at,
            number: self.before,
        })
    }
}

// Where a line stops, and where the next one begins.
#[derive(Clone, Copy)]
struct Span {
    pub stop: usize,
    pub next: usize,
}

// The place of the next LF, or the end.
fn next_feed(s: &[u8], at: usize) -> usize
    requires { at ≤ length s.now }
    ensures { Passed is_text s.now at result }
{
    for n in at..s.len() {
        if s[n] == b'\n' {
            return n;
        }
    }
    s.len()
}

// Whether none of eight bytes is an LF: `&` tests all eight, so that the machine can do so at once.
fn eight_are_text(s: &[u8], n: usize) -> bool
    requires { n + 8 ≤ length s.now }
    ensures { result ≡ every is_text (take 8 (drop n s.now)) }
{
    (s[n] != 10)
        & (s[n + 1] != 10)
        & (s[n + 2] != 10)
        & (s[n + 3] != 10)
        & (s[n + 4] != 10)
        & (s[n + 5] != 10)
        & (s[n + 6] != 10)
        & (s[n + 7] != 10)
}

// The same, eight bytes a turn. No `for`: the last bytes, fewer than eight, are another loop's all the same.
fn line_feed(s: &[u8], at: usize) -> usize
    requires { at ≤ length s.now }
    ensures { Passed is_text s.now at result }
{
    let mut n = at;
    while n + 8 <= s.len() && eight_are_text(s, n) {
        n += 8;
    }
    next_feed(s, n)
}

// Where the line stops that an LF at n ends: a CR before it belongs to the line's end.
fn before_end(s: &[u8], at: usize, n: usize) -> usize
    requires { (at ≤ n) × (n < length s.now) }
    ensures { (take (result - at) (drop at s.now) ≡ stripped true (take (n - at) (drop at s.now))) × (at ≤ result) × (result ≤ n) }
{
    if n <= at {
        return n;
    }
    let c = byte(s, n - 1);
    if c == 13 {
        return n - 1;
    }
    n
}

// The line at a place.
fn span_at(s: &[u8], at: usize) -> Span
    requires { at < length s.now }
    ensures { Spans s.now at result }
{
    let n = line_feed(s, at);
    if s.len() <= n {
        return Span { stop: n, next: n };
    }
    Span {
        stop: before_end(s, at, n),
        next: n + 1,
    }
}

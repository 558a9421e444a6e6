// The lines of an office calendar: where they end, without their folds, and the words in them.
#![tactic(auto)]

ghost use Rattle.std.specs.Prelude.{◌≡◌, ◌++◌, ◌≤◌, length, drop};
ghost use Rattle.freebusy_lines.specs.Bytes.{spells, is_name_byte};
ghost use Rattle.freebusy_lines.specs.Lines.{is_blank, unfolded, sent_lines};
ghost use Rattle.std.specs.Iterator.{YieldsFirstBy, item_count};
ghost use Rattle.freebusy_lines.specs.inner.Reading.{fold_first, end_first, is_folded, first_sent};
ghost use Rattle.freebusy_lines.specs.inner.Sent.{as_sent, lines_left};

// A space or a tab.
fn is_blank(x: u8) -> bool
    ensures { result ≡ is_blank x }
{
    x == b' ' || x == b'\t'
}

// A fold comes first.
#[tactic(auto, using(crate::proofs::FoldLaws::fold_is))]
fn is_fold(s: &[u8]) -> bool
    ensures { result ≡ fold_first s.now }
{
    match s {
        [b'\r', b'\n', x, ..] => is_blank(*x),
        _ => false,
    }
}

// The end of a line comes first.
#[tactic(auto, using(crate::proofs::SentLaws::end_is))]
fn is_line_end(s: &[u8]) -> bool
    ensures { result ≡ end_first s.now }
{
    match s {
        [b'\r', b'\n', x, ..] => !is_blank(*x),
        [b'\r', b'\n'] => true,
        _ => false,
    }
}

// The first line of a text as it is sent, without its end. By place, and not by `windows`: a line may end with the text, two bytes from its end. Its byte is
// looked at first, since few are a carriage return: each text is walked three times.
#[tactic(auto, using(crate::proofs::SentLaws::sendings))]
pub fn first_line(s: &[u8]) -> &[u8]
    ensures { result.now ≡ first_sent s.now }
{
    for i in 0..s.len() {
        if s[i] == b'\r' && is_line_end(&s[i..]) {
            return &s[..i];
        }
    }
    s
}

// A line as it is sent, folds and all, and whether its CRLF stands.
#[derive(Clone, Copy)]
pub struct SentLine<'a> {
    pub bytes: &'a [u8],
    pub ended: bool,
}

// The lines of a text as they are sent.
#[derive(Drop)]
pub struct SentLines<'a> {
    rest: &'a [u8],
}

impl<'a> SentLines<'a> {
    pub fn new(text: &'a [u8]) -> SentLines<'a>
        ensures { lines_left result ≡ sent_lines text.now }
    {
        SentLines { rest: text }
    }
}

impl<'a> Iterator for SentLines<'a> {
    type Item = SentLine<'a>;

    ghost next_gives = { YieldsFirstBy as_sent lines_left };

    ghost remaining = { item_count lines_left };

    fn next(&mut self) -> Option<SentLine<'a>> {
        if self.rest.is_empty() {
            return None;
        }
        let bytes = first_line(self.rest);
        let ended = bytes.len() < self.rest.len();
        let next = (bytes.len() + 2).min(self.rest.len());
        self.rest = &self.rest[next..];
        Some(SentLine { bytes, ended })
    }
}

// Whether a line holds a fold; one that holds none is as it is unfolded.
pub fn has_fold(s: &[u8]) -> bool
    ensures { result ≡ is_folded s.now }
{
    s.windows(3).any(is_fold)
}

// The line without its folds goes to the front of `to`, and leaves what lies after it; how many bytes it has.
pub fn unfold_into(s: &[u8], to: &mut [u8]) -> usize
    requires { length s.now ≤ length to.old }
    ensures value { result ≡ length (unfolded s.now) }
    ensures to_after { to.new ≡ unfolded s.now ++ drop (length (unfolded s.now)) to.old }
{
    let mut rest = s;
    let mut n: usize = 0;
    // A turn takes one byte or the three of a fold, so that no `for` fits; and n counts the bytes that it wrote, which are the answer, so that a `for` over the
    // bytes that stay would count beside it all the same.
    while let [first, others @ ..] = rest {
        if is_fold(rest) {
            rest = &rest[3..];
        } else {
            to[n] = *first;
            n += 1;
            rest = others;
        }
    }
    n
}

// The bytes spell the word, which is given in capitals, letters in either case. Not by `eq_ignore_ascii_case`: that takes a small letter in the word as well,
// and the definition's `spells` does not.
pub fn is_word(word: &[u8], s: &[u8]) -> bool
    ensures { result ≡ spells word.now s.now }
{
    word.len() == s.len() && word.iter().zip(s).all(|(w, x)| letters::is_letter(*w, *x))
}

// A byte of a name: a letter, a digit, a hyphen.
pub fn is_name_byte(x: u8) -> bool
    ensures { result ≡ is_name_byte x }
{
    letters::capital_of(x).is_ascii_uppercase() || letters::is_digit(x) || x == b'-'
}

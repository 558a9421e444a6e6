//! The parts of a line that quotes keep together: a byte within quotes parts nothing.

ghost use Rattle.std.specs.Prelude.{◌≡◌, ◌≢◌, MatchOption};
ghost use Rattle.std.specs.Iterator.{YieldsFirstBy, item_count};
ghost use Rattle.freebusy_lines.specs.Bytes.{QUOTE};
ghost use Rattle.freebusy_property.specs.Quotes.{until_unquoted, after_unquoted, unquoted_parts};
ghost use Rattle.freebusy_property.specs.inner.Left.{unquoted_left};

use freebusy_characters::QUOTE;

// What stands before the first `stop` outside quotes, and what follows it. Where there is none, all of the text stands before it.
pub(crate) fn split_unquoted(s: &[u8], stop: u8) -> (&[u8], Option<&[u8]>)
    ensures before { result.0.now ≡ until_unquoted stop s.now }
    ensures after { MatchOption result.1 (after_unquoted stop s.now ≡ None) (λ r. after_unquoted stop s.now ≡ Some r.now) }
{
    let mut quoted = false;
    for (i, x) in s.iter().enumerate() {
        if !quoted && *x == stop {
            return (&s[..i], Some(&s[i + 1..]));
        }
        if *x == QUOTE {
            quoted = !quoted;
        }
    }
    (s, None)
}

// The parts of a text between the bytes `stop` outside quotes. Beside text_fields `Parts`, which knows no quotes: one for both would take the split as a type
// parameter, and a law of what each split leaves.
#[derive(Drop)]
pub(crate) struct UnquotedParts<'a> {
    rest: Option<&'a [u8]>,
    stop: u8,
    ghost no_quote: { stop ≢ 34 },
}

impl<'a> UnquotedParts<'a> {
    pub(crate) fn new(text: &'a [u8], stop: u8) -> UnquotedParts<'a>
        requires { stop ≢ 34 }
        ensures { unquoted_left result.stop result.rest ≡ unquoted_parts stop text.now }
    {
        UnquotedParts {
            rest: Some(text),
            stop,
        }
    }
}

impl<'a> Iterator for UnquotedParts<'a> {
    type Item = &'a [u8];

    ghost next_gives = { YieldsFirstBy (λ part. part.now) (λ p. unquoted_left p.stop p.rest) };

    ghost remaining = { item_count (λ p. unquoted_left p.stop p.rest) };

    #[tactic(auto, using(crate::proofs::QuoteLaws::parts_turn))]
    fn next(&mut self) -> Option<&'a [u8]> {
        let (part, rest) = split_unquoted(self.rest?, self.stop);
        self.rest = rest;
        Some(part)
    }
}

// The value of a parameter: characters of one byte or, above 127, of more, with quotes around them or without.
#![tactic(auto)]

ghost use Rattle.std.specs.Prelude.{◌≡◌, ℕ, Bool, ◌<◌, ◌≤◌, length, MatchOption, ⊤};
ghost use Rattle.freebusy_characters.specs.Utf8.{utf8_tail, utf8_2, starts_three, utf8_3, starts_four, utf8_4, non_us_ascii, characters};
ghost use Rattle.freebusy_characters.specs.ParamValue.{qsafe_char, safe_char, quoted_string, param_value};

// DQUOTE of the RFC.
pub const QUOTE: u8 = b'"';

fn is_tail(x: u8) -> bool
    ensures { result ≡ utf8_tail x }
{
    matches!(x, 0x80..=0xbf)
}

#[tactic(auto, unfolding(crate::specs::Utf8::utf8_2))]
fn is_utf8_2(a: u8, b: u8) -> bool
    ensures { result ≡ utf8_2 a b }
{
    matches!(a, 0xc2..=0xdf) && is_tail(b)
}

// The first two bytes of three: no overlong form, no surrogate. This and `starts_four` are two rules of the RFC's grammar, which share no byte: one test of
// both would be handed all that stands in each.
#[tactic(auto, using(std::proofs::lemmas::Bool::Decides::nat_tests), unfolding(crate::specs::Utf8::starts_three))]
fn starts_three(a: u8, b: u8) -> bool
    ensures { result ≡ starts_three a b }
{
    match a {
        0xe0 => matches!(b, 0xa0..=0xbf),
        0xed => matches!(b, 0x80..=0x9f),
        0xe1..=0xef => is_tail(b),
        _ => false,
    }
}

#[tactic(auto, unfolding(crate::specs::Utf8::utf8_3))]
fn is_utf8_3(a: u8, b: u8, c: u8) -> bool
    ensures { result ≡ utf8_3 a b c }
{
    starts_three(a, b) && is_tail(c)
}

// The first two bytes of four: no overlong form, nothing above U+10FFFF.
#[tactic(auto, using(std::proofs::lemmas::Bool::Decides::nat_tests), unfolding(crate::specs::Utf8::starts_four))]
fn starts_four(a: u8, b: u8) -> bool
    ensures { result ≡ starts_four a b }
{
    match a {
        0xf0 => matches!(b, 0x90..=0xbf),
        0xf4 => matches!(b, 0x80..=0x8f),
        0xf1..=0xf3 => is_tail(b),
        _ => false,
    }
}

#[tactic(auto, unfolding(crate::specs::Utf8::utf8_4))]
fn is_utf8_4(a: u8, b: u8, c: u8, d: u8) -> bool
    ensures { result ≡ utf8_4 a b c d }
{
    starts_four(a, b) && is_tail(c) && is_tail(d)
}

// Of how many bytes the character above 127 is that comes first.
#[tactic(auto, using(crate::proofs::ByteLaws::short), unfolding(crate::specs::Utf8::non_us_ascii))]
fn non_us_ascii(s: &[u8]) -> Option<usize>
    ensures is { result ≡ non_us_ascii s.now }
    ensures within { MatchOption result ⊤ (λ n. (0 < n) × (n ≤ length s.now)) }
{
    match s {
        [a, b, ..] if is_utf8_2(*a, *b) => Some(2),
        [a, b, c, ..] if is_utf8_3(*a, *b, *c) => Some(3),
        [a, b, c, d, ..] if is_utf8_4(*a, *b, *c, *d) => Some(4),
        _ => None,
    }
}

#[tactic(auto, using(std::proofs::lemmas::Bool::Decides::nat_tests), unfolding(crate::specs::ParamValue::qsafe_char))]
fn is_qsafe(x: u8) -> bool
    ensures { result ≡ qsafe_char x }
{
    x == b'\t' || (matches!(x, b' '..=b'~') && x != QUOTE)
}

#[tactic(auto, using(std::proofs::lemmas::Bool::Decides::nat_tests), unfolding(crate::specs::ParamValue::safe_char, crate::specs::ParamValue::qsafe_char))]
fn is_safe(x: u8) -> bool
    ensures { result ≡ safe_char x }
{
    is_qsafe(x) && !matches!(x, b',' | b':' | b';')
}

// The bytes are characters, of which those of one byte pass the test.
#[tactic(auto, using(crate::proofs::TextLaws::texts))]
fn are_characters<F: Fn(u8) -> bool>(is_one_byte: F, s: &[u8]) -> bool
    ghost test: { ℕ → Bool }
    requires callable { F.IsAlwaysCallable is_one_byte }
    requires means { (x : ℕ) (r : Bool) → F.post is_one_byte x r → r ≡ test x }
    ensures { result ≡ characters test s.now }
{
    let mut rest = s;
    // A character has one byte or more, so the walk is over what is left.
    while let [first, others @ ..] = rest {
        if is_one_byte(*first) {
            rest = others;
        } else if let Some(n) = non_us_ascii(rest) {
            rest = &rest[n..];
        } else {
            return false;
        }
    }
    true
}

// A quote, characters, and the quote that ends the value.
#[tactic(auto, using(crate::proofs::QuotedLaws::quoted))]
fn is_quoted_string(v: &[u8]) -> bool
    ensures { result ≡ quoted_string v.now }
{
    let [QUOTE, rest @ ..] = v else {
        return false;
    };
    let text = text_fields::first_part(rest, QUOTE);
    text.len() + 1 == rest.len() && are_characters(is_qsafe, text)
}

// A value of a parameter.
#[tactic(auto, unfolding(crate::specs::ParamValue::param_value, crate::specs::ParamValue::paramtext))]
pub fn is_param_value(v: &[u8]) -> bool
    ensures { result ≡ param_value v.now }
{
    are_characters(is_safe, v) || is_quoted_string(v)
}

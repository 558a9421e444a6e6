// The line FREEBUSY of an office calendar, unfolded: whether it is one, whether it keeps to the grammar, whether it says FREE, and its value.
#![tactic(auto)]

mod quotes;

ghost use Rattle.std.specs.Prelude.{◌≡◌, MatchOption};
ghost use Rattle.loops.specs.Lists.{any_of};
ghost use Rattle.freebusy_lines.specs.Bytes.{SEMICOLON, EQUALS, is_name_byte, iana_token, leading, after};
ghost use Rattle.freebusy_property.specs.Quotes.{unquoted_parts};
ghost use Rattle.freebusy_property.specs.Property.{param_name, param_values, param, is_fbtype, one_fbparam, fbparam, named, fbvalue, freebusy, is_freebusy, says_free, is_free, value_of};

use quotes::{UnquotedParts, split_unquoted};
use text_fields::Parts;

fn is_token(s: &[u8]) -> bool
    ensures { result ≡ iana_token s.now }
{
    !s.is_empty() && s.iter().all(|x| freebusy_lines::is_name_byte(*x))
}

// Values parted by commas.
fn are_values(v: &[u8]) -> bool
    ensures { result ≡ param_values v.now }
{
    UnquotedParts::new(v, b',').all(freebusy_characters::is_param_value)
}

// The name of a parameter, and what follows its equals sign.
fn split_name(p: &[u8]) -> (&[u8], Option<&[u8]>)
    ensures name { result.0.now ≡ param_name p.now }
    ensures value { MatchOption result.1 (after EQUALS p.now ≡ None) (λ v. after EQUALS p.now ≡ Some v.now) }
{
    text_fields::split_at_first(p, b'=')
}

#[tactic(auto, unfolding(crate::specs::Property::param))]
fn is_param(p: &[u8]) -> bool
    ensures { result ≡ param p.now }
{
    let (name, value) = split_name(p);
    is_token(name) && value.is_some_and(are_values)
}

#[tactic(auto, unfolding(crate::specs::Property::is_fbtype))]
fn is_fbtype(p: &[u8]) -> bool
    ensures { result ≡ is_fbtype p.now }
{
    freebusy_lines::is_word(b"FBTYPE", text_fields::first_part(p, b'='))
}

// FBTYPE with one bare token, or another parameter.
#[tactic(auto, unfolding(crate::specs::Property::one_fbparam, crate::specs::Property::fbtypeparam, crate::specs::Property::other_param))]
fn is_fbparam(p: &[u8]) -> bool
    ensures { result ≡ one_fbparam p.now }
{
    if !is_fbtype(p) {
        return is_param(p);
    }
    split_name(p).1.is_some_and(is_token)
}

// Parameters parted by semicolons, FBTYPE once at most.
#[tactic(auto, using(crate::proofs::PartLaws::types))]
fn are_fbparams(s: &[u8]) -> bool
    ensures { result ≡ fbparam (unquoted_parts SEMICOLON s.now) }
{
    let mut typed = false;
    for p in UnquotedParts::new(s, b';') {
        if !is_fbparam(p) {
            return false;
        }
        if is_fbtype(p) {
            if typed {
                return false;
            }
            typed = true;
        }
    }
    true
}

// The name FREEBUSY and its parameters.
#[tactic(auto, unfolding(crate::specs::Property::named, crate::specs::Property::params_in, crate::specs::Property::fbparam, loops::specs::Lists::all_of, loops::specs::Lists::count_of))]
fn is_named(head: &[u8]) -> bool
    ensures { result ≡ named head.now }
{
    let (name, params) = split_unquoted(head, b';');
    freebusy_lines::is_word(b"FREEBUSY", name) && params.is_none_or(are_fbparams)
}

// Periods parted by commas.
fn are_periods(v: &[u8]) -> bool
    ensures { result ≡ fbvalue v.now }
{
    Parts::new(v, b',').all(freebusy_periods::is_period)
}

// The line keeps to the grammar.
#[tactic(auto, unfolding(crate::specs::Property::freebusy))]
pub fn is_property(l: &[u8]) -> bool
    ensures { result ≡ freebusy l.now }
{
    let (head, value) = split_unquoted(l, b':');
    is_named(head) && value.is_some_and(are_periods)
}

// The leading letters, digits and hyphens.
fn leading_name(l: &[u8]) -> &[u8]
    ensures { result.now ≡ leading is_name_byte l.now }
{
    let end = l
        .iter()
        .position(|x| !freebusy_lines::is_name_byte(*x))
        .unwrap_or(l.len());
    &l[..end]
}

// The line has the name FREEBUSY.
#[tactic(auto, unfolding(crate::specs::Property::is_freebusy))]
pub fn is_freebusy(l: &[u8]) -> bool
    ensures { result ≡ is_freebusy l.now }
{
    freebusy_lines::is_word(b"FREEBUSY", leading_name(l))
}

// FBTYPE=FREE.
#[tactic(auto, unfolding(crate::specs::Property::says_free))]
fn says_free(p: &[u8]) -> bool
    ensures { result ≡ says_free p.now }
{
    is_fbtype(p)
        && split_name(p)
            .1
            .is_some_and(|v| freebusy_lines::is_word(b"FREE", v))
}

// One of the parameters is FBTYPE=FREE.
fn any_free(s: &[u8]) -> bool
    ensures { result ≡ any_of says_free (unquoted_parts SEMICOLON s.now) }
{
    UnquotedParts::new(s, b';').any(says_free)
}

// The line says that its periods are free.
#[tactic(auto, unfolding(crate::specs::Property::is_free, crate::specs::Property::params_in, loops::specs::Lists::any_of))]
pub fn is_free(l: &[u8]) -> bool
    ensures { result ≡ is_free l.now }
{
    let (head, _) = split_unquoted(l, b':');
    split_unquoted(head, b';').1.is_some_and(any_free)
}

// What follows the first colon outside quotes: the periods, parted by commas.
#[tactic(auto, unfolding(crate::specs::Property::value_of))]
pub fn value_of(l: &[u8]) -> &[u8]
    ensures { result.now ≡ value_of l.now }
{
    split_unquoted(l, b':').1.unwrap_or(&[])
}

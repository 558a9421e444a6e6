// The components VFREEBUSY of an office calendar, by its unfolded lines: which is open, and the first line that is against the rules.
#![tactic(auto)]

ghost use Rattle.std.specs.Prelude.{◌≡◌, ◌≤◌, length, None, IfSome};
ghost use Rattle.freebusy_lines.specs.Lines.{line, unfolded, lines};
ghost use Rattle.freebusy_components.specs.Components.{open_after, against, wrong_at, least, wrong_from};
ghost use Rattle.freebusy_components.specs.inner.Room.{front_or, after_line, space_after};

use freebusy_lines::SentLines;

// What the lines so far come to: where the open component begins, and the least place against the rules.
#[derive(Clone, Copy)]
struct Walked {
    begun: Option<usize>,
    wrong: Option<usize>,
}

// The lesser of two places, where there is one. Not Option's own `min`: None is below every place there, and here it is no place. derived_times `earlier` is
// the same line of the library; a crate below both layers for one line would be more.
fn lesser(a: Option<usize>, b: Option<usize>) -> Option<usize>
    ensures { result ≡ least a b }
{
    a.into_iter().chain(b).min()
}

// What is open after a line.
#[tactic(auto, unfolding(crate::specs::Components::is_begin, crate::specs::Components::is_end))]
pub fn open_after(begun: Option<usize>, p: usize, l: &[u8]) -> Option<usize>
    ensures { result ≡ open_after begun p l.now }
{
    match begun {
        None => freebusy_lines::is_word(b"BEGIN:VFREEBUSY", l).then_some(p),
        Some(_) if freebusy_lines::is_word(b"END:VFREEBUSY", l) => None,
        Some(q) => Some(q),
    }
}

#[tactic(auto, unfolding(crate::specs::Components::is_begin, crate::specs::Components::is_end))]
fn is_against(begun: Option<usize>, l: &[u8]) -> bool
    ensures { result ≡ against begun l.now }
{
    match begun {
        None => freebusy_lines::is_word(b"END:VFREEBUSY", l),
        Some(_) => {
            freebusy_lines::is_word(b"BEGIN:VFREEBUSY", l)
                || (freebusy_property::is_freebusy(l) && !freebusy_property::is_property(l))
        }
    }
}

#[tactic(auto, unfolding(crate::specs::Components::wrong_at))]
fn wrong_at(begun: Option<usize>, p: usize, l: &[u8], ended: bool) -> Option<usize>
    ensures { result ≡ wrong_at begun p (line l.now ended) }
{
    (!ended || is_against(begun, l)).then_some(p)
}

impl Walked {
    // One line further.
    fn past(self, p: usize, l: &[u8], ended: bool) -> Walked
        ensures { (result.begun ≡ open_after self.begun p l.now) × (result.wrong ≡ least self.wrong (wrong_at self.begun p (line l.now ended))) }
    {
        Walked {
            begun: open_after(self.begun, p, l),
            wrong: lesser(self.wrong, wrong_at(self.begun, p, l, ended)),
        }
    }
}

// Unfolds a line at the front of the lent space, and says how many bytes it has there. A line that has no fold is read where it stands.
#[tactic(auto, using(freebusy_lines::proofs::LineLaws::no_fold))]
pub fn unfold(sent: &[u8], space: &mut [u8]) -> Option<usize>
    requires { length sent.now ≤ length space.old }
    ensures value { front_or result space.new sent.now ≡ unfolded sent.now }
    ensures within { IfSome result (λ n. n ≤ length space.new) }
    ensures space_after { space.new ≡ after_line sent.now space.old }
{
    if !freebusy_lines::has_fold(sent) {
        return None;
    }
    Some(freebusy_lines::unfold_into(sent, space))
}

// The first n bytes of the space, or the line where there is no n.
pub fn front_or<'a>(n: Option<usize>, space: &'a [u8], sent: &'a [u8]) -> &'a [u8]
    requires { IfSome n (λ n. n ≤ length space.now) }
    ensures { result.now ≡ front_or n space.now sent.now }
{
    match n {
        Some(n) => &space[..n],
        None => sent,
    }
}

// The least place against the rules. Lines are unfolded in the lent space, which is asked to hold the text: no line is longer.
pub fn first_wrong(text: &[u8], space: &mut [u8]) -> Option<usize>
    requires { length text.now ≤ length space.old }
    ensures result_value { result ≡ wrong_from None 0 (lines text.now) }
    ensures space_after { space.new ≡ space_after text.now space.old }
{
    let mut w = Walked {
        begun: None,
        wrong: None,
    };
    for (p, sent) in SentLines::new(text).enumerate() {
        let n = unfold(sent.bytes, space);
        w = w.past(p, front_or(n, space, sent.bytes), sent.ended);
    }
    lesser(w.wrong, w.begun)
}

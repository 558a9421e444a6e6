// Bytes as digits, and as letters in either case.
#![tactic(auto)]

ghost use Rattle.std.specs.Prelude.{◌≡◌, ◌-◌, ◌<◌};
ghost use Rattle.text_fields.specs.Spelling.{is_digit};
ghost use Rattle.letters.specs.Letters.{capital, is_letter};

// std's tests of bytes, in the words of the grammar.
pub fn is_digit(x: u8) -> bool
    ensures { result ≡ is_digit x }
{
    x.is_ascii_digit()
}

// The number that a digit spells; 0 for bytes below the digits.
pub fn digit_of(x: u8) -> u64
    ensures { (result ≡ x - 48) × (result < 256) }
{
    u64::from(x.saturating_sub(b'0'))
}

// A letter in either case as its capital; other bytes as they are.
#[tactic(auto, unfolding(crate::specs::Letters::capital))]
pub fn capital_of(x: u8) -> u8
    ensures { result ≡ capital x }
{
    x.to_ascii_uppercase()
}

// The letter c, given as a capital, in either case.
pub fn is_letter(c: u8, x: u8) -> bool
    ensures { result ≡ is_letter c x }
{
    capital_of(x) == c
}

// A line of a text: its fields are read to the ten numbers of a row, or it is refused with a reason.
#![tactic(auto)]

ghost use Rattle.std.specs.Prelude.{◌≡◌, map, ◌+◌, ◌-◌, ◌^◌, ◌<◌, pos, length, set, replicate};
ghost use Rattle.std.proofs.lemmas.List.Edits.{sets};
ghost use Rattle.text_line.specs.Line.{fields_of, spelled, value_of, by_fields, line_of, row_of};

use refusals::Reason;
use rows::Kind;
use text_fields::Parts;

// The fields of a line: whether all are spelled right, and how many there are. No Option: the count is wanted of a misspelt line too.
#[derive(Clone, Copy)]
struct Fields {
    pub good: bool,
    pub count: usize,
}

// Stores a number where it lies within the rows.
fn store(rows: &mut [i64], at: usize, v: i64)
    ensures { rows.new ≡ set rows.old at v }
{
    if at < rows.len() {
        rows[at] = v;
    }
}

// The numbers of a line's fields go to the rows from `base` on, as far as they lie within the rows.
fn read_fields(line: &[u8], rows: &mut [i64], base: usize) -> Fields
    requires { base + length line.now < 2 ^ 32 }
    ensures good_value { (result.good ≡ spelled (fields_of line.now)) × (result.count ≡ length (fields_of line.now)) }
    ensures rows_after { rows.new ≡ sets rows.old base (map value_of (fields_of line.now)) }
{
    let mut good = true;
    // Counted beside the `for`, and not by `enumerate`: the count is wanted after the last field.
    let mut count: usize = 0;
    for field in Parts::new(line, b',') {
        let number = text_fields::read_number(field);
        good = good && number.is_some();
        store(rows, base + count, number.unwrap_or(0));
        count += 1;
    }
    Fields { good, count }
}

// What becomes of a line of n fields, good where all are spelled right, the first of them the kind's.
fn judge_line(kind: &[u8], good: bool, n: usize) -> Result<(), Reason>
    ensures { result ≡ by_fields good kind.now n }
{
    if !good || kind.is_empty() {
        return Err(Reason::Misspelt);
    }
    let number = rows::nat(text_fields::read_number(kind).unwrap_or(0));
    let Ok(kind) = Kind::try_from(number) else {
        return Err(Reason::UnknownKind);
    };
    if rows::has_width(kind.number(), n) {
        Ok(())
    } else {
        Err(Reason::Misspelt)
    }
}

// Zeros from one place of the rows to another. Not by `fill`: what of the rows lies between the two places would have to be cut out first.
fn fill_zeros(rows: &mut [i64], from: usize, to: usize)
    ensures { rows.new ≡ sets rows.old from (replicate (to - from) (pos 0)) }
{
    for i in from..to {
        store(rows, i, 0);
    }
}

// Reads a line to the ten numbers of the rows from `base` on, as far as they lie within the rows.
pub fn read_line(line: &[u8], rows: &mut [i64], base: usize) -> Result<(), Reason>
    requires { base + length line.now < 2 ^ 32 }
    ensures value { result ≡ line_of line.now }
    ensures rows_after { rows.new ≡ sets rows.old base (row_of line.now) }
{
    let found = read_fields(line, rows, base);
    let n = found.count;
    fill_zeros(rows, base + n, base + 10);
    judge_line(text_fields::first_part(line, b','), found.good, n)
}

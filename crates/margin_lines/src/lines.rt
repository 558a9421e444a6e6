// Margins, and the lines of three numbers that they are written as.
ghost use Rattle.std.specs.Prelude.{◌≡◌, ◌<◌, [], ◌∷◌};
ghost use Rattle.margin_lines.specs.inner.Sink.{sink, emit_margins};

// What a margin is of, each with its number.
#[derive(Clone, Copy, PartialEq, Eq)]
pub enum MarginKind {
    Task = 1,
    Resource = 2,
}

impl MarginKind {
    ghost use Rattle.margin_lines.specs.Margins.{kind_of_line};

    // The number that a line has for it.
    pub fn number(self) -> u8
        ensures { result ≡ kind_of_line self }
    {
        self as u8
    }
}

// A margin: what it is of, of which one, and how much; below zero where the task is late or the resource overloaded.
#[derive(Clone, Copy)]
pub struct Margin {
    // The number, not the kind: margins and findings are compared (specs/Findings), and printed, by the numbers of their lines.
    pub of: u8,
    pub id: u64,
    pub margin: i64,
}

impl Margin {
    ghost use Rattle.margin_lines.specs.Margins.{kind_of_line, margin_of};

    pub fn of(kind: MarginKind, id: u64, margin: i64) -> Margin
        ensures { result ≡ margin_of (kind_of_line kind) id margin }
    {
        Margin {
            of: kind.number(),
            id,
            margin,
        }
    }
}

// One line more: written where the buffer holds it, and counted in any case.
fn put(out: &mut [i64], n: usize, m: Margin) -> usize
    requires { m.id < 9223372036854775808 }
    ensures { sink out.new result ≡ emit_margins (sink out.old n) (m ∷ []) }
{
    let line = [i64::from(m.of), m.id as i64, m.margin];
    line_buffer::put(out, n, &line)
}

// The lines so far: a lent buffer, and how many there are. `findings::Findings` has the same two fields; what both rest on is one (`line_buffer::put` and
// its page Told), and a type over it would still be wrapped by each, to be told of margins here and of violations there.
#[derive(Drop)]
pub struct Lines<'a> {
    out: &'a mut [i64],
    count: usize,
}

impl<'a> Lines<'a> {
    ghost use Rattle.margin_lines.specs.inner.Sink.{sink};
    ghost use Rattle.margin_lines.specs.inner.Told.{so_far, tell};

    // There is none yet.
    pub fn new(out: &'a mut [i64]) -> Lines<'a>
        ensures { so_far result ≡ record { name = out.entry.ghost_name; sink = sink out.old 0 } }
    {
        Lines { out, count: 0 }
    }

    pub fn put(&mut self, m: Margin)
        requires { m.id < 9223372036854775808 }
        ensures { so_far self.new ≡ tell (so_far self.old) (m ∷ []) }
    {
        self.count = put(self.out, self.count, m);
    }

    pub fn len(&self) -> usize
        ensures { result ≡ self.now.count }
    {
        self.count
    }
}

// Cases of a text, each `label: bytes;` on lines of its own, and bytes as document 01 writes them, "84 1 P(1,1) 69 84 1 69": a number is a byte, and in
// P(x,y), L(..) and R(..) the first two or four numbers are coordinates. #n stands for n points, (0,0) to (n-1,0).
#![tactic(auto)]

ghost use Rattle.std.specs.Prelude.{◌≡◌, ◌≢◌, ◌≤◌, ◌++◌, ◌∷◌, All, IfSome, IfNone, length};
ghost use Rattle.std.specs.Iterator.{at_most};

// What stands before the first b of a text, and what stands after it.
pub fn split_once(text: &[u8], b: u8) -> Option<(&[u8], &[u8])>
    ensures parted { IfSome result (λ parts. text.now ≡ parts.0.now ++ (b ∷ parts.1.now)) }
    ensures first { IfSome result (λ parts. All (λ c. c ≢ b) parts.0.now) }
    ensures absent { IfNone result (All (λ c. c ≢ b) text.now) }
{
    let at = text.iter().position(|c| *c == b)?;
    Some((&text[..at], &text[at + 1..]))
}

// A label ends at its colon, what it labels at its semicolon, and the next case begins after the line end. The text's end stands for what is missing.
#[derive(Clone, Copy)]
pub struct Case<'a> {
    pub label: &'a [u8],
    pub text: &'a [u8],
}

// The cases of a text, in order.
#[derive(Drop)]
pub struct Cases<'a>(pub &'a [u8]);

impl<'a> Iterator for Cases<'a> {
    type Item = Case<'a>;

    // No colon stands in a label, and no semicolon in what it labels.
    ghost next_gives = { λ s case t. IfSome case (λ c. All (λ b. b ≢ 58) c.label.now × All (λ b. b ≢ 59) c.text.now) };

    ghost remaining = { λ c. at_most (length c.0.now) };

    fn next(&mut self) -> Option<Case<'a>> {
        if self.0.is_empty() {
            return None;
        }
        let (label, after) = split_once(self.0, b':').unwrap_or((self.0, &[]));
        let (text, after) = split_once(after, b';').unwrap_or((after, &[]));
        self.0 = after.get(1..).unwrap_or(&[]);
        Some(Case { label, text })
    }
}

// What stood before a number.
#[derive(Clone, Copy)]
enum Mark {
    Plain,
    Minus,
    // The number is one of points.
    Count,
}

// The bytes written so far, and what is being read.
// Kept as the lent buffer and how far it is written: there is no heap, and std's Cursor over a slice answers each write with a Result that is never an error.
// Kept as a clause of each method that the length of out stays: a ghost field says what holds at one time, and cannot name the length at the call.
#[derive(Drop)]
struct Writer<'a> {
    out: &'a mut [u8],
    // How many bytes stand in out.
    at: usize,
    // How many coordinates the record still wants.
    coordinates: u8,
    mark: Mark,
    // The number that the digits so far make, if there was one.
    number: Option<u32>,
    ghost in_bounds: { at ≤ length out.now },
}

impl<'a> Writer<'a> {
    // A byte that finds no room is left out.
    fn put(&mut self, b: u8)
        ensures { length self.new.out.now ≡ length self.old.out.now }
    {
        if self.at < self.out.len() {
            self.out[self.at] = b;
            self.at += 1;
        }
    }

    fn put_word(&mut self, w: u32)
        ensures { length self.new.out.now ≡ length self.old.out.now }
    {
        for b in w.to_le_bytes() {
            self.put(b);
        }
    }

    fn put_points(&mut self, count: u32)
        ensures { length self.new.out.now ≡ length self.old.out.now }
    {
        for x in 0..count {
            self.put(b'P');
            self.put_word(x);
            self.put_word(0);
        }
    }

    // A number begins, after a mark.
    fn begin(&mut self, mark: Mark, coordinates: u8)
        ensures { length self.new.out.now ≡ length self.old.out.now }
    {
        self.mark = mark;
        self.number = None;
        self.coordinates = coordinates;
    }

    fn begin_record(&mut self, kind: u8, coordinates: u8)
        ensures { length self.new.out.now ≡ length self.old.out.now }
    {
        self.put(kind);
        self.begin(Mark::Plain, coordinates);
    }

    // A number of more than nine digits is that of its first nine.
    fn digit(&mut self, d: u8)
        ensures { length self.new.out.now ≡ length self.old.out.now }
    {
        let number = self.number.unwrap_or(0);
        self.number = Some(if number < 100_000_000 {
            number * 10 + u32::from(d)
        } else {
            number
        });
    }

    fn put_number(&mut self, number: u32)
        ensures { length self.new.out.now ≡ length self.old.out.now }
    {
        match self.mark {
            Mark::Count => self.put_points(number),
            _ if self.coordinates == 0 => self.put((number % 256) as u8),
            Mark::Minus => self.put_word(number.wrapping_neg()),
            Mark::Plain => self.put_word(number),
        }
    }

    // The number read so far has ended, if there was one.
    fn end(&mut self)
        ensures { length self.new.out.now ≡ length self.old.out.now }
    {
        if let Some(number) = self.number {
            self.put_number(number);
            self.coordinates = self.coordinates.saturating_sub(1);
        }
        self.begin(Mark::Plain, self.coordinates);
    }

    fn read(&mut self, c: u8)
        ensures { length self.new.out.now ≡ length self.old.out.now }
    {
        match c {
            b'0'..=b'9' => self.digit(c - b'0'),
            b'-' => self.begin(Mark::Minus, self.coordinates),
            b'#' => self.begin(Mark::Count, 0),
            b'P' => self.begin_record(c, 2),
            b'L' | b'R' => self.begin_record(c, 4),
            _ => self.end(),
        }
    }

    // The bytes written.
    fn finish(self) -> &'a [u8]
        ensures { length result.now ≤ length self.entry.out.now }
    {
        let Writer { out, at, .. } = self;
        &out[..at]
    }
}

// Writes the bytes that a text stands for at the start of out, as far as there is room, and answers them.
pub fn write<'a>(out: &'a mut [u8], text: &[u8]) -> &'a [u8]
    ensures within { length result.now ≤ length out.old }
{
    let mut writer = Writer {
        out,
        at: 0,
        coordinates: 0,
        mark: Mark::Plain,
        number: None,
    };
    for c in text {
        writer.read(*c);
    }
    writer.end();
    writer.finish()
}

// The text sink: a lent text and the place where what is added next goes, with bytes, hex and decimal numbers added to it. Bytes past the
// text's end are counted, as far as a usize goes, and not stored. The two public writers at the end put all or nothing.
ghost use Rattle.std.specs.Prelude.{◌≡◌, [], ◌∷◌, ◌<◌, length};
ghost use Rattle.slices.specs.Over.{over_if_room};
ghost use Rattle.lines.specs.Put.{place_after};
ghost use Rattle.lines.specs.Decimal.{decimal};
ghost use Rattle.lines.specs.Lines.{hex_digit, hex};
ghost use Rattle.lines.specs.Sink.{added};

// A lent text, and the place in it where the next byte goes.
#[derive(Drop)]
pub struct TextSink<'a> {
    pub(crate) text: &'a mut [u8],
    pub(crate) place: usize,
}

impl<'a> TextSink<'a> {
    // A sink over the text, from a place on. Nothing is added yet.
    pub fn new(text: &'a mut [u8], place: usize) -> TextSink<'a>
        ensures { (result.text ≡ text.entry) × (result.place ≡ place) }
    {
        TextSink { text, place }
    }

    // The place after what was added, as far as a usize goes.
    pub fn place(&self) -> usize
        ensures { result ≡ self.now.place }
    {
        self.place
    }

    // The place so many bytes on, or the last that a usize has.
    fn place_after(&self, count: usize) -> usize
        ensures { result ≡ place_after self.now.place count }
    {
        self.place.saturating_add(count)
    }

    // One byte. A place in the text has one after it.
    #[tactic(auto, unfolding(crate::specs::Sink::added))]
    fn put_byte(&mut self, byte: u8)
        ensures { self.new ≡ added self.old (byte ∷ []) }
    {
        if self.place < self.text.len() {
            self.text[self.place] = byte;
            self.place += 1;
            return;
        }
        self.place = self.place_after(1);
    }

    // A byte string, counted at once where no byte of it can be stored.
    #[tactic(auto, unfolding(crate::specs::Sink::added))]
    pub fn put(&mut self, bytes: &[u8])
        ensures { self.new ≡ added self.old bytes.now }
    {
        if self.text.len() <= self.place {
            self.place = self.place_after(bytes.len());
            return;
        }
        for &byte in bytes {
            self.put_byte(byte);
        }
    }

    // Bytes in hex; counted at once, as `put` does, where none can be stored.
    pub fn put_hex(&mut self, bytes: &[u8])
        ensures { self.new ≡ added self.old (hex bytes.now) }
    {
        if self.text.len() <= self.place {
            self.place = self.place_after(2 * bytes.len());
            return;
        }
        for &byte in bytes {
            self.put_byte(hex_digit(byte / 16));
            self.put_byte(hex_digit(byte % 16));
        }
    }

    // A number in decimal, by a sink of this call's own: one that a recursion is lent stays in memory, where each byte costs more.
    #[tactic(auto, unfolding(crate::specs::Sink::added))]
    pub fn put_decimal(&mut self, value: u32)
        ensures { self.new ≡ added self.old (decimal value) }
    {
        let mut sink = TextSink::new(self.text, self.place);
        sink.put_digits(value);
        self.place = sink.place;
    }

    // The digits of a number, the last one after those before it.
    #[tactic(auto, using(crate::proofs::Sinks::then, crate::proofs::Digits::decimal_small, crate::proofs::Digits::decimal_more))]
    fn put_digits(&mut self, value: u32)
        ensures { self.new ≡ added self.old (decimal value) }
    {
        if value < 10 {
            self.put_byte(b'0' + value as u8);
        } else {
            self.put_digits(value / 10);
            self.put_byte(b'0' + (value % 10) as u8);
        }
    }
}

// The character of a hex digit.
// Kept: hex and decimal by hand: a `fmt::Write` stops at a text that is full, where the sink counts on, and would be longer than these lines.
#[tactic(auto, unfolding(crate::specs::Lines::hex_digit))]
fn hex_digit(digit: u8) -> u8
    requires { digit < 16 }
    ensures { result ≡ hex_digit digit }
{
    match digit {
        0..=9 => b'0' + digit,
        _ => b'a' + (digit - 10),
    }
}

// Bytes in hex over a text from a place on, if there is room for them; else nothing changes.
pub fn write_hex(text: &mut [u8], at: usize, bytes: &[u8])
    ensures { text.new ≡ over_if_room text.old at (hex bytes.now) }
{
    if text.len() < at {
        return;
    }
    if (text.len() - at) / 2 < bytes.len() {
        return;
    }
    let mut sink = TextSink::new(text, at);
    sink.put_hex(bytes);
}

// A number in decimal over a text from a place on, if there is room for it; else nothing changes. Answers the count of its digits.
pub fn write_decimal(text: &mut [u8], at: usize, value: u32) -> usize
    ensures digits { result ≡ length (decimal value) }
    ensures text { text.new ≡ over_if_room text.old at (decimal value) }
{
    let mut counted = TextSink::new(&mut [], 0);
    counted.put_decimal(value);
    let digits = counted.place;
    let end = text.len();
    if end < at {
        return digits;
    }
    if end - at < digits {
        return digits;
    }
    let mut sink = TextSink::new(text, at);
    sink.put_decimal(value);
    digits
}

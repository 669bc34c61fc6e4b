// The desk program's lines, each from its parts: the number and the place of a refusal, the effect and the kind of an accepted job, the steps and the value of its run.
#![tactic(auto)]

ghost use Rattle.std.specs.Prelude.{◌≡◌, [], ◌∷◌, ◌<◌};
ghost use Rattle.order.specs.Effects.{of_word};
ghost use Rattle.output.specs.Lines.{decimal_in, hex_digit, hex, refused_line};
ghost use Rattle.format.specs.Text.{text_of, joined, sort_word, sort_words, accepted_as, done_as, spent_as, no_room_as};

use store::Kind;

// The room of a text: two lines.
pub const TEXT_BYTES: usize = 128;

// The first len of the bytes are written.
#[derive(Drop)]
pub struct Text {
    pub bytes: [u8; TEXT_BYTES],
    pub len: usize,
}

// A text with nothing written.
pub fn empty() -> Text
    ensures { text_of result ≡ [] }
{
    Text {
        bytes: [0u8; TEXT_BYTES],
        len: 0,
    }
}

impl Text {
    // One byte more, where there is room for it.
    fn push(mut self, b: u8) -> Text
        ensures { text_of result ≡ joined (text_of self) (b ∷ []) }
    {
        if self.len < TEXT_BYTES {
            self.bytes[self.len] = b;
            self.len += 1;
        }
        self
    }

    // The bytes of s, as far as there is room for them.
    fn put(mut self, s: &[u8]) -> Text
        ensures { text_of result ≡ joined (text_of self) s.now }
    {
        for &b in s {
            self = self.push(b);
        }
        self
    }

    // A number in decimal, of at most so many digits. The digits are written here: `write!` gives a result that nobody reads, and a text is cut off at its room.
    fn decimal(self, most: u8, n: u64) -> Text
        ensures { text_of result ≡ joined (text_of self) (decimal_in most n) }
    {
        if most == 0 {
            return self;
        }
        if n < 10 {
            return self.push(b'0' + n as u8);
        }
        let upper = self.decimal(most - 1, n / 10);
        upper.push(b'0' + (n % 10) as u8)
    }

    // So many hexadecimal digits, the last ones of a number.
    fn hex(self, digits: u8, n: u64) -> Text
        ensures { text_of result ≡ joined (text_of self) (hex digits n) }
    {
        if digits == 0 {
            return self;
        }
        let upper = self.hex(digits - 1, n / 16);
        upper.push(hex_digit((n % 16) as u8))
    }

    // The word of a kind.
    fn word(self, kind: Kind) -> Text
        ensures { text_of result ≡ joined (text_of self) (sort_word kind) }
    {
        match kind {
            Kind::Number => self.put(b"number"),
            Kind::Pair => self.put(b"pair"),
            Kind::Cell => self.put(b"cell"),
            Kind::Function => self.put(b"function"),
            Kind::Limit => self.put(b"limit"),
            Kind::Grant => self.put(b"grant"),
        }
    }

    // The word of a kind and, for a number, its value.
    fn value(self, kind: Kind, n: u32) -> Text
        ensures { text_of result ≡ joined (text_of self) (sort_words kind n) }
    {
        let t = self.word(kind);
        match kind {
            Kind::Number => t.push(b' ').decimal(20, u64::from(n)),
            _ => t,
        }
    }
}

// A digit of base 16, letters small.
fn hex_digit(d: u8) -> u8
    requires { d < 16 }
    ensures { result ≡ hex_digit d }
{
    if d < 10 { b'0' + d } else { b'a' - 10 + d }
}

// The line of a refused job.
pub fn refused(number: u8, place: u64) -> Text
    ensures { text_of result ≡ refused_line (record { number = number; place = place }) }
{
    let a = empty().put(b"refused ").decimal(20, u64::from(number));
    let b = a.put(b" at ").decimal(20, place);
    b.push(b'\n')
}

// The first line of an accepted job: its effect, and the kind of its type.
pub fn accepted(effect: u64, kind: Kind) -> Text
    ensures { text_of result ≡ accepted_as (of_word effect) kind }
{
    let a = empty().put(b"accepted ").hex(16, effect);
    a.push(b' ').word(kind).push(b'\n')
}

// The second line of a job that came to an end with a value.
pub fn done(steps: u64, kind: Kind, value: u32) -> Text
    ensures { text_of result ≡ done_as steps kind value }
{
    let a = empty().put(b"done ").decimal(20, steps);
    a.push(b' ').value(kind, value).push(b'\n')
}

// The second line of a job that took all the steps it was given.
pub fn spent(steps: u64) -> Text
    ensures { text_of result ≡ spent_as steps }
{
    empty().put(b"spent ").decimal(20, steps).push(b'\n')
}

// The second line of a job that needed a place that was not there.
pub fn no_room(steps: u64) -> Text
    ensures { text_of result ≡ no_room_as steps }
{
    empty().put(b"no room ").decimal(20, steps).push(b'\n')
}

// One text after the other, as far as there is room.
pub fn both(a: Text, b: Text) -> Text
    ensures { text_of result ≡ joined (text_of a) (text_of b) }
{
    a.put(&b.bytes[..b.len.min(TEXT_BYTES)])
}

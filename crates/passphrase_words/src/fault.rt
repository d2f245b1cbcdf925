//! Why words aren't read, and what a user is told of it. Pure. Begin with `WordsFault`; each
//! sentence is `fault_text` (`specs/Faults`).

ghost use Rattle.std.specs.Prelude.{◌≡◌, ◌++◌};
ghost use Rattle.passphrase_words.specs.Faults.{fault_text};

use arrayvec::ArrayVec;

/// Why words aren't read. Each names the word and the rule.
#[derive(Drop)]
pub enum WordsFault<'a> {
    /// A word that begins with a dash, or an option that has a value and takes none.
    Unknown(&'a str),
    /// An option without a value, or with one out of form: its name, and what it wants.
    Wants(&'a str, &'static str),
    /// An option that is given twice.
    Twice(&'a str),
    /// Two options that exclude one another.
    Apart(&'static str, &'static str),
    /// An option with more than an id.
    Alone(&'static str),
    /// An operand where all is forgotten.
    NoId,
    /// No operand, or too many.
    Operands,
    /// An id out of form.
    Id(&'a str),
    /// An id of more than 50 bytes.
    LongId(&'a str),
    /// Texts for which a request has no room: how many bytes it has with them, in decimal digits.
    LongTexts(ArrayVec<u8, 20>),
    /// Not the one text of an askpass.
    Askpass,
}

/// What a user is told, in parts that stand one behind another.
#[derive(Clone, Copy)]
pub struct Pieces<'a> {
    pub first: &'a [u8],
    pub second: &'a [u8],
    pub third: &'a [u8],
    pub last: &'a [u8],
}

impl WordsFault<'_> {
    /// What a user is told.
    pub fn pieces(&self) -> Pieces<'_>
        ensures { result.first.now ++ (result.second.now ++ (result.third.now ++ result.last.now))
            ≡ fault_text self.now }
    {
        match self {
            WordsFault::Unknown(word) => ended(b"there is no option ", word.as_bytes()),
            WordsFault::Wants(name, what) => Pieces {
                first: name.as_bytes(),
                second: b" wants ",
                third: what.as_bytes(),
                last: b"",
            },
            WordsFault::Twice(name) => ended(name.as_bytes(), b" is given twice"),
            WordsFault::Apart(name, other) => Pieces {
                first: name.as_bytes(),
                second: b" and ",
                third: other.as_bytes(),
                last: b" don't go together",
            },
            WordsFault::Alone(name) => ended(name.as_bytes(), b" wants an ID alone"),
            WordsFault::NoId => ended(b"", b"--forget-all wants no ID"),
            WordsFault::Operands => {
                ended(b"", b"an ID is wanted, and a DESCRIPTION may follow it")
            }
            WordsFault::Id(id) => ended(
                b"an ID is letters, digits and :._@/- (and neither X alone nor begins with -): ",
                id.as_bytes(),
            ),
            WordsFault::LongId(id) => ended(b"an ID has at most 50 bytes: ", id.as_bytes()),
            WordsFault::LongTexts(digits) => Pieces {
                first: b"",
                second: b"the texts are too long: with them the request has ",
                third: digits.as_slice(),
                last: b" bytes of at most 1000",
            },
            WordsFault::Askpass => {
                ended(b"", b"one text is wanted, and --forget may stand before it")
            },
        }
    }
}

/// Two parts alone.
fn ended<'a>(first: &'a [u8], last: &'a [u8]) -> Pieces<'a>
    ensures { result.first.now ++ (result.second.now ++ (result.third.now ++ result.last.now))
        ≡ first.now ++ last.now }
{
    Pieces {
        first,
        second: b"",
        third: b"",
        last,
    }
}

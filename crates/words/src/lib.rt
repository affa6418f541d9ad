// The words of requests, calendars and weekdays: read byte by byte, looked up in one table each, and named.
// `proofs/Claims.antt` is the page to read first.
#![tactic(auto)]

ghost use Rattle.std.specs.Prelude.{◌≡◌, [], option_map};
ghost use Rattle.words.specs.Names.{calendar_names, weekday_names, request_names, name_beside};
ghost use Rattle.words.specs.Words.{word_of};
ghost use Rattle.words.specs.Packed.{pushed, spells, number_packed, request_packed};
ghost use Rattle.words.specs.Tables.{name_in};
ghost use Rattle.words.specs.Inner.{letter_if_any, packed_in, named_in};

// The names of the calendars, each beside the number by which `calendars` and the C interface know it.
const CALENDARS: [(u64, &str); 16] = [
    (1, "egyptian"),
    (2, "armenian"),
    (3, "khwarizmian"),
    (4, "persian"),
    (5, "ethiopian"),
    (6, "coptic"),
    (7, "republican"),
    (8, "macedonian"),
    (9, "syrian"),
    (10, "julian"),
    (11, "gregorian"),
    (12, "islamic-a"),
    (13, "islamic-b"),
    (14, "bahai"),
    (15, "saka"),
    (18, "hebrew"),
];

// The same names as packed words, each beside its calendar: a word is found by comparing numbers, and no name is packed again.
const CALENDAR_WORDS: [(u64, u64); 16] = [
    (1, 180171187246), // egyptian
    (2, 54129009710), // armenian
    (3, 12691716736197678), // khwarizmian
    (4, 17367147566), // persian
    (5, 6193661092910), // ethiopian
    (6, 116936995), // coptic
    (7, 639388640119854), // republican
    (8, 458604947121198), // macedonian
    (9, 664347694), // syrian
    (10, 357966894), // julian
    (11, 8320676602926), // gregorian
    (12, 10561372065633), // islamic-a
    (13, 10561372065634), // islamic-b
    (14, 2138153), // bahai
    (15, 623969), // saka
    (18, 273762487), // hebrew
];

const WEEKDAYS: [(u64, &str); 7] = [
    (1, "monday"),
    (2, "tuesday"),
    (3, "wednesday"),
    (4, "thursday"),
    (5, "friday"),
    (6, "saturday"),
    (7, "sunday"),
];

const WEEKDAY_WORDS: [(u64, u64); 7] = [
    (1, 452399161), // monday
    (2, 22185349177), // tuesday
    (3, 25465336729657), // wednesday
    (4, 696508846137), // thursday
    (5, 220500025), // friday
    (6, 654602473529), // saturday
    (7, 660017209), // sunday
];

// What is asked.
#[derive(Clone, Copy, Debug, PartialEq, Eq)]
pub enum Request {
    Day,
    Date,
    Months,
    Easter,
    Frame,
    Fit,
    Unfold,
    Calendars,
    Answers,
    Help,
}

// Help has three names. (Nothing writes them, so they stand packed alone.)
const REQUEST_WORDS: [(Request, u64); 12] = [
    (Request::Day, 4153), // day
    (Request::Date, 132741), // date
    (Request::Months, 452415763), // months
    (Request::Easter, 169463986), // easter
    (Request::Frame, 6882725), // frame
    (Request::Fit, 6452), // fit
    (Request::Unfold, 719535492), // unfold
    (Request::Calendars, 3345962108499), // calendars
    (Request::Answers, 1564186195), // answers
    (Request::Help, 267664), // help
    (Request::Help, 934548880), // --help
    (Request::Help, 872), // -h
];

// What some bytes are, read so far. Packed, 5 bits a letter, and no Option: `word_of` and the claims on it are of this type, and say that packing loses nothing.
#[derive(Clone, Copy, Debug, PartialEq, Eq)]
pub enum Word {
    // So many letters, packed; 0 before the first.
    Letters(u64),
    // No word.
    Other,
}

// The number of a letter or hyphen, 1 to 27.
#[tactic(auto, unfolding(crate::specs::Words::small_letter, crate::specs::Text::lower))]
fn letter(byte: u8) -> Option<u8>
    ensures { result ≡ letter_if_any byte }
{
    match byte.to_ascii_lowercase() {
        small @ b'a'..=b'z' => Some(small - b'a' + 1),
        b'-' => Some(27),
        _ => None,
    }
}

impl Word {
    // Of no byte.
    #[tactic(auto, unfolding(crate::specs::Words::word_of, crate::specs::Words::all_letters, crate::specs::Words::packed_from))]
    pub fn new() -> Word
        ensures { result ≡ word_of [] }
    {
        Word::Letters(0)
    }

    // Goes on to the word with one more byte.
    #[tactic(auto, unfolding(crate::specs::Packed::pushed))]
    pub fn push(&mut self, byte: u8)
        ensures { self.new ≡ pushed self.old byte }
    {
        *self = match (*self, letter(byte)) {
            // At most 11 letters so far.
            (Word::Letters(packed), Some(next)) if packed < 1 << 55 => {
                Word::Letters(packed * 32 + u64::from(next))
            }
            _ => Word::Other,
        };
    }

    // Whether it is `all`.
    pub fn is_all(self) -> bool
        ensures { result ≡ spells self "all" }
    {
        Word::from(b"all".as_slice()) == self
    }
}

impl From<&[u8]> for Word {
    ghost from_gives = { λ text word. word ≡ word_of text.now };

    #[tactic(auto, using(crate::proofs::Packing::read_more))]
    fn from(text: &[u8]) -> Word
        ensures { result ≡ word_of text.now }
    {
        let mut word = Word::new();
        for &byte in text {
            word.push(byte);
        }
        word
    }
}

// What stands in a table beside a packed name.
#[tactic(auto, unfolding(crate::specs::Inner::packed_in))]
fn with_packed<T: Copy>(table: &[(T, u64)], packed: u64) -> Option<T>
    ensures { result ≡ packed_in table.now packed }
{
    table.iter().find(|row| row.1 == packed).map(|row| row.0)
}

// What stands in a table beside the name that a word is.
fn named<T: Copy>(table: &[(T, u64)], word: Word) -> Option<T>
    ensures { result ≡ named_in table.now word }
{
    match word {
        Word::Letters(packed) => with_packed(table, packed),
        Word::Other => None,
    }
}

// The first name beside a number in a table.
#[tactic(auto, unfolding(crate::specs::Tables::name_in))]
pub fn name_at(table: &[(u64, &'static str)], number: u64) -> Option<&'static str>
    ensures { option_map (λ name. name.now) result ≡ name_in table.now number }
{
    table.iter().find(|row| row.0 == number).map(|row| row.1)
}

// The calendar that a word names.
pub fn calendar(word: Word) -> Option<u64>
    ensures { result ≡ number_packed calendar_names word }
{
    named(&CALENDAR_WORDS, word)
}

// The weekday that a word names, 1 Monday to 7 Sunday.
pub fn weekday(word: Word) -> Option<u64>
    ensures { result ≡ number_packed weekday_names word }
{
    named(&WEEKDAY_WORDS, word)
}

// The request that a word names.
pub fn request_of(word: Word) -> Option<Request>
    ensures { result ≡ request_packed word }
{
    named(&REQUEST_WORDS, word)
}

// A calendar's name.
pub fn calendar_name(calendar: u64) -> Option<&'static str>
    ensures { option_map (λ name. name.now) result ≡ name_beside calendar_names calendar }
{
    name_at(&CALENDARS, calendar)
}

// A weekday's name.
pub fn weekday_name(weekday: u64) -> Option<&'static str>
    ensures { option_map (λ name. name.now) result ≡ name_beside weekday_names weekday }
{
    name_at(&WEEKDAYS, weekday)
}

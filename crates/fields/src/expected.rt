// What a line was expected to hold, and what stands there.
ghost use Rattle.std.specs.Prelude.{◌≡◌};
ghost use Rattle.fields.specs.Texts.{keyword_text};
ghost use Rattle.fields.specs.declared.expected.Fault.TheVariants.{Memory, Unreadable as Unread};

use std::alloc::AllocError;

// The words that name calls and their fields.
#[derive(Clone, Copy)]
pub enum Keyword {
    Part,
    Config,
    Page,
    Run,
    Number,
    Shelf,
    Fans,
    Supplies,
    Slots,
    Sensors,
    Thermostats,
    Lock,
    Alarm,
    Ids,
    Identity,
    Image,
    Outputs,
}

impl Keyword {
    // The text is handed out as a `&str`, and not by `Display`: `same` and the contracts compare words with it.
    pub fn text(self) -> &'static str
        ensures { result.now ≡ keyword_text self }
    {
        match self {
            Keyword::Part => "part",
            Keyword::Config => "config",
            Keyword::Page => "page",
            Keyword::Run => "run",
            Keyword::Number => "number",
            Keyword::Shelf => "shelf",
            Keyword::Fans => "fans",
            Keyword::Supplies => "supplies",
            Keyword::Slots => "slots",
            Keyword::Sensors => "sensors",
            Keyword::Thermostats => "thermostats",
            Keyword::Lock => "lock",
            Keyword::Alarm => "alarm",
            Keyword::Ids => "ids",
            Keyword::Identity => "identity",
            Keyword::Image => "image",
            Keyword::Outputs => "outputs",
        }
    }
}

// The calls that a program knows: questions for parts alone, or those about shelves too.
#[derive(Clone, Copy)]
pub enum Calls {
    Part,
    Shelves,
}

#[derive(Clone, Copy)]
pub enum Expected {
    // the name of a call, of these
    Call(Calls),
    Keyword(Keyword),
    // bytes in hexadecimal, or `-`
    Bytes,
    // a run of parts, by its name or its number
    Run,
    // a number up to this one
    Number(u32),
    // `plain` or `packed`
    Kind,
    // `yes` or `no`
    YesNo,
    // the 36 bytes of an identity
    Identity,
    // a shelf, made by an earlier line
    ShelfBefore,
    // the end of the line
    End,
}

// Why a line is no call: what was expected, and the word that stands there, if one does.
#[derive(Clone, Copy)]
pub struct Unreadable<'a> {
    pub expected: Expected,
    pub found: Option<&'a [u8]>,
}

// Why a line was not read.
#[derive(Clone, Copy)]
pub enum Fault<'a> {
    Memory,
    Unreadable(Unreadable<'a>),
}

impl<'a> From<AllocError> for Fault<'a> {
    ghost from_gives = { λ _ f. f ≡ Memory };

    fn from(_e: AllocError) -> Fault<'a> {
        Fault::Memory
    }
}

impl<'a> From<Unreadable<'a>> for Fault<'a> {
    ghost from_gives = { λ u f. f ≡ Unread u };

    fn from(u: Unreadable<'a>) -> Fault<'a> {
        Fault::Unreadable(u)
    }
}

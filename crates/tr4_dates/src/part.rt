//! The parts that a date's text is joined of, and what they say.
ghost use Rattle.std.specs.Prelude.{◌≡◌};
ghost use Rattle.tr4_dates.specs.Parts.{put as put_part};

/// The parts of a text.
#[derive(Clone, Copy)]
pub enum Part {
    /// The whole run of one or two digits, from 1 to 31.
    Day,
    /// The whole run of one or two digits, from 1 to 12.
    Month,
    /// The whole run of one, two or four digits.
    Year,
    /// One or more characters other than ASCII digits.
    Gap,
    /// Any number of these.
    Tail,
    /// One or more characters other than ASCII digits and letters, and what else separates in the language.
    Signs,
    /// Any number of characters other than ASCII digits and letters.
    Edge,
    /// What may stand right behind the digits of a day.
    Ordinal,
    /// The name of a month.
    Name,
}

/// The numbers that a text says.
#[derive(Clone, Copy)]
pub struct Fields {
    pub year: Option<u16>,
    pub month: Option<u16>,
    pub day: Option<u16>,
}

/// What a part says beside the others.
pub fn put(part: Part, own: Option<u16>, more: Fields) -> Fields
    ensures { result ≡ put_part part own more }
{
    match part {
        Part::Day => Fields { day: own, ..more },
        Part::Month | Part::Name => Fields { month: own, ..more },
        Part::Year => Fields { year: own, ..more },
        Part::Gap | Part::Tail | Part::Signs | Part::Edge | Part::Ordinal => more,
    }
}

ghost use Rattle.std.specs.Prelude.{◌≡◌, ◌<◌};
ghost use Rattle.wake_table.specs.Letters.{letter, letter_text, place, category_count, category_of};

/// A wake category, from super heavy to light: those of the RECAT-EU form.
#[derive(Clone, Copy, Debug, PartialEq, Eq, PartialOrd, Ord)]
pub enum Category {
    /// Super heavy.
    A,
    /// Upper heavy.
    B,
    /// Lower heavy.
    C,
    /// Upper medium.
    D,
    /// Lower medium.
    E,
    /// Light.
    F,
}

/// How many categories there are.
pub const CATEGORY_COUNT: usize = 6;

/// The categories in letter order.
pub const CATEGORIES: [Category; CATEGORY_COUNT] = [
    Category::A,
    Category::B,
    Category::C,
    Category::D,
    Category::E,
    Category::F,
];

impl Category {
    /// The category of a text that is the capital letter of one. None for any other text.
    pub fn read(text: &[u8]) -> Option<Category>
        ensures { result ≡ category_of text.now }
    {
        match text {
            [b'A'] => Some(Category::A),
            [b'B'] => Some(Category::B),
            [b'C'] => Some(Category::C),
            [b'D'] => Some(Category::D),
            [b'E'] => Some(Category::E),
            [b'F'] => Some(Category::F),
            _ => None,
        }
    }

    /// Its capital letter.
    pub fn letter(self) -> u8
        ensures { result ≡ letter self }
    {
        match self {
            Category::A => b'A',
            Category::B => b'B',
            Category::C => b'C',
            Category::D => b'D',
            Category::E => b'E',
            Category::F => b'F',
        }
    }

    /// That letter as a text.
    pub fn letter_text(self) -> &'static str
        ensures { result.now ≡ letter_text self }
    {
        match self {
            Category::A => "A",
            Category::B => "B",
            Category::C => "C",
            Category::D => "D",
            Category::E => "E",
            Category::F => "F",
        }
    }

    /// Its place in letter order, from 0.
    pub fn place(self) -> usize
        ensures value { result ≡ place self }
        ensures below { result < category_count }
    {
        self as usize
    }
}

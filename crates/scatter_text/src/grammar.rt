// The table of the format: its words, what stands after each, where it is allowed, and which place follows.
ghost use Rattle.std.specs.Prelude.{◌≡◌, MatchOption, Contains};
ghost use Rattle.scatter_text.specs.Grammar.{word_of, forms_of, slots_of, words_at, text_of_fixed, token_count, BeginsNowhere};

/// What a text may hold.
#[derive(Clone, Copy, Debug, PartialEq, Eq)]
pub enum TextMode {
    /// The initial lines of a diagram.
    Lines,
    /// The initial lines of a diagram, and asks after them.
    Asks,
}

/// The word that a line begins with.
#[derive(Clone, Copy)]
pub enum Keyword {
    Scatter,
    Vars,
    Line,
    Term,
    Ask,
    Settle,
    End,
}

/// A form of a line after its keyword.
#[derive(Clone, Copy)]
pub enum RowForm {
    Scatter,
    Vars,
    Line,
    Term,
    Theta,
    ThetaWithOrder,
    Product,
    ProductWithOrder,
    Settle,
    End,
}

/// A fixed word within a line.
#[derive(Clone, Copy)]
pub enum FixedWord {
    At,
    Theta,
    Product,
    Order,
}

/// What may stand in a line after its keyword.
#[derive(Clone, Copy)]
pub enum Slot {
    Fixed(FixedWord),
    Number,
    Coordinate,
    /// As many numbers as there are variables.
    Powers,
}

/// Where a line stands in a text.
#[derive(Clone, Copy)]
pub enum Place {
    Start,
    Version,
    Lines,
    Terms,
    Asks,
    After,
}

impl Keyword {
    /// The word as it is spelled.
    pub fn word(self) -> &'static [u8]
        ensures { result.now ≡ word_of self }
    {
        match self {
            Keyword::Scatter => b"scatter",
            Keyword::Vars => b"vars",
            Keyword::Line => b"line",
            Keyword::Term => b"term",
            Keyword::Ask => b"ask",
            Keyword::Settle => b"settle",
            Keyword::End => b"end",
        }
    }

    /// The forms of a line that begins with the word.
    pub fn forms(self) -> &'static [RowForm]
        ensures { result.now ≡ forms_of self }
    {
        match self {
            Keyword::Scatter => &[RowForm::Scatter],
            Keyword::Vars => &[RowForm::Vars],
            Keyword::Line => &[RowForm::Line],
            Keyword::Term => &[RowForm::Term],
            Keyword::Ask => &[
                RowForm::Theta,
                RowForm::ThetaWithOrder,
                RowForm::Product,
                RowForm::ProductWithOrder,
            ],
            Keyword::Settle => &[RowForm::Settle],
            Keyword::End => &[RowForm::End],
        }
    }
}

/// `N theta A B at X Y`
const THETA: &[Slot] = &[
    Slot::Number,
    Slot::Fixed(FixedWord::Theta),
    Slot::Number,
    Slot::Number,
    Slot::Fixed(FixedWord::At),
    Slot::Coordinate,
    Slot::Coordinate,
];

/// `N theta A B at X Y order L`
const THETA_WITH_ORDER: &[Slot] = &[
    Slot::Number,
    Slot::Fixed(FixedWord::Theta),
    Slot::Number,
    Slot::Number,
    Slot::Fixed(FixedWord::At),
    Slot::Coordinate,
    Slot::Coordinate,
    Slot::Fixed(FixedWord::Order),
    Slot::Number,
];

/// `N product A B C D at X Y`
const PRODUCT: &[Slot] = &[
    Slot::Number,
    Slot::Fixed(FixedWord::Product),
    Slot::Number,
    Slot::Number,
    Slot::Number,
    Slot::Number,
    Slot::Fixed(FixedWord::At),
    Slot::Coordinate,
    Slot::Coordinate,
];

/// `N product A B C D at X Y order L`
const PRODUCT_WITH_ORDER: &[Slot] = &[
    Slot::Number,
    Slot::Fixed(FixedWord::Product),
    Slot::Number,
    Slot::Number,
    Slot::Number,
    Slot::Number,
    Slot::Fixed(FixedWord::At),
    Slot::Coordinate,
    Slot::Coordinate,
    Slot::Fixed(FixedWord::Order),
    Slot::Number,
];

impl RowForm {
    /// What stands after the keyword.
    pub fn slots(self) -> &'static [Slot]
        ensures { result.now ≡ slots_of self }
    {
        match self {
            RowForm::Scatter => &[Slot::Number],
            RowForm::Vars => &[Slot::Number],
            RowForm::Line => &[
                Slot::Number,
                Slot::Number,
                Slot::Fixed(FixedWord::At),
                Slot::Coordinate,
                Slot::Coordinate,
            ],
            RowForm::Term => &[Slot::Number, Slot::Number, Slot::Powers],
            RowForm::Theta => THETA,
            RowForm::ThetaWithOrder => THETA_WITH_ORDER,
            RowForm::Product => PRODUCT,
            RowForm::ProductWithOrder => PRODUCT_WITH_ORDER,
            RowForm::Settle => &[],
            RowForm::End => &[],
        }
    }
}

impl FixedWord {
    /// The word as it is spelled.
    pub fn text(self) -> &'static [u8]
        ensures { result.now ≡ text_of_fixed self }
    {
        match self {
            FixedWord::At => b"at",
            FixedWord::Theta => b"theta",
            FixedWord::Product => b"product",
            FixedWord::Order => b"order",
        }
    }
}

impl Slot {
    /// The number of its tokens.
    pub fn token_count(self, variables: usize) -> usize
        ensures { result ≡ token_count variables self }
    {
        match self {
            Slot::Fixed(_) | Slot::Number | Slot::Coordinate => 1,
            Slot::Powers => variables,
        }
    }
}

impl TextMode {
    /// The words that a line at this place may begin with.
    pub fn words(self, place: Place) -> &'static [Keyword]
        ensures { result.now ≡ words_at self place }
    {
        match place {
            Place::Start => &[Keyword::Scatter],
            Place::Version => &[Keyword::Vars],
            Place::Lines => match self {
                TextMode::Lines => &[Keyword::Line, Keyword::End],
                TextMode::Asks => &[Keyword::Line, Keyword::End, Keyword::Ask, Keyword::Settle],
            },
            Place::Terms => match self {
                TextMode::Lines => &[Keyword::Term, Keyword::Line, Keyword::End],
                TextMode::Asks => &[
                    Keyword::Term,
                    Keyword::Line,
                    Keyword::End,
                    Keyword::Ask,
                    Keyword::Settle,
                ],
            },
            Place::Asks => match self {
                TextMode::Lines => &[Keyword::End],
                TextMode::Asks => &[Keyword::End, Keyword::Ask, Keyword::Settle],
            },
            Place::After => &[],
        }
    }

    /// The allowed word that a token spells.
    pub fn keyword(self, place: Place, token: &[u8]) -> Option<Keyword>
        ensures { MatchOption result (BeginsNowhere self place token.now)
            (λ k. Contains (words_at self place) k × (token.now ≡ word_of k)) }
    {
        let words = self.words(place);
        for k in words {
            if token == k.word() {
                return Some(*k);
            }
        }
        None
    }
}

// Where a term stands.
ghost use Rattle.std.specs.Prelude.{◌≡◌};
ghost use Rattle.c_grammar.specs.Terms.{inside_of};
ghost use Rattle.parse_terms.specs.Views.{view_place};

/// Where a term stands.
#[derive(Clone, Copy)]
pub enum Place {
    Anywhere,
    /// In an entry of a set, where ranges may stand in it.
    InSet,
    /// In a chain of comparisons, where no `!` stands outside brackets.
    InChain,
}

impl Place {
    /// The place in brackets.
    pub fn inside(self) -> Place
        ensures { view_place result ≡ inside_of (view_place self) }
    {
        match self {
            Place::InSet => Place::InSet,
            Place::Anywhere | Place::InChain => Place::Anywhere,
        }
    }
}

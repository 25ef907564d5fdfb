// The law of putting a term for a name.
ghost use Rattle.qed_substitution.specs.Laws.{ReplacingKeepsMeaning};

/// A formula or a term with a term in the places of a name means what it means with the name at the term's value.
pub fn replacing_keeps_meaning()
    ensures { ReplacingKeepsMeaning }
{}

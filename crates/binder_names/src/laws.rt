// What is so of the names of binders.
ghost use Rattle.binder_names.specs.Tables.{NamesFit};

/// Where all binders of a table have names of C, each annotation is given names of C.
pub fn names_fit()
    ensures { NamesFit }
{}

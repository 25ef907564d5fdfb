// What is read is spelled so, and what is spelled is read, where the tokens behind it may follow.
ghost use Rattle.parse_preds.specs.Exactness.{LogicTypeIsExact, PredIsExact, TypedIsExact};

/// `pred_at` reads exactly what is spelled.
pub fn pred_is_exact()
    ensures { PredIsExact }
{}

/// `logic_type_at` reads exactly what is spelled.
pub fn logic_type_is_exact()
    ensures { LogicTypeIsExact }
{}

/// `typed_at` reads exactly what is spelled.
pub fn typed_is_exact()
    ensures { TypedIsExact }
{}

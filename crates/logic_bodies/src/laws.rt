// What is so of bodies.
ghost use Rattle.logic_bodies.specs.Laws.{BodiesAreEncoded};

/// Bodies that pass the test come to what they are encoded as.
pub fn bodies_are_encoded()
    ensures { BodiesAreEncoded }
{}

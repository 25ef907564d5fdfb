// What is so of typed annotations and their formulas.
ghost use Rattle.annotations_encoded.specs.Examples.{ExamplesHold};
ghost use Rattle.annotations_encoded.specs.Laws.{AnnotationsAreEncoded, BodiesAreEncoded, RegionsAreNodes, TreesAreEncoded};

/// What stands for a typed tree is of what the tree gives, where the reading gives what it needs.
pub fn trees_are_encoded()
    ensures { TreesAreEncoded }
{}

/// So annotations have formulas and terms.
pub fn annotations_are_encoded()
    ensures { AnnotationsAreEncoded }
{}

/// A region's tree is a region's node over one object or set.
pub fn regions_are_nodes()
    ensures { RegionsAreNodes }
{}

/// Bodies of logic functions that call themselves have terms.
pub fn bodies_are_encoded()
    ensures { BodiesAreEncoded }
{}

/// Which of a number of typed trees have what they need.
pub fn examples_hold()
    ensures { ExamplesHold }
{}

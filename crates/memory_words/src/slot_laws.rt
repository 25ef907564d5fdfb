// Laws of slots, each the contract of a function that does nothing.
ghost use Rattle.memory_words.specs.SlotExamples.{WorkedForms};
ghost use Rattle.memory_words.specs.SlotLaws.{FormsAreGood, LeavesAreHeld, PutsAreHeld, SlotsAreWhatPlacesHold, SlotsOfPlaces};

/// Each place has a slot of its own, and each slot is that of a place.
pub fn slots_of_places()
    ensures { SlotsOfPlaces }
{}

/// What is put in a place is held there, and the other places hold what they held.
pub fn puts_are_held()
    ensures { PutsAreHeld }
{}

/// Slots are what they hold at all places.
pub fn slots_are_what_places_hold()
    ensures { SlotsAreWhatPlacesHold }
{}

/// A leaf is what is held at its place in the state that it names.
pub fn leaves_are_held()
    ensures { LeavesAreHeld }
{}

/// Whatever a term or a formula over leaves is, what is written says what is told.
pub fn forms_are_good()
    ensures { FormsAreGood }
{}

/// Formulas over places, worked by hand.
pub fn forms_worked_by_hand()
    ensures { WorkedForms }
{}

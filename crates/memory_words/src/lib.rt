//! Floor 5, goals: slots of programs with memory by places, and terms over their leaves. Laws.
//! Floor 5, goals: how expressions and annotations read the slots of programs with memory. Laws.
//! Floor 5, goals: statements of programs with memory as words made of steps.
//! Floor 5, goals: what is put into slots that stand for a world, values and checks, and statements that need no more. Laws.
#![tactic(auto)]

mod put_laws;
mod reading_laws;
mod slot_laws;
mod word_laws;

pub use put_laws::{
    asked_run, behind_dropped, behind_one_end, branches_run, expressions_evaluate, globals_are_put,
    globals_are_set, items_run, locals_are_put, locals_are_set, operands_evaluate,
    plains_are_opened, results_are_set, singles_are_runs, singles_run, slots_go_on,
    temporaries_are_dropped, temporaries_are_put, temporaries_are_set, values_are_assigned,
    values_are_set, ways_lead,
};
pub use reading_laws::{
    annotations_read, bodies_see, contracts_see, expressions_read, levels_are_states,
    worked_readings,
};
pub use slot_laws::{
    forms_are_good, forms_worked_by_hand, leaves_are_held, puts_are_held,
    slots_are_what_places_hold, slots_of_places,
};
pub use word_laws::sets_worked_by_hand;

// How many nodes a term stands for once its calls are expanded (ACSL 2.6).
ghost use Rattle.std.specs.Prelude.{◌≡◌};
ghost use Rattle.std.specs.Option.{option_copied};
ghost use Rattle.c_syntax.specs.View.{view_term};
ghost use Rattle.acsl_names.specs.Names.{view_around};
ghost use Rattle.acsl_names.specs.Weights as spec;

use crate::counting::{Count, Weight, times};
use crate::names::{Around, Bound, Definition, Definitions, Meaning};
use c_syntax::{Term, TermLeaf, TermShape};
use std::alloc::Global;
use wp_base::Line;

impl Definition {
    fn is_expanded(&self, count: usize) -> bool
        ensures { result ≡ spec.is_expanded count self.now }
    {
        self.result.is_some() && !self.is_recursive && self.params.len() == count
    }
}

impl Definitions {
    /// What a term that calls a name with so many arguments is expanded by; none where it isn't expanded.
    pub fn expanded_by(&self, count: usize, meaning: Meaning) -> Option<&Definition>
        ensures { option_copied result ≡ spec.expanded_by self.now count meaning }
    {
        match meaning {
            Meaning::Definition(number) => {
                let definition = self.items.get(number as usize)?;
                if definition.is_expanded(count) {
                    Some(definition)
                } else {
                    None
                }
            }
            Meaning::Bound(_) => None,
            Meaning::Local(_) => None,
            Meaning::Global(_) => None,
            Meaning::Enumerator(_) => None,
            Meaning::Function => None,
            Meaning::Typedef => None,
            Meaning::Nothing => None,
        }
    }
}

impl Around<'_> {
    fn add_meaning(&self, alloc: Global, number: u32, meaning: Meaning, weight: &mut Weight)
        ensures { weight.new ≡ spec.with_meaning self.now.definitions.now number meaning weight.old }
    {
        if let Meaning::Bound(name) = meaning {
            weight.add_name(alloc, number, name);
            return;
        }
        match self.definitions.expanded_by(0, meaning) {
            Some(definition) => weight.add(times(number, definition.weight.own)),
            None => weight.add(number),
        }
    }

    fn add_leaf(
        &self,
        alloc: Global,
        bound: &Bound,
        number: u32,
        leaf: TermLeaf<'_>,
        weight: &mut Weight,
    )
        ensures { weight.new ≡ spec.with_leaf (view_around self.now) bound.now number leaf.entry weight.old }
    {
        match leaf {
            TermLeaf::Name(name) => self.add_meaning(alloc, number, self.find(bound, name), weight),
            TermLeaf::Number(_) => weight.add(number),
            TermLeaf::Char(_) => weight.add(number),
            TermLeaf::Result => weight.add(number),
            TermLeaf::Null => weight.add(number),
        }
    }

    #[cycle(weights)]
    #[tactic(auto, using(c_syntax::proofs::Equations::term_laws, crate::proofs::Weighing::count_is))]
    fn add_term(&self, alloc: Global, bound: &Bound, number: u32, term: &Term, weight: &mut Weight)
        ensures { weight.new ≡ spec.with_term (view_around self.now) bound.now number (view_term term.now) weight.old }
    {
        match term.node.look() {
            TermShape::Leaf(leaf) => self.add_leaf(alloc, bound, number, leaf, weight),
            TermShape::One(_, of) => {
                weight.add(number);
                self.add_term(alloc, bound, number, of.get(), weight);
            }
            TermShape::Two(_, first, second) => {
                weight.add(number);
                self.add_term(alloc, bound, number, first.get(), weight);
                self.add_term(alloc, bound, number, second.get(), weight);
            }
            TermShape::Cond(test, first, second) => {
                weight.add(number);
                self.add_term(alloc, bound, number, test.get(), weight);
                self.add_term(alloc, bound, number, first.get(), weight);
                self.add_term(alloc, bound, number, second.get(), weight);
            }
            TermShape::Call(name, args) => {
                let meaning = self.definitions.find(name);
                let definition = self.definitions.expanded_by(args.len(), meaning);
                self.add_call(alloc, bound, number, definition, args.as_slice(), weight);
            }
        }
    }

    // A call, which is expanded by this definition, or isn't.
    #[cycle(weights)]
    fn add_call(
        &self,
        alloc: Global,
        bound: &Bound,
        number: u32,
        definition: Option<&Definition>,
        args: &[Term],
        weight: &mut Weight,
    )
        ensures { weight.new ≡ spec.with_args (view_around self.now) bound.now number (option_copied definition.entry) (spec.args_of args.now) weight.old }
    {
        match definition {
            Some(definition) => {
                weight.add(times(number, definition.weight.own));
                self.add_each(alloc, bound, number, definition, args, weight);
            }
            None => {
                weight.add(number);
                self.add_all(alloc, bound, number, args, weight);
            }
        }
    }

    // Each argument as often as its parameter stands in the definition.
    #[cycle(weights)]
    #[tactic(auto, using(crate::proofs::Weighing::each_laws))]
    fn add_each(
        &self,
        alloc: Global,
        bound: &Bound,
        number: u32,
        definition: &Definition,
        args: &[Term],
        weight: &mut Weight,
    )
        ensures { weight.new ≡ spec.with_each (view_around self.now) bound.now number definition.now.weight.times (spec.args_of args.now) weight.old }
    {
        let often = definition.weight.times.as_slice();
        for i in 0..args.len() {
            if i >= often.len() {
                return;
            }
            let arg = &args[i];
            let factor = often[i];
            self.add_term(alloc, bound, times(number, factor), arg, weight);
        }
    }

    #[cycle(weights)]
    #[tactic(auto, using(crate::proofs::Weighing::all_laws))]
    fn add_all(&self, alloc: Global, bound: &Bound, number: u32, args: &[Term], weight: &mut Weight)
        ensures { weight.new ≡ spec.with_all (view_around self.now) bound.now number (spec.args_of args.now) weight.old }
    {
        for arg in args {
            self.add_term(alloc, bound, number, arg, weight);
        }
    }

    // The weight with a call that is expanded by this definition.
    #[tactic(auto, unfolding(crate::specs::Weights::with_expanded))]
    fn add_expanded(
        &self,
        alloc: Global,
        bound: &Bound,
        definition: &Definition,
        args: &[Term],
        weight: &mut Weight,
    )
        ensures { weight.new ≡ spec.with_expanded (view_around self.now) bound.now definition.now (spec.args_of args.now) weight.old }
    {
        weight.add(definition.weight.own);
        self.add_each(alloc, bound, 1, definition, args, weight);
    }
}

impl Count {
    /// A call that is expanded by this definition, with its arguments.
    #[tactic(auto, unfolding(crate::specs::Counting::counted))]
    pub fn add_call(
        &mut self,
        alloc: Global,
        around: &Around<'_>,
        bound: &Bound,
        line: Line,
        definition: &Definition,
        args: &[Term],
    )
        ensures { self.new ≡ spec.with_expanded_call (view_around around.now) bound.now line definition.now (spec.args_of args.now) self.old }
    {
        if self.is_counting() {
            around.add_expanded(alloc, bound, definition, args, &mut self.weight);
            self.limit = self.weight.limit(line);
        }
    }
}

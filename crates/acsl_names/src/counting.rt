// How the nodes of an annotation are counted once its definitions are expanded, up to the limit.
ghost use Rattle.std.specs.Prelude.{◌≡◌, IfOk};
ghost use Rattle.wp_base.specs.declared.answers.Rule.TheVariants as rule;
ghost use Rattle.c_answers.specs.Answers.{Gives, fault};
ghost use Rattle.acsl_names.specs.Counting as spec;

use std::alloc::Global;
use std::mem::replace;
use wp_base::{Line, List, NoMemory, Refusal, Rule, Stop};

/// How many nodes an annotation has at most, with its definitions expanded.
pub const MOST_NODES: u32 = 20_000;

/// How many nodes an annotation has once it is expanded: those of its own, and how often each parameter of the definition that is read stands in
/// it. Both are known up to one more than the limit.
#[derive(Drop)]
pub struct Weight {
    pub own: u32,
    pub times: List<u32>,
}

/// Whether the limit was passed, and on which line; inside a call that is counted whole nothing is counted.
#[derive(Clone, Copy)]
pub enum Limit {
    Counting,
    Passed(Line),
    Free,
}

/// What was counted so far.
#[derive(Drop)]
pub struct Count {
    pub limit: Limit,
    pub weight: Weight,
}

fn capped(number: u64) -> u32
    ensures { result ≡ spec.capped number }
{
    if number > MOST_NODES as u64 {
        return MOST_NODES + 1;
    }
    number as u32
}

/// A sum up to one more than the limit.
pub(crate) fn plus(first: u32, second: u32) -> u32
    ensures { result ≡ spec.plus first second }
{
    capped(first as u64 + second as u64)
}

/// A product up to one more than the limit.
pub(crate) fn times(first: u32, second: u32) -> u32
    ensures { result ≡ spec.times first second }
{
    capped(first as u64 * second as u64)
}

impl Weight {
    /// Nothing, beside so many parameters.
    #[tactic(auto, using(crate::proofs::Totals::zeros_laws))]
    pub fn none(alloc: Global, params: usize) -> Result<Weight, NoMemory>
        ensures { IfOk result (λ weight. weight ≡ spec.no_weight params) }
    {
        let mut times = Vec::new(alloc);
        for _ in 0..params {
            times.push(0)?;
        }
        Ok(Weight {
            own: 0,
            times: List::from_vec(times),
        })
    }

    #[tactic(auto, using(crate::proofs::Totals::total_laws))]
    fn total(&self) -> u32
        ensures { result ≡ spec.total self.now }
    {
        let mut total = self.own;
        let times = self.times.as_slice();
        for i in 0..times.len() {
            total = plus(total, times[i]);
        }
        total
    }

    /// So many nodes more.
    pub(crate) fn add(&mut self, number: u32)
        ensures { self.new ≡ spec.with_own number self.old }
    {
        self.own = plus(self.own, number);
    }

    /// So often the name with this number, a parameter or a binder.
    #[tactic(auto, unfolding(crate::specs::Counting::with_name))]
    pub(crate) fn add_name(&mut self, alloc: Global, number: u32, name: u32)
        ensures { self.new ≡ spec.with_name number name self.old }
    {
        let place = name as usize;
        if place < self.times.len() {
            let mut times = replace(&mut self.times, List::new(alloc)).into_vec();
            times[place] = plus(times[place], number);
            self.times = List::from_vec(times);
        } else {
            self.own = plus(self.own, number);
        }
    }

    pub(crate) fn limit(&self, line: Line) -> Limit
        ensures { result ≡ spec.limit_with line self.now }
    {
        if self.total() > MOST_NODES {
            Limit::Passed(line)
        } else {
            Limit::Counting
        }
    }
}

impl Count {
    /// Whether nodes are counted here: the limit isn't passed, and it is in no call that is counted whole.
    pub fn is_counting(&self) -> bool
        ensures { result ≡ spec.is_counting self.now.limit }
    {
        match self.limit {
            Limit::Counting => true,
            Limit::Passed(_) | Limit::Free => false,
        }
    }

    /// The count inside a call that was counted whole: nothing is counted there.
    pub fn inside_call(&self, alloc: Global) -> Result<Count, NoMemory>
        ensures { IfOk result (λ count. count ≡ spec.inside_call self.now) }
    {
        let times = Vec::from_slice(alloc, self.weight.times.as_slice())?;
        let weight = Weight {
            own: self.weight.own,
            times: List::from_vec(times),
        };
        let limit = match self.limit {
            Limit::Passed(line) => Limit::Passed(line),
            Limit::Counting | Limit::Free => Limit::Free,
        };
        Ok(Count { limit, weight })
    }

    /// One node more.
    #[tactic(auto, unfolding(crate::specs::Counting::with_node, crate::specs::Counting::counted))]
    pub fn add_node(&mut self, line: Line)
        ensures { self.new ≡ spec.with_node line self.old }
    {
        if self.is_counting() {
            self.weight.add(1);
            self.limit = self.weight.limit(line);
        }
    }

    /// The name with this number, a parameter or a binder.
    #[tactic(auto, unfolding(crate::specs::Counting::with_bound, crate::specs::Counting::counted))]
    pub fn add_bound(&mut self, alloc: Global, line: Line, name: u32)
        ensures { self.new ≡ spec.with_bound line name self.old }
    {
        if self.is_counting() {
            self.weight.add_name(alloc, 1, name);
            self.limit = self.weight.limit(line);
        }
    }
}

fn is_name(rule: Rule) -> bool
    ensures { result ≡ spec.is_name rule }
{
    matches!(rule, Rule::Name)
}

fn is_shape(rule: Rule) -> bool
    ensures { result ≡ spec.is_shape rule }
{
    matches!(rule, Rule::Shape)
}

fn past_limit(line: Line) -> Refusal
    ensures { result ≡ fault rule.Limit line }
{
    Refusal {
        rule: Rule::Limit,
        line,
    }
}

fn weighed_behind(fault: Refusal, behind: Limit) -> Refusal
    ensures { result ≡ spec.weighed_behind fault behind }
{
    match behind {
        Limit::Passed(line) => {
            if is_name(fault.rule) {
                fault
            } else {
                past_limit(line)
            }
        }
        Limit::Counting | Limit::Free => fault,
    }
}

fn weighed_at(fault: Refusal, at: Limit, behind: Limit) -> Refusal
    ensures { result ≡ spec.weighed_at fault at behind }
{
    match at {
        Limit::Passed(line) => {
            if is_shape(fault.rule) {
                past_limit(line)
            } else {
                fault
            }
        }
        Limit::Counting | Limit::Free => weighed_behind(fault, behind),
    }
}

fn weighed(fault: Refusal, before: Limit, at: Limit, behind: Limit) -> Refusal
    ensures { result ≡ spec.weighed fault before at behind }
{
    match before {
        Limit::Passed(line) => past_limit(line),
        Limit::Counting | Limit::Free => weighed_at(fault, at, behind),
    }
}

/// What a node is, or its fault weighed against the limit: by whether that was passed before the node, at it, or inside.
#[tactic(auto, unfolding(crate::specs::Counting::ended))]
pub fn ended<Y>(before: Limit, at: Limit, behind: Limit, node: Result<Y, Stop>) -> Result<Y, Stop>
    ensures { result ≡ spec.stopped before at behind node }
{
    match node {
        Ok(node) => Ok(node),
        Err(Stop::Refused(fault)) => Err(Stop::Refused(weighed(fault, before, at, behind))),
        Err(Stop::NoMemory) => Err(Stop::NoMemory),
    }
}

/// The end of an annotation: its fault where the limit was passed.
pub fn limited(limit: Limit) -> Result<(), Stop>
    ensures { Gives (λ _. tt) result (spec.within limit) }
{
    match limit {
        Limit::Passed(line) => Err(Stop::Refused(past_limit(line))),
        Limit::Counting | Limit::Free => Ok(()),
    }
}

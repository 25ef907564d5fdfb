// What stands around an annotation, and what a name is there (ACSL 2.2, 2.6).
ghost use Rattle.std.specs.Prelude.{◌≡◌, map};
ghost use Rattle.c_answers.specs.Answers.{Gives};
ghost use Rattle.c_syntax.specs.View.{view_ctype, view_var};
ghost use Rattle.name_table.specs.Names.{meaning_among};
ghost use Rattle.acsl_names.specs.Names as spec;

use crate::counting::Weight;
use acsl_trees::TermType;
use c_answers::refused;
use c_kinds::Machdep;
use c_scopes::{File, Object, Resolved, Symbol, named};
use c_syntax::{CType, TypeLeaf, TypeShape, VarDecl};
use name_table::{Scopes, Table};
use std::alloc::Global;
use typed_prog::{CoreType, Variable};
use wp_base::{Line, List, Rule, Stop, Str};

/// The definition of a predicate, which has no result, or of a logic function (ACSL 2.6.1).
#[derive(Drop)]
pub struct Definition {
    pub params: List<TermType>,
    pub result: Option<TermType>,
    /// How many nodes a call of it stands for.
    pub weight: Weight,
    /// Whether it calls itself, or may do so since its body is being read; then a call of it isn't expanded.
    pub is_recursive: bool,
}

/// Definitions in the order of the text, each with its number by its name.
#[derive(Drop)]
pub struct Definitions {
    pub names: Table<u32>,
    pub items: List<Definition>,
}

/// The names that an annotation binds: parameters of a definition, binders and those of `\let`, by their numbers from outside in, and their types.
#[derive(Drop)]
pub struct Bound {
    pub scopes: Scopes<u32>,
    pub types: List<TermType>,
}

/// Where an annotation stands.
#[derive(Clone, Copy)]
pub enum Site {
    /// In the body of a definition.
    Definition,
    /// In a contract, but in no `ensures`.
    Contract,
    Ensures,
    /// In the body of a function; inside a loop with the number of locals that were declared where it began.
    Code(Option<u32>),
}

/// Which labels stand around a term; `pre` is for `\old` too.
#[derive(Clone, Copy)]
pub struct Reading {
    pub pre: bool,
    pub post: bool,
    pub loop_entry: bool,
}

/// What stands around an annotation.
#[derive(Clone, Copy)]
pub struct Around<'a> {
    pub model: Machdep,
    /// How many cells each struct of the file has.
    pub sizes: &'a [u32],
    pub file: &'a File,
    /// How many ordinary names and how many tags the file declares before the annotation.
    pub names: usize,
    pub tags: usize,
    pub definitions: &'a Definitions,
    /// The locals in scope, by their numbers among the objects of the function.
    pub blocks: &'a Scopes<u32>,
    pub objects: &'a [Object],
    /// How many of these are parameters; they come first.
    pub params: usize,
    pub site: Site,
    /// The type of the function's result.
    pub result: &'a CoreType,
    /// The number of the definition that is read, where it calls itself; and its parameters, where it may do so.
    pub itself: Option<u32>,
    pub down: Option<&'a List<VarDecl>>,
}

/// What a name is.
#[derive(Clone, Copy)]
pub enum Meaning {
    /// A parameter of the definition, or a binder, by how many are around it.
    Bound(u32),
    Local(u32),
    Global(u32),
    Enumerator(i128),
    Function,
    Typedef,
    Definition(u32),
    Nothing,
}

fn of_symbol(symbol: Symbol) -> Meaning
    ensures { result ≡ spec.of_symbol symbol }
{
    match symbol {
        Symbol::Object(Variable::Global(number)) => Meaning::Global(number),
        Symbol::Object(Variable::Local(number)) => Meaning::Local(number),
        Symbol::Function(_) => Meaning::Function,
        Symbol::Enumerator(value) => Meaning::Enumerator(value),
        Symbol::Typedef(_) => Meaning::Typedef,
    }
}

impl Definitions {
    /// The definition of this name.
    pub fn find(&self, name: &Str) -> Meaning
        ensures { result ≡ spec.definition_of self.now name.now }
    {
        match self.names.find(name) {
            Some(number) => Meaning::Definition(number),
            None => Meaning::Nothing,
        }
    }
}

impl<'a> Around<'a> {
    /// The same for an annotation at this site.
    pub fn at_site(&self, site: Site) -> Around<'a>
        ensures { spec.view_around result ≡ spec.at_site site (spec.view_around self.now) }
    {
        Around { site, ..*self }
    }

    /// The same for the body of a logic function where it may call itself, with these parameters.
    pub fn going_down(&self, params: &'a List<VarDecl>) -> Around<'a>
        ensures { spec.view_around result ≡ spec.going_down (map view_var params.now) (spec.view_around self.now) }
    {
        Around {
            down: Some(params),
            ..*self
        }
    }

    /// What a name is.
    #[tactic(auto, unfolding(crate::specs::Names::meaning_at))]
    pub fn find(&self, bound: &Bound, name: &Str) -> Meaning
        ensures { result ≡ spec.meaning_at (spec.view_around self.now) bound.now name.now }
    {
        if let Some(number) = bound.scopes.find(name) {
            return Meaning::Bound(number);
        }
        if let Some(number) = self.blocks.find(name) {
            return Meaning::Local(number);
        }
        match self.file.names.find_among(self.names, name) {
            Some(symbol) => of_symbol(symbol),
            None => self.definitions.find(name),
        }
    }

    fn tag_is_before(&self, line: Line, name: &Str) -> Result<(), Stop>
        ensures { Gives (λ _. tt) result (spec.tag_is_before line (meaning_among self.now.tags self.now.file.now.tags name.now)) }
    {
        match self.file.tags.find_among(self.tags, name) {
            Some(_) => Ok(()),
            None => Err(refused(Rule::Name, line)),
        }
    }

    // Goes down the stars by a loop, since these may be as many as there are tokens.
    #[tactic(auto, using(c_syntax::proofs::Equations::expr_laws))]
    fn tags_are_before(&self, line: Line, ty: &CType) -> Result<(), Stop>
        ensures { Gives (λ _. tt) result (spec.tags_before (spec.view_around self.now) line (view_ctype ty.now)) }
    {
        let mut inner = ty;
        loop {
            match inner.look() {
                TypeShape::Leaf(TypeLeaf::Struct(name)) => return self.tag_is_before(line, name),
                TypeShape::Leaf(TypeLeaf::Enum(name)) => return self.tag_is_before(line, name),
                TypeShape::Leaf(TypeLeaf::Void) => return Ok(()),
                TypeShape::Leaf(TypeLeaf::Kind(_)) => return Ok(()),
                TypeShape::Leaf(TypeLeaf::Integer) => return Ok(()),
                TypeShape::Leaf(TypeLeaf::Named(_)) => return Ok(()),
                TypeShape::Pointer(to) => inner = to.get(),
                TypeShape::Array(of, _) => inner = of.get(),
                TypeShape::Const(of) => inner = of.get(),
            }
        }
    }

    /// A type with its names looked up among what is declared before the annotation, or the fault of a name at this line. None is no type of C.
    #[tactic(auto, using(c_answers::proofs::After::after_laws), unfolding(crate::specs::Names::type_named))]
    pub fn type_named(
        &self,
        alloc: Global,
        line: Line,
        ty: &CType,
    ) -> Result<Option<Resolved>, Stop>
        ensures { Gives (λ t. t) result (spec.type_named (spec.view_around self.now) line (view_ctype ty.now)) }
    {
        self.tags_are_before(line, ty)?;
        named(alloc, self.file, line, ty)
    }
}

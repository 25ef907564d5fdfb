// Bases of slots, made.
ghost use Rattle.std.specs.Prelude.{◌≡◌, ◌++◌, ◌∷◌, [], ◌<◌, false, length, map, slice_get, slice_index_or, IfOk, OnOk};
ghost use Rattle.core_trees.specs.View.{view_variable, view_variables};
ghost use Rattle.memory_functions.specs.Starting.{is_pointer_in};
ghost use Rattle.memory_names.specs.Names as spec;
ghost use Rattle.memory_names.specs.Parts as parts;
ghost use Rattle.memory_names.specs.View.{bases_in, HasKinds};
ghost use Rattle.memory_steps.specs.State as state;
ghost use Rattle.memory_words.specs.Shapes as shapes;
ghost use Rattle.memory_words.specs.Shapes.{FileCells};
ghost use Rattle.memory_worlds.specs.View.{view_base};
ghost use Rattle.slot_names.specs.Bases as plain;
ghost use Rattle.typed_prog.specs.declared.operators.Variable.TheVariants as variables;

use core_trees::FunctionVariable;
use itoa::Buffer;
use memory_worlds::Base;
use std::alloc::Global;
use wp_base::{CellKind, NoMemory, Str};

/// What the slots of a function are named after: the names of the variables of the file and of its own, the first of which are its parameters; what these
/// variables are, the kinds of its temporaries, and that of its result; whether what its calls give has the names of a pointer; and a flag for each kind of
/// cells that the file has, in their order.
#[derive(Clone, Copy)]
pub struct Named<'a> {
    pub file: &'a [Str],
    pub own: &'a [Str],
    pub params: usize,
    pub globals: &'a [FunctionVariable],
    pub variables: &'a [FunctionVariable],
    pub temporaries: &'a [CellKind],
    pub result: Option<CellKind>,
    pub calls_point: bool,
    pub kinds: &'a [bool],
}

// ---- names

// A name with more behind it.
fn with_end(alloc: Global, name: &Str, end: &[u8]) -> Result<Str, NoMemory>
    ensures { IfOk result (λ made. made ≡ name.now ++ end.now) }
{
    let mut bytes = Vec::from_slice(alloc, name.bytes())?;
    bytes.extend_from_slice(end)?;
    Ok(Str::from_vec(bytes))
}

// Of an integer, or of the block to which a pointer leads.
fn first_name(alloc: Global, is_pointer: bool, name: &Str) -> Result<Str, NoMemory>
    ensures { IfOk result (λ made. made ≡ spec.first_name is_pointer name.now) }
{
    if is_pointer {
        with_end(alloc, name, b":b")
    } else {
        name.copy(alloc)
    }
}

// A name, with a byte before it where that is wanted.
fn marked(alloc: Global, is_hidden: bool, name: &Str) -> Result<Str, NoMemory>
    ensures { IfOk result (λ made. made ≡ plain.shown_as is_hidden name.now) }
{
    let mut bytes = Vec::new(alloc);
    if is_hidden {
        bytes.push(b'%')?;
    }
    bytes.extend_from_slice(name.bytes())?;
    Ok(Str::from_vec(bytes))
}

fn is_among(name: &Str, names: &[Str]) -> bool
    ensures { result ≡ plain.is_among name.now names.now }
{
    names.iter().any(|other| name.bytes() == other.bytes())
}

// The name with this number, and the empty one where there is none.
fn name_at(alloc: Global, names: &[Str], at: usize) -> Result<Str, NoMemory>
    ensures { IfOk result (λ made. made ≡ slice_index_or names.now at []) }
{
    if at < names.len() {
        names[at].copy(alloc)
    } else {
        Ok(Str::from_vec(Vec::new(alloc)))
    }
}

// That of a variable of the function.
fn local_name(
    alloc: Global,
    file: &[Str],
    own: &[Str],
    params: usize,
    at: usize,
) -> Result<Str, NoMemory>
    ensures { IfOk result (λ made. made ≡ spec.variable_name file.now own.now params (variables.Local at)) }
{
    let name = name_at(alloc, own, at)?;
    let is_hidden = at < params && is_among(&name, file);
    let made = marked(alloc, is_hidden, &name)?;
    Ok(made)
}

#[tactic(auto, using(crate::proofs::Pushing::numbered))]
fn temporary_name(alloc: Global, number: usize) -> Result<Str, NoMemory>
    requires { 0 < number }
    ensures { IfOk result (λ made. made ≡ plain.temporary_name number) }
{
    let mut buffer = Buffer::new();
    let mut bytes = Vec::new(alloc);
    bytes.push(b'%')?;
    bytes.extend_from_slice(buffer.format(number).as_bytes())?;
    Ok(Str::from_vec(bytes))
}

// ---- kinds

fn is_pointer_kind(kind: CellKind) -> bool
    ensures { result ≡ shapes.is_pointer_cell kind }
{
    match kind {
        CellKind::Of(_) => false,
        CellKind::Ptr => true,
    }
}

// What a variable without cells holds counts as a pointer.
fn is_pointer(variable: &FunctionVariable) -> bool
    ensures { result ≡ shapes.is_pointer_cell (shapes.kind_of (view_variable variable.now)) }
{
    let cells = variable.layout.cells.as_slice();
    if cells.is_empty() {
        true
    } else {
        is_pointer_kind(cells[0])
    }
}

fn is_pointer_at(variables: &[FunctionVariable], at: usize) -> bool
    ensures { result ≡ is_pointer_in (slice_get (view_variables variables.now) at) }
{
    match variables.get(at) {
        Some(variable) => is_pointer(variable),
        None => false,
    }
}

fn is_pointer_result(kind: Option<CellKind>) -> bool
    ensures { result ≡ spec.is_pointer_result kind }
{
    match kind {
        Some(kind) => is_pointer_kind(kind),
        None => false,
    }
}

fn has(kinds: &[bool], place: usize) -> bool
    ensures { result ≡ slice_index_or kinds.now place false }
{
    place < kinds.len() && kinds[place]
}

// ---- bases

#[tactic(auto, using(crate::proofs::Pushing::map_push))]
fn push_base(name: Str, is_memory: bool, bases: &mut Vec<Base>) -> Result<(), NoMemory>
    ensures { OnOk result (map view_base bases.new.items ≡ map view_base bases.old.items ++ state.base name is_memory ∷ []) }
{
    bases.push(Base { name, is_memory })?;
    Ok(())
}

// Of an integer or a pointer.
#[tactic(auto, using(crate::proofs::Pushing::two_pushed))]
fn push_two(
    alloc: Global,
    is_pointer: bool,
    name: &Str,
    bases: &mut Vec<Base>,
) -> Result<(), NoMemory>
    ensures { OnOk result (map view_base bases.new.items ≡ map view_base bases.old.items ++ parts.two_of is_pointer name.now) }
{
    push_base(first_name(alloc, is_pointer, name)?, false, bases)?;
    push_base(with_end(alloc, name, b":o")?, false, bases)?;
    Ok(())
}

// Of one that always has the same name.
fn push_fixed(
    alloc: Global,
    is_pointer: bool,
    name: &[u8],
    bases: &mut Vec<Base>,
) -> Result<(), NoMemory>
    ensures { OnOk result (map view_base bases.new.items ≡ map view_base bases.old.items ++ parts.two_of is_pointer name.now) }
{
    let name = Str::from_bytes(alloc, name)?;
    push_two(alloc, is_pointer, &name, bases)
}

// Of a variable.
#[tactic(auto, using(crate::proofs::Pushing::three_pushed))]
fn push_three(
    alloc: Global,
    is_pointer: bool,
    name: &Str,
    bases: &mut Vec<Base>,
) -> Result<(), NoMemory>
    ensures { OnOk result (map view_base bases.new.items ≡ map view_base bases.old.items ++ parts.three_of is_pointer name.now) }
{
    push_two(alloc, is_pointer, name, bases)?;
    push_base(with_end(alloc, name, b":i")?, false, bases)?;
    Ok(())
}

// ---- variables and temporaries

fn push_global(
    alloc: Global,
    file: &[Str],
    globals: &[FunctionVariable],
    at: usize,
    bases: &mut Vec<Base>,
) -> Result<(), NoMemory>
    ensures { OnOk result (map view_base bases.new.items ≡ map view_base bases.old.items ++ parts.global_part file.now (view_variables globals.now) at) }
{
    let name = name_at(alloc, file, at)?;
    push_three(alloc, is_pointer_at(globals, at), &name, bases)
}

// Of all variables of the file.
#[tactic(auto, using(crate::proofs::Pushing::next_part, crate::proofs::Pushing::all_parts))]
fn push_globals(
    alloc: Global,
    file: &[Str],
    globals: &[FunctionVariable],
    bases: &mut Vec<Base>,
) -> Result<(), NoMemory>
    ensures { OnOk result (map view_base bases.new.items ≡ map view_base bases.old.items ++ parts.from_on (parts.global_part file.now (view_variables globals.now)) 0 (length globals.now)) }
{
    for at in 0..globals.len() {
        push_global(alloc, file, globals, at, bases)?;
    }
    Ok(())
}

fn push_local(
    alloc: Global,
    file: &[Str],
    own: &[Str],
    params: usize,
    variables: &[FunctionVariable],
    at: usize,
    bases: &mut Vec<Base>,
) -> Result<(), NoMemory>
    ensures { OnOk result (map view_base bases.new.items ≡ map view_base bases.old.items ++ parts.local_part file.now own.now params (view_variables variables.now) at) }
{
    let name = local_name(alloc, file, own, params, at)?;
    push_three(alloc, is_pointer_at(variables, at), &name, bases)
}

// Of all variables of the function.
#[tactic(auto, using(crate::proofs::Pushing::next_part, crate::proofs::Pushing::all_parts))]
fn push_locals(
    alloc: Global,
    file: &[Str],
    own: &[Str],
    params: usize,
    variables: &[FunctionVariable],
    bases: &mut Vec<Base>,
) -> Result<(), NoMemory>
    ensures { OnOk result (map view_base bases.new.items ≡ map view_base bases.old.items ++ parts.from_on (parts.local_part file.now own.now params (view_variables variables.now)) 0 (length variables.now)) }
{
    for at in 0..variables.len() {
        push_local(alloc, file, own, params, variables, at, bases)?;
    }
    Ok(())
}

#[tactic(auto, using(crate::proofs::Pushing::temporary_pushed))]
fn push_temporary(
    alloc: Global,
    kinds: &[CellKind],
    at: usize,
    bases: &mut Vec<Base>,
) -> Result<(), NoMemory>
    requires { at < length kinds.now }
    ensures { OnOk result (map view_base bases.new.items ≡ map view_base bases.old.items ++ parts.temporary_part kinds.now at) }
{
    let name = temporary_name(alloc, at + 1)?;
    push_two(alloc, is_pointer_kind(kinds[at]), &name, bases)?;
    Ok(())
}

// Of all temporaries.
#[tactic(auto, using(crate::proofs::Pushing::next_part, crate::proofs::Pushing::all_parts))]
fn push_temporaries(
    alloc: Global,
    kinds: &[CellKind],
    bases: &mut Vec<Base>,
) -> Result<(), NoMemory>
    ensures { OnOk result (map view_base bases.new.items ≡ map view_base bases.old.items ++ parts.from_on (parts.temporary_part kinds.now) 0 (length kinds.now)) }
{
    for at in 0..kinds.len() {
        push_temporary(alloc, kinds, at, bases)?;
    }
    Ok(())
}

// ---- memories

// Of the memory of the kind with this place, if there are such cells.
fn push_memory(
    alloc: Global,
    name: &[u8],
    kinds: &[bool],
    place: usize,
    bases: &mut Vec<Base>,
) -> Result<(), NoMemory>
    ensures { OnOk result (map view_base bases.new.items ≡ map view_base bases.old.items ++ state.base name.now (slice_index_or kinds.now place false) ∷ []) }
{
    let name = Str::from_bytes(alloc, name)?;
    push_base(name, has(kinds, place), bases)
}

#[tactic(auto, using(crate::proofs::Pushing::four_pushed))]
fn push_small(alloc: Global, kinds: &[bool], bases: &mut Vec<Base>) -> Result<(), NoMemory>
    ensures { OnOk result (map view_base bases.new.items ≡ map view_base bases.old.items ++ parts.small_memories (parts.flagged kinds.now)) }
{
    push_memory(alloc, b"M:bool", kinds, 0, bases)?;
    push_memory(alloc, b"M:char", kinds, 1, bases)?;
    push_memory(alloc, b"M:schar", kinds, 2, bases)?;
    push_memory(alloc, b"M:uchar", kinds, 3, bases)?;
    Ok(())
}

#[tactic(auto, using(crate::proofs::Pushing::four_pushed))]
fn push_middle(alloc: Global, kinds: &[bool], bases: &mut Vec<Base>) -> Result<(), NoMemory>
    ensures { OnOk result (map view_base bases.new.items ≡ map view_base bases.old.items ++ parts.middle_memories (parts.flagged kinds.now)) }
{
    push_memory(alloc, b"M:short", kinds, 4, bases)?;
    push_memory(alloc, b"M:ushort", kinds, 5, bases)?;
    push_memory(alloc, b"M:int", kinds, 6, bases)?;
    push_memory(alloc, b"M:uint", kinds, 7, bases)?;
    Ok(())
}

#[tactic(auto, using(crate::proofs::Pushing::four_pushed))]
fn push_large(alloc: Global, kinds: &[bool], bases: &mut Vec<Base>) -> Result<(), NoMemory>
    ensures { OnOk result (map view_base bases.new.items ≡ map view_base bases.old.items ++ parts.large_memories (parts.flagged kinds.now)) }
{
    push_memory(alloc, b"M:long", kinds, 8, bases)?;
    push_memory(alloc, b"M:ulong", kinds, 9, bases)?;
    push_memory(alloc, b"M:llong", kinds, 10, bases)?;
    push_memory(alloc, b"M:ullong", kinds, 11, bases)?;
    Ok(())
}

#[tactic(auto, using(crate::proofs::Pushing::both_pushed))]
fn push_pointers(alloc: Global, kinds: &[bool], bases: &mut Vec<Base>) -> Result<(), NoMemory>
    ensures { OnOk result (map view_base bases.new.items ≡ map view_base bases.old.items ++ parts.pointer_memories (parts.flagged kinds.now)) }
{
    push_memory(alloc, b"M:ptrb", kinds, 12, bases)?;
    push_memory(alloc, b"M:ptro", kinds, 12, bases)?;
    Ok(())
}

// Of all memories.
fn push_memories(alloc: Global, kinds: &[bool], bases: &mut Vec<Base>) -> Result<(), NoMemory>
    ensures { OnOk result (map view_base bases.new.items ≡ map view_base bases.old.items ++ parts.memories (parts.flagged kinds.now)) }
{
    push_small(alloc, kinds, bases)?;
    push_middle(alloc, kinds, bases)?;
    push_large(alloc, kinds, bases)?;
    push_pointers(alloc, kinds, bases)?;
    Ok(())
}

// Of what stands behind the variables.
fn push_behind(
    alloc: Global,
    result_kind: Option<CellKind>,
    calls_point: bool,
    temporaries: &[CellKind],
    kinds: &[bool],
    bases: &mut Vec<Base>,
) -> Result<(), NoMemory>
    ensures { OnOk result (map view_base bases.new.items ≡ map view_base bases.old.items ++ parts.behind_part result_kind calls_point temporaries.now (parts.flagged kinds.now)) }
{
    push_fixed(alloc, is_pointer_result(result_kind), b"\\result", bases)?;
    push_fixed(alloc, calls_point, b"%", bases)?;
    push_temporaries(alloc, temporaries, bases)?;
    push_memories(alloc, kinds, bases)?;
    Ok(())
}

/// The bases of the slots of a function, in the order of the slots. A variable without a name has the empty one.
pub fn slot_bases(alloc: Global, named: Named<'_>) -> Result<Vec<Base>, NoMemory>
    ensures { IfOk result (λ made. (cells : FileCells) → HasKinds named.entry cells → map view_base made.items ≡ bases_in named.entry cells) }
{
    let mut bases = Vec::new(alloc);
    push_globals(alloc, named.file, named.globals, &mut bases)?;
    push_locals(
        alloc,
        named.file,
        named.own,
        named.params,
        named.variables,
        &mut bases,
    )?;
    push_behind(
        alloc,
        named.result,
        named.calls_point,
        named.temporaries,
        named.kinds,
        &mut bases,
    )?;
    Ok(bases)
}

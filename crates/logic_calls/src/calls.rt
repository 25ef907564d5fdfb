// How logic functions are called (ACSL 2.6.3).
ghost use Rattle.std.specs.Prelude.{◌≡◌, ◌<◌, ◌++◌, length, map, IfOk, OnOk};
ghost use Rattle.acsl_encode.specs.Told as told;
ghost use Rattle.acsl_expand.specs.Expansion.{view_all};
ghost use Rattle.annotation_words.specs.View.{view_called, view_global};
ghost use Rattle.logic_calls.specs.Told as spec;
ghost use Rattle.logic_calls.specs.View.{IsTold, one_if, view_names, view_spelling};
ghost use Rattle.logic_order.specs.Order.{told_as};
ghost use Rattle.logic_trees.specs.declared.questions.Asked.TheVariants as asking;
ghost use Rattle.plain_annotations.specs.Settings.{globals_from};
ghost use Rattle.program_trees.specs.View.{view_facts};

use crate::copies::{copy_global, copy_params};
use crate::names::{FileNames, Spelling};
use crate::reading::is_read;
use acsl_expand::Meant;
use annotation_words::{Called, GlobalName};
use logic_trees::Asked;
use program_trees::Facts;
use std::alloc::Global;
use wp_base::{CellKind, Kind, List, NoMemory};

const EVERY_CELL: [CellKind; 13] = [
    CellKind::Of(Kind::Bool),
    CellKind::Of(Kind::Char),
    CellKind::Of(Kind::SChar),
    CellKind::Of(Kind::UChar),
    CellKind::Of(Kind::Short),
    CellKind::Of(Kind::UShort),
    CellKind::Of(Kind::Int),
    CellKind::Of(Kind::UInt),
    CellKind::Of(Kind::Long),
    CellKind::Of(Kind::ULong),
    CellKind::Of(Kind::LLong),
    CellKind::Of(Kind::ULLong),
    CellKind::Ptr,
];

// ---- cells

#[tactic(auto, using(crate::proofs::Those::put_laws))]
fn put_cell(read: bool, kind: CellKind, out: &mut List<CellKind>) -> Result<(), NoMemory>
    ensures { OnOk result (out.new ≡ out.old ++ one_if read kind) }
{
    if !read {
        return Ok(());
    }
    out.push(kind)?;
    Ok(())
}

// Those of these kinds whose cells a function reads.
#[tactic(auto, using(crate::proofs::Those::cell_laws))]
fn cells_read(
    alloc: Global,
    definitions: &[Meant],
    globals: usize,
    function: usize,
    kinds: &[CellKind],
) -> Result<List<CellKind>, NoMemory>
    requires { function < length definitions.now }
    ensures { IfOk result (λ made. made ≡ told.those (λ k. spec.reads_at globals (view_all definitions.now) function (asking.Cell k)) kinds.now) }
{
    let mut made = List::new(alloc);
    for at in 0..kinds.len() {
        let kind = kinds[at];
        let read = is_read(alloc, definitions, globals, function, Asked::Cell(kind))?;
        put_cell(read, kind, &mut made)?;
    }
    Ok(made)
}

// ---- variables

fn number_of(global: &GlobalName) -> u32
    ensures { result ≡ told.number_of (view_global global.now) }
{
    match global {
        GlobalName::Integer(number, _, _) => *number,
        GlobalName::Pointer(number, _, _) => *number,
    }
}

#[tactic(auto, using(crate::proofs::Those::put_laws))]
fn put_global(
    alloc: Global,
    read: bool,
    global: &GlobalName,
    out: &mut List<GlobalName>,
) -> Result<(), NoMemory>
    ensures { OnOk result (map view_global out.new ≡ map view_global out.old ++ one_if read (view_global global.now)) }
{
    if !read {
        return Ok(());
    }
    out.push(copy_global(alloc, global)?)?;
    Ok(())
}

// Those of these variables that a function reads.
#[tactic(auto, using(crate::proofs::Those::global_laws))]
fn globals_read(
    alloc: Global,
    definitions: &[Meant],
    count: usize,
    function: usize,
    globals: &[GlobalName],
) -> Result<List<GlobalName>, NoMemory>
    requires { function < length definitions.now }
    ensures { IfOk result (λ made. map view_global made ≡ told.those (λ g. spec.reads_at count (view_all definitions.now) function (asking.Variable (told.number_of g))) (map view_global globals.now)) }
{
    let mut made = List::new(alloc);
    for at in 0..globals.len() {
        let global = &globals[at];
        let asked = Asked::Variable(number_of(global));
        let read = is_read(alloc, definitions, count, function, asked)?;
        put_global(alloc, read, global, &mut made)?;
    }
    Ok(made)
}

// ---- functions

fn called_as(
    alloc: Global,
    spelling: &Spelling,
    globals: &[GlobalName],
    definitions: &[Meant],
    function: usize,
) -> Result<Called, NoMemory>
    requires { function < length definitions.now }
    ensures { IfOk result (λ called. view_called called ≡ spec.told_with (view_spelling spelling.now) (map view_global globals.now) (view_all definitions.now) function) }
{
    let name = spelling.name.copy(alloc)?;
    let params = copy_params(alloc, spelling.params.as_slice())?;
    let memories = cells_read(alloc, definitions, globals.len(), function, &EVERY_CELL)?;
    let globals = globals_read(alloc, definitions, globals.len(), function, globals)?;
    Ok(Called {
        name,
        params,
        memories,
        globals,
    })
}

/// How the definition with a number is called; none where it isn't spelled. The variables are those of the file.
pub fn told(
    alloc: Global,
    facts: &Facts,
    names: &FileNames,
    globals: &[GlobalName],
    number: usize,
) -> Result<Option<Called>, NoMemory>
    requires inside { number < length facts.now.definitions }
    requires globals_ { map view_global globals.now ≡ globals_from 0 (view_facts facts.now).globals names.now.variables }
    ensures { IfOk result (λ found. IsTold found (told_as (view_facts facts.now) (view_names names.now) number)) }
{
    let Some(spelling) = names.functions.get(number) else {
        return Ok(None);
    };
    let called = called_as(
        alloc,
        spelling,
        globals,
        facts.definitions.as_slice(),
        number,
    )?;
    Ok(Some(called))
}

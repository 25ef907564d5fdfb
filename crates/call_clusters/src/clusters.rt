// Functions that call each other (C11 6.5.2.2, ACSL 2.5).
ghost use Rattle.std.specs.Prelude.{◌≡◌, ◌<◌, ℕ, length, map, IfOk};
ghost use Rattle.std.specs.Option.{option_map};
ghost use Rattle.c_programs.specs.Clusters.{call_each_other, calls_directly, reaches};
ghost use Rattle.call_clusters.specs.Callees.{body_callees};
ghost use Rattle.call_clusters.specs.Rows as spec;
ghost use Rattle.program_trees.specs.Files.{in_cluster_of};
ghost use Rattle.program_trees.specs.View.{view_function};

use crate::callees::put_stmts_callees;
use crate::rows::{entry, marks, rows_through};
use program_trees::Function;
use std::alloc::Global;
use wp_base::{List, NoMemory};

fn callees_of(alloc: Global, function: &Option<Function<'_>>) -> Result<List<u32>, NoMemory>
    ensures { IfOk result (λ callees. callees ≡ body_callees (option_map view_function function.now)) }
{
    let mut callees = List::new(alloc);
    match function {
        Some(function) => {
            put_stmts_callees(function.body.as_slice(), &mut callees)?;
            Ok(callees)
        }
        None => Ok(callees),
    }
}

#[tactic(auto, using(crate::proofs::Reaching::calls_marked))]
fn calls_of(
    alloc: Global,
    functions: &[Option<Function<'_>>],
    caller: usize,
) -> Result<List<bool>, NoMemory>
    requires { caller < length functions.now }
    ensures { IfOk result (λ row. spec.IsRow (length functions.now) (calls_directly (map (option_map view_function) functions.now) caller) row) }
{
    let callees = callees_of(alloc, &functions[caller])?;
    marks(alloc, functions.len(), callees.as_slice())
}

#[tactic(auto, using(crate::proofs::Tables::table_laws))]
fn direct(alloc: Global, functions: &[Option<Function<'_>>]) -> Result<Vec<List<bool>>, NoMemory>
    ensures { IfOk result (λ rows. spec.AreRows (length functions.now) (length functions.now) (calls_directly (map (option_map view_function) functions.now)) rows.items) }
{
    let mut rows = Vec::new(alloc);
    for caller in 0..functions.len() {
        rows.push(calls_of(alloc, functions, caller)?)?;
    }
    Ok(rows)
}

// Through one function more in each turn.
#[tactic(auto, using(crate::proofs::Reaching::reaching_laws))]
fn reached(alloc: Global, functions: &[Option<Function<'_>>]) -> Result<Vec<List<bool>>, NoMemory>
    ensures { IfOk result (λ rows. spec.AreRows (length functions.now) (length functions.now) (reaches (map (option_map view_function) functions.now)) rows.items) }
{
    let mut rows = direct(alloc, functions)?;
    for via in 0..functions.len() {
        rows = rows_through(alloc, rows.as_slice(), via)?;
    }
    Ok(rows)
}

#[tactic(auto, using(crate::proofs::Tables::least_laws))]
fn cluster_in(rows: &[List<bool>], function: usize) -> Result<Option<u32>, NoMemory>
    ensures { IfOk result (λ cluster. cluster ≡ spec.cluster_in rows.now function) }
{
    for g in 0..rows.len() {
        if entry(rows, function, g) && entry(rows, g, function) {
            if g > u32::MAX as usize {
                return Err(NoMemory);
            }
            return Ok(Some(g as u32));
        }
    }
    Ok(None)
}

#[tactic(auto, using(crate::proofs::Tables::cluster_laws))]
fn clusters_in(alloc: Global, rows: &[List<bool>]) -> Result<List<Option<u32>>, NoMemory>
    ensures { IfOk result (λ clusters. clusters ≡ spec.clusters_from rows.now (length rows.now) 0) }
{
    let mut clusters = List::new(alloc);
    for f in 0..rows.len() {
        clusters.push(cluster_in(rows, f)?)?;
    }
    Ok(clusters)
}

/// The clusters of functions that call each other, by the numbers of functions.
#[tactic(auto, using(crate::proofs::Reaching::clusters_are))]
pub fn clusters_of(
    alloc: Global,
    functions: &[Option<Function<'_>>],
) -> Result<List<Option<u32>>, NoMemory>
    ensures { IfOk result (λ clusters. (f g : ℕ) → in_cluster_of clusters f g ≡ call_each_other (map (option_map view_function) functions.now) f g) }
{
    let rows = reached(alloc, functions)?;
    let clusters = clusters_in(alloc, rows.as_slice())?;
    Ok(clusters)
}

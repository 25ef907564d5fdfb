// The links of the literals of a branch.
ghost use Rattle.std.specs.Prelude.{◌≡◌, ◌≤◌, ◌<◌, ◌++◌, ◌∷◌, [], List, All, length, map, OnOk, IfOk};
ghost use Rattle.qed_terms.specs.Tree.{Tree};
ghost use Rattle.linear_chains.specs.View.{link_of};
ghost use Rattle.same_places.specs.Same.{at};
ghost use Rattle.same_terms.specs.SameTerms.{Among};
ghost use Rattle.tree_places.specs.View.{IsKept};
ghost use Rattle.term_forms.specs.Forms.{tree_of, count_of};
ghost use Rattle.branch_links.specs.Numbered.{TellApart, StandForAll};
ghost use Rattle.class_links.specs.ClassForms.{number_for, AreLeast, opposite_link};
ghost use Rattle.linear_prover.specs.LiteralLinks.{LinksOf, beside};

use crate::literals::relation;
use class_links::{link_of, opposite};
use linear_chains::LinkForm;
use std::alloc::Global;
use std::collections::HashMap;
use term_forms::written;
use tree_places::TreeTable;
use wp_base::NoMemory;

fn single(alloc: Global, link: LinkForm) -> Result<Vec<LinkForm>, NoMemory>
    ensures { IfOk result (λ links. map link_of links.items ≡ link_of link ∷ []) }
{
    let mut links = Vec::new(alloc);
    links.push(link)?;
    Ok(links)
}

/// A link in both directions.
fn both(alloc: Global, link: LinkForm) -> Result<Vec<LinkForm>, NoMemory>
    ensures { IfOk result (λ links. map link_of links.items ≡ opposite_link (link_of link) ∷ link_of link ∷ []) }
{
    let turned = opposite(alloc, &link)?;
    let mut links = Vec::new(alloc);
    links.push(turned)?;
    links.push(link)?;
    Ok(links)
}

/// The links of a literal: one, or one for each direction, or none where it isn't one or is beyond the limit.
fn literal_links(
    alloc: Global,
    table: &TreeTable,
    classes: &[usize],
    numbers: &HashMap<usize, i128>,
    literal: usize,
) -> Result<Vec<LinkForm>, NoMemory>
    requires kept { IsKept table.now }
    requires below { literal < count_of table.now }
    requires within { length classes.now ≤ count_of table.now }
    ensures { IfOk result (λ links. (ls : List Tree) → TellApart ls (length classes.now) (tree_of table.now) (at classes.now) → AreLeast (length classes.now) (tree_of table.now) (at classes.now) (number_for numbers.now.entries) → Among (tree_of table.now literal) ls → LinksOf ls (length classes.now) (tree_of table.now) (at classes.now) (tree_of table.now literal) (map link_of links.items)) }
{
    let Some(said) = relation(table, literal) else {
        return Ok(Vec::new(alloc))
    };
    let form = written(alloc, table, said.sum)?;
    let Some(link) = link_of(alloc, &form, classes, numbers)? else {
        return Ok(Vec::new(alloc))
    };
    if said.is_equality {
        let links = both(alloc, link)?;
        return Ok(links);
    }
    let links = single(alloc, link)?;
    Ok(links)
}

/// Links, and beside each the place of its literal.
#[derive(Drop)]
pub struct LiteralLinks {
    pub links: Vec<LinkForm>,
    pub literals: Vec<usize>,
}

/// Links of one literal behind those of others.
fn put_links(all: &mut LiteralLinks, links: Vec<LinkForm>, literal: usize) -> Result<(), NoMemory>
    ensures links { OnOk result (map link_of all.new.links.items ≡ map link_of all.old.links.items ++ map link_of links.items) }
    ensures literals { OnOk result (all.new.literals.items ≡ all.old.literals.items ++ map (beside literal) (map link_of links.items)) }
{
    for link in links {
        all.links.push(link)?;
        all.literals.push(literal)?;
    }
    Ok(())
}

/// The links of some literals.
pub fn all_links(
    alloc: Global,
    table: &TreeTable,
    classes: &[usize],
    numbers: &HashMap<usize, i128>,
    literals: &[usize],
) -> Result<LiteralLinks, NoMemory>
    requires kept { IsKept table.now }
    requires below { All (λ k. k < count_of table.now) literals.now }
    requires within { length classes.now ≤ count_of table.now }
    ensures { IfOk result (λ all. TellApart (map (tree_of table.now) literals.now) (length classes.now) (tree_of table.now) (at classes.now) → AreLeast (length classes.now) (tree_of table.now) (at classes.now) (number_for numbers.now.entries) → StandForAll (map (tree_of table.now) literals.now) (length classes.now) (tree_of table.now) (at classes.now) (map link_of all.links.items) (map (tree_of table.now) all.literals.items)) }
{
    let mut all = LiteralLinks {
        links: Vec::new(alloc),
        literals: Vec::new(alloc),
    };
    for i in 0..literals.len() {
        let links = literal_links(alloc, table, classes, numbers, literals[i])?;
        put_links(&mut all, links, literals[i])?;
    }
    Ok(all)
}

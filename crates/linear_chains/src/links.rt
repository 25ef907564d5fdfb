// Links, and their two sides.
ghost use Rattle.std.specs.Prelude.{◌≡◌, map, IfOk, IfSome, int_lt, pos};
ghost use Rattle.linear_chains.specs.Links.{positive, negative, turned, step_of};
ghost use Rattle.linear_chains.specs.View.{link_of, side_step};

use std::alloc::Global;
use wp_base::NoMemory;

/// A class and its coefficient.
pub type Part = (usize, i128);

/// A linear form that is at most a bound. Its classes stand in order, each once and none with coefficient 0.
#[derive(Drop)]
pub struct LinkForm {
    pub form: Vec<Part>,
    pub bound: i128,
}

/// Links by their places, and the sum of their bounds.
#[derive(Drop)]
pub struct Refutation {
    pub places: Vec<usize>,
    pub total: i128,
}

/// A link by its two sides: `from` less `to` is at most the bound.
#[derive(Drop)]
pub struct Sides {
    pub from: Vec<Part>,
    pub to: Vec<Part>,
    pub bound: i128,
}

fn is_added(part: &Part) -> bool
    ensures { result ≡ int_lt (pos 0) part.now.1 }
{
    part.1 > 0
}

fn is_taken(part: &Part) -> bool
    ensures { result ≡ int_lt part.now.1 (pos 0) }
{
    part.1 < 0
}

fn turned(part: &Part) -> Option<Part>
    ensures { IfSome result (λ p. p ≡ turned part.now) }
{
    match part.1.checked_neg() {
        Some(times) => Some((part.0, times)),
        None => None,
    }
}

fn positive(alloc: Global, form: &[Part]) -> Result<Vec<Part>, NoMemory>
    ensures { IfOk result (λ side. side.items ≡ positive form.now) }
{
    let mut side = Vec::new(alloc);
    for part in form {
        if is_added(part) {
            side.push(*part)?;
        }
    }
    Ok(side)
}

// There is no memory for a coefficient that can't be turned.
fn negative(alloc: Global, form: &[Part]) -> Result<Vec<Part>, NoMemory>
    ensures { IfOk result (λ side. side.items ≡ negative form.now) }
{
    let mut side = Vec::new(alloc);
    for part in form {
        if is_taken(part) {
            match turned(part) {
                Some(part) => side.push(part)?,
                None => return Err(NoMemory),
            }
        }
    }
    Ok(side)
}

fn sides_of(alloc: Global, link: &LinkForm) -> Result<Sides, NoMemory>
    ensures { IfOk result (λ sides. side_step sides ≡ step_of (link_of link.now)) }
{
    let from = positive(alloc, link.form.as_slice())?;
    let to = negative(alloc, link.form.as_slice())?;
    Ok(Sides {
        from,
        to,
        bound: link.bound,
    })
}

/// The links by their sides.
pub fn all_sides(alloc: Global, links: &[LinkForm]) -> Result<Vec<Sides>, NoMemory>
    ensures { IfOk result (λ sides. map side_step sides.items ≡ map step_of (map link_of links.now)) }
{
    let mut sides = Vec::new(alloc);
    for link in links {
        sides.push(sides_of(alloc, link)?)?;
    }
    Ok(sides)
}

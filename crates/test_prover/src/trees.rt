// Terms and formulas in a row, each after its kids and each once, and their text.
use std::alloc::Global;
use test_lines::Page;
use wp_base::NoMemory;

/// What stands at a node. A number beside it tells numbers and names apart.
#[derive(Clone, Copy, PartialEq, Eq)]
pub enum Word {
    Number,
    Name,
    Memory,
    Table,
    Sum,
    Product,
    Quotient,
    Wrap,
    Load,
    Ite,
    Equal,
    AtMost,
    Live,
    Not,
    False,
    Forall,
}

/// A node over up to four kids, by their places.
#[derive(Clone, Copy, PartialEq, Eq)]
pub struct Item {
    pub word: Word,
    pub number: i128,
    pub kids: [usize; 4],
}

/// The place of what isn't there.
pub const NONE: usize = usize::MAX;

/// The item at a place.
pub fn item_at(trees: &[Item], at: usize) -> Item {
    trees.get(at).copied().unwrap_or(Item {
        word: Word::False,
        number: 0,
        kids: [NONE; 4],
    })
}

/// The place of a tree: two trees are one where their places are.
pub fn put(
    trees: &mut Vec<Item>,
    word: Word,
    number: i128,
    kids: &[usize],
) -> Result<usize, NoMemory> {
    let mut item = Item {
        word,
        number,
        kids: [NONE; 4],
    };
    for place in 0..4 {
        if let Some(kid) = kids.get(place) {
            item.kids[place] = *kid;
        }
    }
    let count = trees.len();
    for at in 0..count {
        if trees[at] == item {
            return Ok(at);
        }
    }
    trees.push(item)?;
    Ok(count)
}

// The text of a leaf, or what opens that of a tree with kids.
fn opening(word: Word, number: i128) -> &'static str {
    match word {
        Word::Number => "",
        Word::Name => match number {
            0 => "a",
            1 => "b",
            2 => "c",
            _ => "i",
        },
        Word::Memory => "M:int",
        Word::Table => "T",
        Word::Sum => "(+",
        Word::Product => "(*",
        Word::Quotient => "(div",
        Word::Wrap => "(wrap int",
        Word::Load => "(load",
        Word::Ite => "(ite",
        Word::Equal => "(=",
        Word::AtMost => "(<=",
        Word::Live => "(live",
        Word::Not => "(not",
        Word::False => "false",
        Word::Forall => "(forall i",
    }
}

/// The text of a tree that isn't deeper than this, behind a space.
pub fn put_tree(page: &mut Page, trees: &[Item], at: usize, room: usize) {
    if room == 0 {
        return;
    }
    let item = item_at(trees, at);
    page.put(" ");
    page.put(opening(item.word, item.number));
    if item.word == Word::Number {
        page.put_number(item.number);
    }
    for kid in item.kids.as_slice() {
        if *kid != NONE {
            put_tree(page, trees, *kid, room - 1);
        }
    }
    if item.kids[0] != NONE {
        page.put(")");
    }
}

// Formulas, word by word.
ghost use Rattle.std.specs.Prelude.{◌≡◌, ◌++◌, IfOk};
ghost use Rattle.view_text.specs.Text as spec;

use crate::pieces::MARGIN;
use report_read::until;
use report_shown::put;
use wp_base::NoMemory;

// How many columns a line has.
const COLUMNS: usize = 100;

fn has_room(column: usize, word: &[u8]) -> bool
    ensures { result ≡ spec.has_room column word.now }
{
    column < COLUMNS.saturating_sub(word.len())
}

#[tactic(auto, using(crate::proofs::Putting::below_put))]
fn put_below(text: &mut Vec<u8>, word: &[u8]) -> Result<(), NoMemory>
    ensures { IfOk result (λ _. text.new.items ≡ text.old.items ++ spec.word_below word.now) }
{
    put(text, b"\n")?;
    put(text, MARGIN)?;
    put(text, b"  ")?;
    put(text, word)
}

#[tactic(auto, using(crate::proofs::Putting::behind_put))]
fn put_behind(text: &mut Vec<u8>, word: &[u8]) -> Result<(), NoMemory>
    ensures { IfOk result (λ _. text.new.items ≡ text.old.items ++ spec.word_behind word.now) }
{
    put(text, b" ")?;
    put(text, word)
}

// Puts a word behind the one before it, which ends in this column, or on the next line; and answers the column in which it ends.
fn put_word(text: &mut Vec<u8>, column: usize, word: &[u8]) -> Result<usize, NoMemory>
    ensures put { IfOk result (λ _. text.new.items ≡ text.old.items ++ spec.word_put column word.now) }
    ensures column { IfOk result (λ next. next ≡ spec.next_column column word.now) }
{
    if has_room(column, word) {
        put_behind(text, word)?;
        return Ok(column + 1 + word.len());
    }
    put_below(text, word)?;
    Ok(11 + word.len())
}

/// Puts a formula on lines of its own, as many words on each as have room there.
#[tactic(auto, using(crate::proofs::Words::space_consumes), unfolding(crate::specs::Text::formula_text))]
pub fn put_formula(text: &mut Vec<u8>, formula: &[u8]) -> Result<(), NoMemory>
    ensures { IfOk result (λ _. text.new.items ≡ text.old.items ++ spec.formula_text formula.now) }
{
    let mut column = COLUMNS;
    let mut rest = formula;
    while let Some((word, behind)) = until(b' ', rest) {
        column = put_word(text, column, word)?;
        rest = behind;
    }
    put_word(text, column, rest)?;
    Ok(())
}

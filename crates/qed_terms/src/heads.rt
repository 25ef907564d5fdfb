// Heads by themselves: which are the same, and their hash.
ghost use Rattle.std.specs.Prelude.{◌≡◌, length, slice_index_or};
ghost use Rattle.qed_terms.specs.Order.{back_cmp, back_in, name_in, number_in, rank};

use crate::head::Head;
use crate::keys::sort_place;
use std::cmp::Ordering;
use std::hash::{Hash, Hasher};

impl Head {
    /// Its place in the order of heads.
    fn rank(&self) -> u8
        ensures { result ≡ rank self.now }
    {
        match self {
            Head::Num(_) => 0,
            Head::Var(_, _) => 1,
            Head::Term(op) => op.rank(),
            Head::Ite => 15,
            Head::App(_) => 19,
            Head::Form(op) => op.rank(),
            Head::True => 27,
            Head::False => 28,
            Head::Not => 29,
            Head::And => 30,
            Head::Or => 31,
            Head::Imp => 32,
            Head::Iff => 33,
            Head::Forall(_) => 34,
            Head::Exists(_) => 35,
        }
    }

    /// The number that stands before the kids.
    fn number(&self) -> i128
        ensures { result ≡ number_in self.now }
    {
        match self {
            Head::Num(value) => *value,
            Head::Term(op) => i128::from(op.number()),
            Head::Form(op) => i128::from(op.number()),
            _ => 0,
        }
    }

    /// The name that stands before the kids.
    fn name(&self) -> &[u8]
        ensures { result.now ≡ name_in self.now }
    {
        match self {
            Head::Var(name, _) => name.bytes(),
            Head::App(name) => name.bytes(),
            Head::Forall(name) => name.bytes(),
            Head::Exists(name) => name.bytes(),
            _ => &[],
        }
    }

    /// How many numbers stand after the kids, and the one at a place.
    fn back_len(&self) -> usize
        ensures { result ≡ length (back_in self.now) }
    {
        match self {
            Head::Var(_, _) => 1,
            Head::Term(op) => op.back_len(),
            Head::Form(op) => op.back_len(),
            _ => 0,
        }
    }

    #[tactic(auto, using(crate::proofs::Places::place_laws))]
    fn back(&self, at: usize) -> u32
        ensures { result ≡ slice_index_or (back_in self.now) at 0 }
    {
        match self {
            Head::Var(_, sort) => {
                if at == 0 {
                    u32::from(sort_place(*sort))
                } else {
                    0
                }
            }
            Head::Term(op) => op.back(at),
            Head::Form(op) => op.back(at),
            _ => 0,
        }
    }

    /// By what stands after the kids.
    #[tactic(auto, using(crate::proofs::Turns::number_turns))]
    fn compare_backs(&self, other: &Head) -> Ordering
        ensures { result ≡ back_cmp self.now other.now }
    {
        let count = self.back_len();
        for at in 0..count {
            if at >= other.back_len() {
                return Ordering::Greater;
            }
            match self.back(at).cmp(&other.back(at)) {
                Ordering::Less => return Ordering::Less,
                Ordering::Equal => {}
                Ordering::Greater => return Ordering::Greater,
            }
        }
        if count < other.back_len() {
            Ordering::Less
        } else {
            Ordering::Equal
        }
    }
}

/// Equal exactly where the two are one head.
impl PartialEq for Head {
    ghost use Rattle.std.specs.Cmp.{and_equiv, eq_by_cmp_equiv, int_eq_equiv, nat_eq_equiv, on_equiv, on_total, partial_equiv_from_equiv};
    ghost use Rattle.std.specs.Cmp.Lexicographic.{nat_list_cmp_total, nat_list_eq_equiv};
    ghost use Rattle.qed_terms.specs.Order.{back_in, name_in, number_in, rank, same_head};

    ghost eq = { same_head };

    ghost laws = { partial_equiv_from_equiv (and_equiv (and_equiv (and_equiv (on_equiv rank nat_eq_equiv) (on_equiv number_in int_eq_equiv)) (on_equiv name_in nat_list_eq_equiv)) (eq_by_cmp_equiv (on_total back_in nat_list_cmp_total))) };

    fn eq(&self, other: &Head) -> bool {
        self.rank() == other.rank()
            && self.number() == other.number()
            && self.name() == other.name()
            && self.compare_backs(other) == Ordering::Equal
    }
}

impl Eq for Head {
    ghost use Rattle.std.specs.Cmp.{and_equiv, eq_by_cmp_equiv, int_eq_equiv, nat_eq_equiv, on_equiv, on_total};
    ghost use Rattle.std.specs.Cmp.Lexicographic.{nat_list_cmp_total, nat_list_eq_equiv};
    ghost use Rattle.qed_terms.specs.Order.{back_in, name_in, number_in, rank};

    ghost laws = { and_equiv (and_equiv (and_equiv (on_equiv rank nat_eq_equiv) (on_equiv number_in int_eq_equiv)) (on_equiv name_in nat_list_eq_equiv)) (eq_by_cmp_equiv (on_total back_in nat_list_cmp_total)) };
}

/// A sort, a layout and the shapes of regions, which stand after the kids, aren't hashed.
impl Hash for Head {
    ghost use Rattle.std.specs.Prelude.{◌++◌};
    ghost use Rattle.std.specs.Cmp.{signed_Decides, unsigned_Decides};
    ghost use Rattle.std.specs.Ordering.{eq_by_cmp};
    ghost use Rattle.std.specs.Hash as fed;
    ghost use Rattle.std.specs.Hash.{and-Alike, first_alike, items_Alike, on_Alike, same_Alike};
    ghost use Rattle.qed_terms.specs.Order.{back_cmp, name_in, number_in, rank};

    ghost hash_input = { λ head. (fed.u8 (rank head) ++ fed.i128 (number_in head)) ++ fed.slice fed.u8 (name_in head) };

    ghost respects_eq = { (first_alike (eq_by_cmp back_cmp) (and-Alike (and-Alike (on_Alike rank (same_Alike fed.u8 unsigned_Decides)) (on_Alike number_in (same_Alike fed.i128 signed_Decides))) (on_Alike name_in (items_Alike (same_Alike fed.u8 unsigned_Decides))))).fed };

    fn hash<H: Hasher>(&self, state: &mut H) {
        self.rank().hash(state);
        self.number().hash(state);
        self.name().hash(state);
    }
}

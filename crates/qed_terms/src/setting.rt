// What the meaning of a term depends on beside the values of its names.

use crate::term::Term;
use wp_base::{List, Str};

/// What is fixed for one file and data model: how wide `long` is, 32 or 64 bits, and the recursive logic
/// functions of the file, each after those that it uses.
#[derive(Drop)]
pub struct Setting {
    pub long_bits: u8,
    pub logic: List<LogicFn>,
}

/// A recursive logic function: `base` where the parameter at the place `number` is at most `cut`, and
/// else `step`, which uses the function itself with that parameter one less. `params` are names.
#[derive(Drop)]
pub struct LogicFn {
    pub name: Str,
    pub params: List<Term>,
    pub number: u32,
    pub cut: i128,
    pub base: Term,
    pub step: Term,
}

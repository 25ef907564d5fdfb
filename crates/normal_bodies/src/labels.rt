// Labels of a switch (C11 6.8.1, 6.8.4.2).
ghost use Rattle.std.specs.Prelude.{◌≡◌, IfOk, true, false};
ghost use Rattle.normal_bodies.specs.Sought as spec;
ghost use Rattle.c_runs.specs.Run.{is_default};
ghost use Rattle.c_runs.specs.Normal as normal;
ghost use Rattle.program_trees.specs.View.{view_stmt, view_stmts};
ghost use Rattle.qed_terms.specs.Operators.{is_equal};

use program_trees::Stmt;
use wp_base::NoMemory;

/// A label that is looked for; none is the end of the switch.
#[derive(Clone, Copy)]
pub(crate) enum Sought {
    Number(i128),
    Otherwise,
    End,
}

#[tactic(auto, using(crate::proofs::Equality::same_number))]
pub(crate) fn is_same(first: i128, second: i128) -> bool
    ensures { result ≡ is_equal first second }
{
    first == second
}

/// Whether a statement is a label.
#[tactic(auto, using(program_trees::proofs::Equations::stmt_laws))]
pub(crate) fn is_label(stmt: &Stmt<'_>) -> bool
    ensures { result ≡ normal.is_label (view_stmt stmt.now) }
{
    match stmt {
        Stmt::Case(_) | Stmt::Default => true,
        Stmt::Evaluate(_)
        | Stmt::Block(_, _)
        | Stmt::Initial(_, _, _)
        | Stmt::Choose(_, _, _)
        | Stmt::Loop(_, _, _)
        | Stmt::Switch(_, _)
        | Stmt::Break
        | Stmt::Continue
        | Stmt::Return(_)
        | Stmt::Assert(_) => false,
    }
}

/// The number of a `case`.
#[tactic(auto, using(program_trees::proofs::Equations::stmt_laws))]
pub(crate) fn case_number(stmt: &Stmt<'_>) -> Option<i128>
    ensures { result ≡ spec.case_number (view_stmt stmt.now) }
{
    match stmt {
        Stmt::Case(number) => Some(*number),
        Stmt::Default
        | Stmt::Evaluate(_)
        | Stmt::Block(_, _)
        | Stmt::Initial(_, _, _)
        | Stmt::Choose(_, _, _)
        | Stmt::Loop(_, _, _)
        | Stmt::Switch(_, _)
        | Stmt::Break
        | Stmt::Continue
        | Stmt::Return(_)
        | Stmt::Assert(_) => None,
    }
}

#[tactic(auto, using(program_trees::proofs::Equations::stmt_laws))]
fn is_default(stmt: &Stmt<'_>) -> bool
    ensures { result ≡ is_default (view_stmt stmt.now) }
{
    match stmt {
        Stmt::Default => true,
        Stmt::Case(_)
        | Stmt::Evaluate(_)
        | Stmt::Block(_, _)
        | Stmt::Initial(_, _, _)
        | Stmt::Choose(_, _, _)
        | Stmt::Loop(_, _, _)
        | Stmt::Switch(_, _)
        | Stmt::Break
        | Stmt::Continue
        | Stmt::Return(_)
        | Stmt::Assert(_) => false,
    }
}

#[tactic(auto, using(crate::proofs::Finding::number_laws))]
fn is_sought(sought: Sought, stmt: &Stmt<'_>) -> bool
    ensures { result ≡ spec.meets sought (view_stmt stmt.now) }
{
    match sought {
        Sought::Number(number) => match case_number(stmt) {
            Some(other) => is_same(number, other),
            None => false,
        },
        Sought::Otherwise => is_default(stmt),
        Sought::End => false,
    }
}

/// Groups of adjacent labels on the way through a switch: how many are closed, and whether another one is open.
#[derive(Clone, Copy)]
pub(crate) struct Groups {
    is_open: bool,
    closed: u32,
}

impl Groups {
    /// How many there are. Groups that no number of 32 bits counts are want of memory.
    fn all(self) -> Result<u32, NoMemory>
        ensures { IfOk result (λ n. n ≡ spec.all self) }
    {
        if self.is_open {
            return self.closed.checked_add(1).ok_or(NoMemory);
        }
        Ok(self.closed)
    }

    /// Those behind a statement.
    fn past(self, stmt: &Stmt<'_>) -> Result<Groups, NoMemory>
        ensures { IfOk result (λ groups. groups ≡ spec.past self (view_stmt stmt.now)) }
    {
        if is_label(stmt) {
            return Ok(Groups {
                is_open: true,
                closed: self.closed,
            });
        }
        let closed = self.all()?;
        Ok(Groups {
            is_open: false,
            closed,
        })
    }
}

/// How many blocks stand between the beginning of a switch and a label.
#[tactic(auto, using(crate::proofs::Finding::index_laws))]
pub(crate) fn index_of(sought: Sought, stmts: &[Stmt<'_>]) -> Result<u32, NoMemory>
    ensures { IfOk result (λ n. n ≡ normal.index_of (spec.meets sought) false (view_stmts stmts.now)) }
{
    let mut groups = Groups {
        is_open: false,
        closed: 0,
    };
    for stmt in stmts {
        if is_sought(sought, stmt) {
            return Ok(groups.closed);
        }
        groups = groups.past(stmt)?;
    }
    groups.all()
}

/// How far the statements of a switch are made.
#[derive(Clone, Copy)]
pub(crate) struct Place {
    /// Whether the block of the last group of labels isn't closed yet.
    pub(crate) is_open: bool,
    /// How many groups of labels are to be closed.
    pub(crate) left: u32,
    pub(crate) next: u32,
}

impl Place {
    /// Behind a label.
    pub(crate) fn opened(self) -> Place
        ensures { result ≡ record { is_open = true; left = self.left; next = self.next } }
    {
        Place {
            is_open: true,
            left: self.left,
            next: self.next,
        }
    }

    /// How many groups of labels follow, where no label does.
    pub(crate) fn behind(self) -> u32
        ensures { result ≡ spec.less self.is_open self.left }
    {
        if self.is_open {
            self.left.saturating_sub(1)
        } else {
            self.left
        }
    }
}

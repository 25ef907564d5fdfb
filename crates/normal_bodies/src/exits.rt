// Where `break` and `continue` go: numbers of the core blocks that they leave (C11 6.8.6).
ghost use Rattle.std.specs.Prelude.{◌≡◌, IfOk, suc};
ghost use Rattle.c_runs.specs.Normal.{up};

use wp_base::NoMemory;

/// The blocks that `break` and `continue` leave, counted from 0 for the innermost one.
#[derive(Clone, Copy)]
pub(crate) struct Exits {
    pub(crate) on_break: u32,
    pub(crate) on_continue: u32,
}

/// A block's number from under so many more. Blocks that no number of 32 bits counts are want of memory.
#[tactic(auto, using(crate::proofs::Blocks::up_is))]
fn under(block: u32, more: u32) -> Result<u32, NoMemory>
    ensures { IfOk result (λ n. n ≡ up more block) }
{
    block.checked_add(more).ok_or(NoMemory)
}

impl Exits {
    /// The same from under so many more blocks.
    pub(crate) fn under(self, more: u32) -> Result<Exits, NoMemory>
        ensures { IfOk result (λ at. at ≡ record { on_break = up more self.on_break; on_continue = up more self.on_continue }) }
    {
        let on_break = under(self.on_break, more)?;
        let on_continue = under(self.on_continue, more)?;
        Ok(Exits {
            on_break,
            on_continue,
        })
    }

    /// Those inside a switch, where so many groups of labels follow.
    #[tactic(auto, using(crate::proofs::Blocks::up_more))]
    pub(crate) fn in_switch(self, groups: u32) -> Result<Exits, NoMemory>
        ensures { IfOk result (λ at. at ≡ record { on_break = groups; on_continue = up (suc groups) self.on_continue }) }
    {
        let more = groups.checked_add(1).ok_or(NoMemory)?;
        let on_continue = under(self.on_continue, more)?;
        Ok(Exits {
            on_break: groups,
            on_continue,
        })
    }
}

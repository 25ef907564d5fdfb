// Terms of which a round asks whether they are same: the sides of loads and the blocks of accesses.
ghost use Rattle.std.specs.Prelude.{◌≡◌, ◌++◌, OnOk};
ghost use Rattle.branch_accesses.specs.Ids.{block_ids, side_ids};

use crate::accesses::IdAccess;
use crate::loads::IdLoad;
use wp_base::NoMemory;

/// Puts the blocks and the offsets of loads behind others.
pub fn put_sides<I: Copy + Drop>(loads: &[IdLoad<I>], out: &mut Vec<I>) -> Result<(), NoMemory>
    ensures { OnOk result (out.new.items ≡ out.old.items ++ side_ids loads.now) }
{
    for load in loads {
        out.push(load.block)?;
        out.push(load.offset)?;
    }
    Ok(())
}

/// Puts the blocks of accesses behind others.
pub fn put_blocks<I: Copy + Drop>(
    accesses: &[IdAccess<I>],
    out: &mut Vec<I>,
) -> Result<(), NoMemory>
    ensures { OnOk result (out.new.items ≡ out.old.items ++ block_ids accesses.now) }
{
    for access in accesses {
        out.push(access.block)?;
    }
    Ok(())
}

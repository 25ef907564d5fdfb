// The setting of a file without logic functions that call themselves.
ghost use Rattle.std.specs.Prelude.{◌≡◌};
ghost use Rattle.c_kinds.specs.Models as models;
ghost use Rattle.plain_trees.specs.Laws.{plain_setting};
ghost use Rattle.qed_terms.specs.View.{view_setting};

use c_kinds::Machdep;
use program_trees::Facts;
use qed_terms::Setting;
use std::alloc::Global;
use wp_base::List;

fn long_bits(model: Machdep) -> u8
    ensures { result ≡ models.long_bits model }
{
    match model {
        Machdep::X86_32 => 32,
        Machdep::X86_64 => 64,
    }
}

/// The setting of a file in which no logic function calls itself.
pub fn setting_of(alloc: Global, facts: &Facts) -> Setting
    ensures { view_setting result ≡ plain_setting facts.now.model }
{
    Setting {
        long_bits: long_bits(facts.model),
        logic: List::new(alloc),
    }
}

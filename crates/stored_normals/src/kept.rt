// Normal forms, each made once.
ghost use Rattle.std.specs.Prelude.{◌≡◌, ◌⊎◌, true, [], if◌then◌else◌, Some, OnOk, IfOk};
ghost use Rattle.qed_terms.specs.Setting.{is_regular};
ghost use Rattle.qed_terms.specs.Store.{KeepsOlder};
ghost use Rattle.qed_terms.specs.View.{view_setting};
ghost use Rattle.qed_rules.specs.Rules.{step};
ghost use Rattle.qed_simplify.specs.Normal.{Normal};
ghost use Rattle.stored_normals.specs.Kept.{AreNormals, IsExact, found_in};

use crate::normal::normal_in;
use crate::settings::is_same_setting;
use qed_simplify::plain_setting;
use qed_terms::{Setting, TermStore};
use std::alloc::Global;
use std::collections::HashMap;
use std::hash::Hash;
use wp_base::NoMemory;

/// What was brought to normal form in a setting, with its normal form.
#[derive(Drop)]
pub struct Normals<I: Copy + Eq + Hash> {
    pub setting: Setting,
    pub table: HashMap<I, I>,
}

/// No normal form yet.
pub fn no_normals<S: TermStore>(alloc: Global, store: &S) -> Normals<S::Id>
    requires { IsExact S.Id.eq }
    ensures { AreNormals S.Id.eq (S.held store.now) (S.tree store.now) (view_setting result.setting) result.table.entries }
{
    Normals {
        setting: plain_setting(alloc, 64),
        table: HashMap::new(alloc),
    }
}

fn found<I: Copy + Eq + Hash>(table: &HashMap<I, I>, id: I) -> Option<I>
    ensures { result ≡ found_in I.eq table.now.entries id }
{
    table.get(&id).copied()
}

fn note<I: Copy + Eq + Hash>(table: &mut HashMap<I, I>, id: I, made: I) -> Result<(), NoMemory>
    ensures { OnOk result ((other : I) → found_in I.eq table.new.entries other ≡ (if I.eq id other then Some made else found_in I.eq table.old.entries other)) }
{
    table.insert(id, made)?;
    Ok(())
}

// In another setting all is forgotten.
fn settle_on<I: Copy + Eq + Hash>(
    alloc: Global,
    normals: &mut Normals<I>,
    world: &Setting,
) -> Result<(), NoMemory>
    ensures setting { OnOk result (normals.new.setting ≡ world.now) }
    ensures table { OnOk result ((normals.new.table.entries ≡ []) ⊎ ((normals.new.table.entries ≡ normals.old.table.entries) × (normals.new.setting ≡ normals.old.setting))) }
{
    if is_same_setting(&normals.setting, world) {
        return Ok(());
    }
    let setting = world.copy(alloc)?;
    *normals = Normals {
        setting,
        table: HashMap::new(alloc),
    };
    Ok(())
}

/// The id of the normal form of a term or a formula, in a regular setting: what was made before, or what `normal_in` makes.
pub fn normal_kept<S: TermStore>(
    alloc: Global,
    store: &mut S,
    normals: &mut Normals<S::Id>,
    id: S::Id,
    world: &Setting,
) -> Result<S::Id, NoMemory>
    requires kept { AreNormals S.Id.eq (S.held store.old) (S.tree store.old) (view_setting normals.old.setting) normals.old.table.entries }
    requires regular { is_regular (view_setting world.now) ≡ true }
    requires held { S.held store.old id }
    ensures kept { OnOk result (AreNormals S.Id.eq (S.held store.new) (S.tree store.new) (view_setting normals.new.setting) normals.new.table.entries) }
    ensures older { OnOk result (KeepsOlder (S.held store.old) (S.held store.new) (S.tree store.old) (S.tree store.new)) }
    ensures held { IfOk result (λ made. S.held store.new made) }
    ensures normal { IfOk result (λ made. Normal (step (view_setting world.now)) (S.tree store.old id) (S.tree store.new made)) }
{
    settle_on(alloc, normals, world)?;
    match found(&normals.table, id) {
        Some(made) => Ok(made),
        None => {
            let made = normal_in(alloc, store, id, world)?;
            note(&mut normals.table, id, made)?;
            // A normal form is its own.
            note(&mut normals.table, made, made)?;
            Ok(made)
        }
    }
}

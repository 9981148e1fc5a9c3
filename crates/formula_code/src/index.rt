ghost use Rattle.std.specs.Prelude.{◌≡◌, ◌≢◌, ℕ, OnErr, OnOk, []};
ghost use Rattle.formula_code.specs.Listed.{Adds, KeepsOthers, has_id, ids_under, without};

use calc_addr::NoMemory;
use std::alloc::Global;
use std::collections::HashMap;

/// The numbers of codes, by the digests of their forms.
#[derive(Drop)]
pub(crate) struct Index {
    lists: HashMap<u64, Vec<u32>>,
}

impl Index {
    pub(crate) fn new(alloc: Global) -> Index
        ensures { (digest : ℕ) → ids_under result digest ≡ [] }
    {
        Index {
            lists: HashMap::new(alloc),
        }
    }

    /// The numbers of codes with that digest.
    pub(crate) fn ids(&self, digest: u64) -> &[u32]
        ensures { result.now ≡ ids_under self.now digest }
    {
        match self.lists.get(&digest) {
            Some(ids) => ids.as_slice(),
            None => &[],
        }
    }

    pub(crate) fn add(&mut self, alloc: Global, digest: u64, id: u32) -> Result<(), NoMemory>
        ensures ok { OnOk result (Adds self.old self.new digest id) }
        ensures err { OnErr result ((other : ℕ) → ids_under self.new other ≡ ids_under self.old other) }
    {
        if let Some(ids) = self.lists.get_mut(&digest) {
            ids.push(id)?;
            return Ok(());
        }
        let mut ids = Vec::new(alloc);
        ids.push(id)?;
        self.lists.insert(digest, ids)?;
        Ok(())
    }

    /// Takes the number of a code away. Linear in the numbers with that digest.
    pub(crate) fn remove(&mut self, digest: u64, id: u32)
        ensures { KeepsOthers self.old self.new id }
    {
        let Some(ids) = self.lists.get_mut(&digest) else {
            return;
        };
        take_out(ids, id);
        if ids.is_empty() {
            self.lists.remove(&digest);
        }
    }
}

fn take_out(ids: &mut Vec<u32>, id: u32)
    ensures items { ids.new.items ≡ without id ids.old.items }
    ensures others { (other : ℕ) → other ≢ id
        → has_id ids.new.items other ≡ has_id ids.old.items other }
{
    ids.retain(|other| *other != id);
}

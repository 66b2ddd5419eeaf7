//! The places of names in a list.
ghost use Rattle.std.specs.Prelude.{◌<◌, ◌^◌, length, IfOk};
ghost use Rattle.std.specs.Ordering.{nat_cmp};
ghost use Rattle.std.specs.Cmp.Lexicographic.{slice_cmp};
ghost use Rattle.std.specs.BTreeMap.{get};
ghost use Rattle.limit_table.specs.Places.{IsIndex};

use fix_fields::Id;
use fold_law::Memory;
use std::alloc::Global;
use std::collections::BTreeMap;

/// The place of each name, from 0.
pub(crate) fn index_names(alloc: Global, names: &[Id]) -> Result<BTreeMap<Id, u32>, Memory>
    requires { length names.now < 2 ^ 32 }
    ensures { IfOk result (λ places. IsIndex names.now (get (slice_cmp nat_cmp) places)) }
{
    let mut places = BTreeMap::new(alloc);
    for (place, name) in names.iter().enumerate() {
        if places.insert(*name, place as u32).is_err() {
            return Err(Memory);
        }
    }
    Ok(places)
}

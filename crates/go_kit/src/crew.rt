//! Kits for several workers.
ghost use Rattle.std.specs.Prelude.{◌≡◌, IfOk, length, sum_by};

use crate::kit::GoKit;
use gv_base::NoMemory;
use std::alloc::Global;

/// So many kits that have loaded nothing.
pub fn new_kits(alloc: Global, count: u32) -> Result<Vec<GoKit>, NoMemory>
    ensures size { IfOk result (λ v. length v.items ≡ count) }
    ensures loads { IfOk result (λ v. sum_by (λ k. k.loads) v.items ≡ 0) }
    ensures runs { IfOk result (λ v. sum_by (λ k. k.runs) v.items ≡ 0) }
{
    let mut kits = Vec::new(alloc);
    for made in 0..count {
        let _ = made;
        kits.push(GoKit::new(alloc))?;
    }
    Ok(kits)
}

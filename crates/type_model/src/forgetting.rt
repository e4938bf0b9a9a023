//! What a table has of its types where none is declared.
ghost use Rattle.std.specs.Prelude.{◌≡◌, IfOk};
ghost use Rattle.type_model.specs.Comparing.{IsWeave};
ghost use Rattle.type_model.specs.Forgetting.{nothings};
ghost use Rattle.type_model.specs.Indexes.{AreTerms};

use crate::comparing::{parts_of, rules_out};
use crate::term::{Declared, Term};
use gv_base::NoMemory;
use settled::Net;
use std::alloc::Global;

/// Nothing beside each term.
pub fn nothings(alloc: Global, terms: &[Term]) -> Result<Vec<Option<Declared>>, NoMemory>
    ensures { IfOk result (λ v. v.items ≡ nothings terms.now) }
{
    let mut declared = Vec::new(alloc);
    for _term in terms {
        declared.push(None)?;
    }
    Ok(declared)
}

/// Which types of these terms may be compared, none of them being declared.
pub fn net_of(alloc: Global, terms: &[Term]) -> Result<Net, NoMemory>
    requires terms { AreTerms terms.now }
    ensures { IfOk result (λ net. IsWeave terms.now (nothings terms.now) net) }
{
    let mut net = Net::new(alloc);
    for term in terms {
        let parts = parts_of(alloc, term)?;
        net.reserve(parts.len())?;
        net.push(rules_out(term), &parts);
    }
    Ok(net)
}

//! Numbers of nodes.
ghost use Rattle.std.specs.Prelude.{◌≡◌, IfSome};
ghost use Rattle.go_rules.specs.Stages.{number};

/// The number of a node, as it stands in a `NodeRef`.
pub fn number(n: usize) -> Option<u32>
    ensures is { result ≡ number n }
    ensures same { IfSome result (λ k. n ≡ k) }
{
    if n < 4294967296 { Some(n as u32) } else { None }
}

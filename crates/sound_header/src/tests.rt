// The words of the rules (lists' Tests) on values, without branches.
ghost use Rattle.std.specs.Prelude.{◌≡◌};
ghost use Rattle.lists.specs.Tests.{◌from◌to◌, ◌implies◌};

pub fn between(low: u64, x: u64, high: u64) -> bool
    ensures { result ≡ x from low to high }
{
    (low <= x) & (x <= high)
}

pub fn implies(first: bool, second: bool) -> bool
    ensures { result ≡ (first implies second) }
{
    !first | second
}

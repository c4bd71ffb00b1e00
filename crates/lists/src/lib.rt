// Laws of lists, of computed tests and of results that can be refused, for every crate above. They are all in specs/: the code is one test.
#![tactic(auto)]

ghost use Rattle.std.specs.Prelude.{◌≡◌};
ghost use Rattle.lists.specs.Trusted.Tests.{within as in_range};

// The number is neither below the least nor above the greatest.
pub fn within(least: u32, greatest: u32, n: u32) -> bool
    ensures { result ≡ in_range least greatest n }
{
    (least..=greatest).contains(&n)
}

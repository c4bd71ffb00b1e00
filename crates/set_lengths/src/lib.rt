// The lengths of a set's sheets.
#![tactic(auto)]

ghost use Rattle.std.specs.Prelude.{◌≡◌, ◌≤◌, length};
ghost use Rattle.lists.specs.Trusted.Lists.{sum};
ghost use Rattle.set_lengths.specs.Trusted.Lengths.{is_whole};

// The most sheets of a set.
const MOST_SHEETS: usize = 16;

// The sum of the lengths of at most sixteen sheets.
fn total(lengths: &[u32]) -> u64
    requires { length lengths.now ≤ 16 }
    ensures { result ≡ sum (λ n. n) lengths.now }
{
    let mut sum = 0;
    for &length in lengths {
        sum += u64::from(length);
    }
    sum
}

// There are lengths of 1 to 16 sheets, and they add up to the text's size.
pub fn whole(lengths: &[u32], size: usize) -> bool
    ensures { result ≡ is_whole lengths.now size }
{
    (1..=MOST_SHEETS).contains(&lengths.len()) && total(lengths) == size as u64
}

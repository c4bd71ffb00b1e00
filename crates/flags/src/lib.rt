// Flags packed into words of 64: flag n is bit n % 64 of word n / 64. A word more for each 64 flags is all that a wider range costs.
#![tactic(auto)]

ghost use Rattle.std.specs.Prelude.{◌≡◌};
ghost use Rattle.flags.specs.Flags.{flag_at, raised};

// Flag n; it is down where no word has it.
pub fn flag(words: &[u64], n: usize) -> bool
    ensures { result ≡ flag_at words.now n }
{
    words
        .get(n / 64)
        .is_some_and(|word| (word >> (n % 64)) % 2 == 1)
}

// Raises flag n, where a word has it.
pub fn raise(words: &mut [u64], n: usize)
    ensures { words.new ≡ raised words.old n }
{
    let at = n / 64;
    if at < words.len() {
        words[at] |= 1u64 << (n % 64);
    }
}

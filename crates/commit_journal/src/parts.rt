//! The parts of a journal's text.
ghost use Rattle.std.specs.Prelude.{◌≡◌, ◌≢◌, ◌<◌, ◌^◌, ◌++◌, ℕ, List, MatchOption, true};
ghost use Rattle.std.specs.Fmt.{decimal};
ghost use Rattle.std.specs.Str.{bytes_eq};
ghost use Rattle.commit_journal.specs.Parts.{Lacks, IsNumber, IsCut, IsBody, IsRemoval, IsWriting, is_plain};

/// Whether the two are the same bytes.
pub fn are_same(one: &[u8], other: &[u8]) -> bool
    ensures { result ≡ bytes_eq one.now other.now }
{
    one == other
}

// What follows the word where the text begins with it.
fn after<'a>(text: &'a [u8], word: &[u8]) -> Option<&'a [u8]>
    ensures { MatchOption result ((rest : List ℕ) → text.now ≢ word.now ++ rest) (λ rest. text.now ≡ word.now ++ rest.now) }
{
    text.strip_prefix(word)
}

/// The parts of the text around its first such byte, or None where it has none. One pass over the text, and no memory.
pub fn cut(text: &[u8], byte: u8) -> Option<(&[u8], &[u8])>
    ensures { MatchOption result (Lacks byte text.now) (λ p. IsCut byte text.now p.0.now p.1.now) }
{
    for (i, b) in text.iter().enumerate() {
        if *b == byte {
            return Some((&text[..i], &text[i + 1..]));
        }
    }
    None
}

// `parse` would also take a plus and zeros before the digits.
fn is_plain(digits: &[u8]) -> bool
    ensures { result ≡ is_plain digits.now }
{
    match digits {
        [] => false,
        [a] => *a != b'+',
        [a, _, ..] => *a != b'+' && *a != b'0',
    }
}

// The number that plain digits spell.
fn value_of(digits: &[u8]) -> Option<usize>
    ensures { MatchOption result ((n : ℕ) → n < 2 ^ 64 → digits.now ≢ decimal n)
        (λ n. is_plain digits.now ≡ true → digits.now ≡ decimal n) }
{
    match std::str::from_utf8(digits) {
        Ok(text) => text.parse::<usize>().ok(),
        Err(_) => None,
    }
}

// The number that these digits spell, with no zero before it.
#[tactic(auto, using(crate::proofs::Numbers::numbers))]
fn number(digits: &[u8]) -> Option<usize>
    ensures { MatchOption result ((n : ℕ) → IsNumber digits.now n → ⊥) (λ n. IsNumber digits.now n) }
{
    if is_plain(digits) {
        value_of(digits)
    } else {
        None
    }
}

// The bytes after their length, and what follows them.
#[tactic(auto, using(crate::proofs::Lines::bodies))]
fn body_of(text: &[u8]) -> Option<(&[u8], &[u8])>
    ensures { MatchOption result ((bytes rest : List ℕ) → IsBody text.now bytes rest → ⊥)
        (λ p. IsBody text.now p.0.now p.1.now) }
{
    let (digits, rest) = cut(text, b'\n')?;
    let size = number(digits)?;
    let (bytes, rest) = rest.split_at_checked(size)?;
    let rest = after(rest, b"\n")?;
    Some((bytes, rest))
}

/// The path and the bytes of an entry that sets a file, and what follows it.
#[tactic(auto, using(crate::proofs::Lines::writings))]
pub fn writing_of(text: &[u8]) -> Option<(&[u8], &[u8], &[u8])>
    ensures { MatchOption result ((path bytes rest : List ℕ) → IsWriting text.now path bytes rest → ⊥)
        (λ p. IsWriting text.now p.0.now p.1.now p.2.now) }
{
    let rest = after(text, b"set ")?;
    let (path, rest) = cut(rest, b' ')?;
    let (bytes, rest) = body_of(rest)?;
    Some((path, bytes, rest))
}

/// The path of an entry that takes a file away, and what follows it.
#[tactic(auto, using(crate::proofs::Lines::removals))]
pub fn removal_of(text: &[u8]) -> Option<(&[u8], &[u8])>
    ensures { MatchOption result ((path rest : List ℕ) → IsRemoval text.now path rest → ⊥)
        (λ p. IsRemoval text.now p.0.now p.1.now) }
{
    let rest = after(text, b"remove ")?;
    cut(rest, b'\n')
}

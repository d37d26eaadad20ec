//! The place of an identifier among rising ones.

ghost use Rattle.std.specs.Prelude.{◌≡◌, ◌<◌, ◌+◌, ℕ, false, length, slice_index, IsTrue, IfSome, IfNone};
ghost use Rattle.std.specs.List.Sorted.{IsStrictlyIncreasing};
ghost use Rattle.pg_arena.specs.Mirrors.Links.{is_among};

/// Whether no number is missing between the least identifier and the greatest, so that each place determines its
/// identifier.
#[inline(always)]
fn is_run(identifiers: &[u32]) -> bool
    requires { IsStrictlyIncreasing identifiers.now }
    ensures { IsTrue result → (i : ℕ) → i < length identifiers.now
        → slice_index identifiers.now i ≡ slice_index identifiers.now 0 + i }
{
    match (identifiers.first(), identifiers.last()) {
        (Some(least), Some(last))
            if last.saturating_sub(*least) as usize == identifiers.len() - 1 => { true }
        _ => false,
    }
}

/// Returns the identifier at a place. If no number is missing, the list isn't read there.
#[inline(always)]
pub(crate) fn identifier_at(identifiers: &[u32], place: u32) -> u32
    requires rising { IsStrictlyIncreasing identifiers.now }
    requires within { place < length identifiers.now }
    ensures { result ≡ slice_index identifiers.now place }
{
    if is_run(identifiers) {
        return identifiers[0].wrapping_add(place);
    }
    identifiers[place as usize]
}

/// Returns the place of an identifier, if there is one. It looks first where the identifier would be if no number were
/// missing between the least one and it.
pub(crate) fn place_of(identifiers: &[u32], identifier: u32) -> Option<usize>
    requires { IsStrictlyIncreasing identifiers.now }
    ensures within { IfSome result (λ i. i < length identifiers.now) }
    ensures found { IfSome result (λ i. slice_index identifiers.now i ≡ identifier) }
    ensures missing { IfNone result (is_among identifiers.now identifier ≡ false) }
{
    let least = identifiers.first()?;
    if identifier < *least {
        return None;
    }
    let guess = (identifier - *least) as usize;
    if is_run(identifiers) {
        return if guess < identifiers.len() {
            Some(guess)
        } else {
            None
        };
    }
    if guess < identifiers.len() && identifiers[guess] == identifier {
        return Some(guess);
    }
    match identifiers.binary_search(&identifier) {
        Ok(place) => Some(place),
        Err(_) => None,
    }
}

// Places as flags: one for each place up to some number of them.
ghost use Rattle.std.specs.{Prelude.{◌≡◌, ◌+◌, ◌<◌, ◌≤◌, [], ◌∷◌, length, drop, All, IfNone, IfOk, IfSome, OnErr, OnOk}, BTreeSet.insert_key, Ordering.nat_cmp};
ghost use Rattle.wsm_settle.specs.Places.{flagged};

use std::alloc::Global;
use wsm_lists::NoMemory;

/// So many flags, none of which is raised.
pub fn no_flags(alloc: Global, places: usize) -> Result<Vec<bool>, NoMemory>
    ensures { IfOk result (λ flags. flagged 0 flags.items ≡ []) }
{
    let mut flags = Vec::new(alloc);
    flags.resize(places, false)?;
    Ok(flags)
}

/// The flag of the place is raised.
pub fn set_flag(flags: &mut Vec<bool>, place: usize) -> Result<(), NoMemory>
    ensures ok { OnOk result (flagged 0 flags.new.items ≡ insert_key nat_cmp (flagged 0 flags.old.items) place) }
    ensures err { OnErr result (flagged 0 flags.new.items ≡ flagged 0 flags.old.items) }
{
    hold_flag(flags, place)?;
    flags[place] = true;
    Ok(())
}

// There is a flag of the place.
fn hold_flag(flags: &mut Vec<bool>, place: usize) -> Result<(), NoMemory>
    ensures ok { OnOk result (place < length flags.new.items) }
    ensures same { flagged 0 flags.new.items ≡ flagged 0 flags.old.items }
{
    if place < flags.len() {
        return Ok(());
    }
    match place.checked_add(1) {
        None => Err(NoMemory),
        Some(len) => flags.resize(len, false),
    }
}

/// The least place whose flag is raised, which is then lowered. All are above that one.
pub fn take_flag(flags: &mut Vec<bool>, above: usize) -> Option<usize>
    requires { All (λ y. above < y) (flagged 0 flags.old.items) }
    ensures removal { IfSome result (λ place. flagged 0 flags.old.items ≡ place ∷ flagged 0 flags.new.items) }
    ensures above { IfSome result (λ place. All (λ y. place < y) (flagged 0 flags.new.items)) }
    ensures none { IfNone result ((flagged 0 flags.old.items ≡ []) × (flagged 0 flags.new.items ≡ [])) }
{
    let place = next_flag(flags, above.saturating_add(1))?;
    flags[place] = false;
    Some(place)
}

// The least place whose flag is raised. None is before that one.
fn next_flag(flags: &[bool], from: usize) -> Option<usize>
    requires { All (λ y. from ≤ y) (flagged 0 flags.now) }
    ensures within { IfSome result (λ place. place < length flags.now) }
    ensures found { IfSome result (λ place. flagged 0 flags.now ≡ place ∷ flagged (place + 1) (drop (place + 1) flags.now)) }
    ensures none { IfNone result (flagged 0 flags.now ≡ []) }
{
    for place in from..flags.len() {
        if flags[place] {
            return Some(place);
        }
    }
    None
}

// Whether a source can be cooked, and how.
ghost use Rattle.std.specs.Prelude.{◌≡◌, ℕ, ◌≤◌, List, length, IfSome, IfOk, IsUtf8, MatchResult};
ghost use Rattle.std.specs.Str.{IsValidUpTo};
ghost use Rattle.tail.specs.declared.Refusal.TheVariants.{NotUtf8};
ghost use Rattle.tail.specs.Cook.{answered, written, cooked};
ghost use Rattle.tail.specs.Patches.{size, verdict, overwritten, outcome};

use super::Refusal;
use super::patch::Patch;
use super::repair::repair;
use std::str::from_utf8;

// The text of a source, or how much of it is valid.
fn text_of(source: &[u8]) -> Result<&str, Refusal>
    ensures { MatchResult result (λ s. (s.now ≡ source.now) × IsUtf8 source.now) (λ e. (IsUtf8 source.now → ⊥) × ((n : ℕ) × IsValidUpTo source.now n × (e ≡ NotUtf8 n))) }
{
    from_utf8(source).map_err(|e| Refusal::NotUtf8(e.valid_up_to()))
}

// The patch that cooks the source, if it needs one, or the refusal for an output of so much room.
pub fn judge(source: &[u8], room: usize) -> Result<Option<Patch<'_>>, Refusal>
    ensures value { verdict result ≡ answered source.now room }
    ensures after { (out : List ℕ) → length out ≡ room → overwritten result out ≡ written source.now out }
    ensures text { IfOk result (λ o. outcome o source.now ≡ cooked source.now) }
    ensures bound { IfOk result (λ o. IfSome o (λ p. size p ≤ room)) }
{
    let text = text_of(source)?;
    let Some(patch) = repair(text) else {
        return Ok(None);
    };
    let needed = patch.size();
    if needed > room as u128 {
        return Err(Refusal::TooShort(needed));
    }
    Ok(Some(patch))
}

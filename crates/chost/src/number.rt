// A refusal as one number.
ghost use Rattle.std.specs.Prelude.{◌≡◌};
ghost use Rattle.chost.specs.Number.{number_of};

use refusals::refusal::Refusal;

// The refusal's number, with its first place 8 bits up and its second place 24 bits up.
pub(crate) fn number_of(refusal: Refusal) -> u64
    ensures { result ≡ number_of refusal }
{
    let first = u64::from(refusal.first);
    let second = u64::from(refusal.second);
    u64::from(refusal.number) + 256 * first + 16_777_216 * second
}

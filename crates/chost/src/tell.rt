// What a call answers, and what it leaves in the area.
ghost use Rattle.std.specs.Prelude.{◌≡◌, ◌≤◌, length};
ghost use Rattle.chost.specs.Called.{answer_of, area_after, CanBeTold};

use crate::area::lay_out;
use crate::number::number_of;
use headers::mark::Mark;
use readers::read::Reading;
use refusals::refusal::Refusal;

// Answers the number of a reading's ending, and lays the reading out in the area; or answers the
// number of a refusal.
pub(crate) fn tell(answer: Result<Reading, Refusal>, marks: &[Mark], area: &mut [u8]) -> u64
    requires { CanBeTold answer (length marks.now) (length area.old) }
    ensures answer { result ≡ answer_of answer }
    ensures area { area.new ≡ area_after answer marks.now area.old }
{
    match answer {
        Ok(reading) => {
            lay_out(&reading, marks, area);
            u64::from(u8::from(reading.outcome.ending))
        }
        Err(refusal) => number_of(refusal),
    }
}

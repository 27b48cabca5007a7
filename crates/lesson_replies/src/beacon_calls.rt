// The call on beacon timeslots.
ghost use Rattle.std.specs.Prelude.{◌≡◌};
ghost use Rattle.refusals.specs.Refusals.{said};
ghost use Rattle.lesson_replies.specs.Replies.{beacon_asked};

use crate::replies::Reply;
use beacons::Beacons;
use lesson_words::numbers::Values;
use refusals::Refusal;

pub fn beacon(v: Values) -> Result<Reply, Refusal>
    ensures { said result ≡ beacon_asked v }
{
    Ok(match beacons::beacon(v.first, v.second)? {
        Beacons::One(t) => Reply::Beacon(t),
        Beacons::Two(t, u) => Reply::Beacons(t, u),
    })
}

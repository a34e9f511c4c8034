// The track's rules in plain numbers: where it may be homed, when it may step, and where a travel leads.

#![tactic(auto)]

ghost use Rattle.std.specs.Prelude.{◌≡◌};
ghost use Rattle.refusals.specs.Numbers.{number_in};
ghost use Rattle.track_rules.specs.Rules.{home_refusal, state_refusal, arrival_of, arrive};

use recent::Recent;
use refusals::Refusal;

// 11 where (y, x) is no homing place.
pub fn home_refusal(y: i32, x: i32) -> Result<(), Refusal>
    ensures { number_in result ≡ home_refusal y x }
{
    if !signed::within(y, 1000000) {
        return Err(Refusal::Homing);
    }
    if !signed::within(x, 1000000) {
        return Err(Refusal::Homing);
    }
    Ok(())
}

// 31 or 32 where a track in this state may not step.
pub fn state_refusal(homed: bool, steps: u32, travels: Recent) -> Result<(), Refusal>
    ensures { number_in result ≡ state_refusal homed steps travels }
{
    if !homed {
        return Err(Refusal::NotHomed);
    }
    if 1000000 <= steps {
        return Err(Refusal::NoStep); // the steps have ended
    }
    if !recent::recent_ok(travels) {
        return Err(Refusal::NoStep); // a fault in the travels held
    }
    Ok(())
}

// The reverse of the reading (dy, dx) of so many voters, added to the place (y, x); or 52, or 33 where a part would leave its range.
pub fn arrive(y: i32, x: i32, dy: i32, dx: i32, voters: u32) -> Result<(i32, i32), Refusal>
    ensures { arrival_of result ≡ arrive y x dy dx voters }
{
    if voters == 0 {
        return Err(Refusal::NoVoter);
    }
    let row = signed::minus_travel(y, dy).ok_or(Refusal::OutOfRange)?;
    let column = signed::minus_travel(x, dx).ok_or(Refusal::OutOfRange)?;
    Ok((row, column))
}

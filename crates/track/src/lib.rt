// The track, by value: where the paper stands. Home sets it, a step adds the travel of a pair of pictures; each hands the track and an answer back.

#![tactic(auto)]

ghost use Rattle.std.specs.Prelude.{◌≡◌, T};
ghost use Rattle.order.specs.Vectors.{vec, Within};
ghost use Rattle.refusals.specs.Numbers.{number_of, number_in};
ghost use Rattle.track_rules.specs.Rules.{may_step};
ghost use Rattle.track.specs.Track.{track_new, track_home, step_refusal, unmoved, arrived, step_result, track_step};

use field::FieldAnswer;
use recent::Recent;
use refusals::{Refusal, Request};

// Homed or not, the place, the steps since it was homed, and the last 64 travels.
#[repr(C)]
#[derive(Clone, Copy)]
pub struct Track {
    pub homed: bool,
    pub y: i32,
    pub x: i32,
    pub steps: u32,
    pub recent: Recent,
}

// What Home answers.
#[repr(C)]
#[derive(Clone, Copy)]
pub struct Homed {
    pub refusal: u32,
    pub track: Track,
}

// What a step answers: the track, and all that the field call answers.
#[repr(C)]
#[derive(Clone, Copy)]
pub struct Stepped {
    pub answer: FieldAnswer,
    pub track: Track,
}

// A refused step: the number, zeros and the old track.
fn unmoved(refusal: Refusal, t: Track) -> Stepped
    ensures { result ≡ unmoved (number_of refusal) t }
{
    Stepped {
        answer: field::refused_field(refusal.into()),
        track: t,
    }
}

impl Track {
    // New: not homed, 0, 0, 0, no travels.
    pub fn new() -> Track
        ensures { result ≡ track_new }
    {
        Track {
            homed: false,
            y: 0,
            x: 0,
            steps: 0,
            recent: recent::no_travels(),
        }
    }

    // Home: the place (y, x) and no travels, or 11 and the old track.
    pub fn home(self, y: i32, x: i32) -> Homed
        ensures { result ≡ track_home self y x }
    {
        if let Err(refusal) = track_rules::home_refusal(y, x) {
            return Homed {
                refusal: refusal.into(),
                track: self,
            };
        }
        Homed {
            refusal: 0,
            track: Track {
                homed: true,
                y,
                x,
                steps: 0,
                recent: recent::no_travels(),
            },
        }
    }

    // The refusals of a step that are tested before anything is filled: the field's, then 31 and 32.
    pub fn step_refusal(
        self,
        older: usize,
        newer: usize,
        q: Request,
        list: usize,
        table: usize,
    ) -> Result<(), Refusal>
        ensures { number_in result ≡ step_refusal self older newer q list table }
    {
        field_rules::field_refusal(older, newer, q, list, table)?;
        let travels = self.recent;
        track_rules::state_refusal(self.homed, self.steps, travels)
    }

    // The reading's reverse added to the place and to the travels, or 52 or 33 and the old track.
    fn arrive(self, a: FieldAnswer) -> Stepped
        requires { T (may_step self.steps self.recent) × Within 16 (vec a.dy a.dx) }
        ensures { result ≡ arrived self a }
    {
        let travels = self.recent;
        match track_rules::arrive(self.y, self.x, a.dy, a.dx, a.voters) {
            Err(refusal) => unmoved(refusal, self),
            Ok((row, column)) => Stepped {
                answer: a,
                track: Track {
                    homed: true,
                    y: row,
                    x: column,
                    steps: self.steps + 1,
                    recent: recent::recent_more(travels, -a.dy, -a.dx),
                },
            },
        }
    }

    // Step: the travel of a pair added to the place, with list and table filled, or a refusal and the old track.
    pub fn step(
        self,
        older: &[u8],
        newer: &[u8],
        q: Request,
        list: &mut [i32],
        table: &mut [u32],
    ) -> Stepped
        ensures { step_result result list.new table.new
            ≡ track_step self older.now newer.now q list.old table.old }
    {
        if let Err(refusal) = self.step_refusal(
            older.len(),
            newer.len(),
            q,
            list.len(),
            table.len(),
        ) {
            return unmoved(refusal, self);
        }
        let answer = field::field(older, newer, q, list, table);
        self.arrive(answer)
    }
}

// What the arrays answer.
ghost use Rattle.std.specs.Prelude.{◌≡◌, ◌≤◌, ◌<◌};
ghost use Rattle.words.specs.Definitions.{most_picks};
ghost use Rattle.cells.specs.Lanes.{centre_entries};
ghost use Rattle.models.specs.Iterator.{radius_of, is_ending, period_at};
ghost use Rattle.models.specs.Answers.{RadiusIs, LongestIs, NextIs};
ghost use Rattle.iterator.specs.Says.{shorter_says};

use crate::reflection::reflected_radius;
use cells::{ByCentre, Centre, Numbers, entry};
use models::Shorter;

// The centre of the longest ending, the paper's maxPal: the stored one, brought into range.
pub fn longest(n: usize, stored: Centre) -> Centre
    requires { n ≤ most_picks }
    ensures { LongestIs n stored.0 result.0 }
{
    Centre(stored.0.min(2 * n + 1).max(1))
}

// The least period of the ending of len picks at c: the next ending's centre less c, brought into 1 to len.
pub fn period_at(next: &ByCentre, c: Centre, len: usize) -> usize
    requires { c.0 < centre_entries }
    ensures { result ≡ period_at next.now c.0 len }
{
    let after = usize::from(next[c.0]);
    after.saturating_sub(c.0).min(len).max(1)
}

// What is read of the mirrored stretches of a draft of these numbers: the radii.
#[derive(Clone, Copy)]
pub struct Radii<'a> {
    pub radius: &'a ByCentre,
    pub held: Numbers,
    pub ghost picks: { held.n ≤ most_picks },
}

impl Radii<'_> {
    // The radius at c, where s is the centre of the longest ending.
    fn radius_from(&self, s: Centre, c: Centre) -> usize
        requires { s.0 < 65536 }
        ensures { result ≡ radius_of self.now.radius.now self.now.held.n s.0 c.0 }
    {
        if c.0 <= s.0 {
            return usize::from(entry(self.radius, c, 0));
        }
        reflected_radius(self.radius, self.held.n, s, c)
    }

    // The radius of the longest mirrored stretch at c, the paper's rad.
    #[tactic(auto, using(models::proofs::Answers::radius_promised))]
    pub fn radius_at(&self, c: Centre) -> usize
        ensures { RadiusIs self.now.radius.now self.now.held.n self.now.held.longest.0 c.0 result }
    {
        self.radius_from(longest(self.held.n, self.held.longest), c)
    }

    // Whether c is the centre of an ending that is not empty.
    fn is_ending(&self, s: Centre, c: Centre) -> bool
        requires { s.0 < 65536 }
        ensures { result ≡ is_ending self.now.radius.now self.now.held.n s.0 c.0 }
    {
        let n = self.held.n;
        if s.0 <= c.0 {
            if c.0 <= 2 * n {
                return self.radius_from(s, c) == n.saturating_sub(c.0 / 2);
            }
        }
        false
    }

    // The next shorter ending after the one at c, the paper's nextPal;
    // none where c belongs to no ending or to the empty one.
    pub fn next_shorter(&self, next: &ByCentre, c: Centre) -> Option<Shorter>
        ensures { NextIs self.now.radius.now next.now self.now.held.n self.now.held.longest.0 c.0 (shorter_says result) }
    {
        let n = self.held.n;
        if self.is_ending(longest(n, self.held.longest), c) {
            let length = 2 * n + 1 - c.0;
            let period = period_at(next, c, length);
            return Some(Shorter {
                centre: Centre(c.0 + period),
                length,
                period,
            });
        }
        None
    }
}

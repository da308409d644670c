// The state in the parts that are lent, and a call on it.
ghost use Rattle.std.specs.Prelude.{◌≡◌, []};
ghost use Rattle.promises.specs.Book.{start, feed, back};
ghost use Rattle.drive.specs.Script.{buffers};
ghost use Rattle.drive.specs.Calling.{Makes, Lent, Answers};
ghost use Rattle.drive.specs.State.{draft_of, SameParts};

use crate::numbers::Op;
use crate::request::Request;
use crate::told::{Told, feed_told, told};
use cells::{Centre, Centres, Letters, Lifts, Marks, Numbers, Place, Places};

// The arrays as they are lent, and the numbers, which a call that changes them gives back.
#[derive(Drop)]
pub struct State<'a> {
    pub letters: &'a mut Letters,
    pub codes: &'a mut Letters,
    pub lifts: &'a mut Lifts,
    pub marks: &'a mut Marks,
    pub centres: &'a mut Centres,
    pub places: &'a mut Places,
    pub numbers: Numbers,
}

impl State<'_> {
    // A start, with its answer.
    fn start(&mut self, k: u8) -> Told
        ensures same { SameParts self.new self.old }
        ensures makes { Makes (draft_of self.old) (start k) result (draft_of self.new) [] [] }
    {
        let held = self.numbers;
        let answer = calls::start::start(
            self.letters,
            self.codes,
            self.lifts,
            self.marks,
            self.centres,
            self.places,
            held,
            k,
        );
        self.numbers = answer.unwrap_or(held);
        told(answer)
    }

    // A feed; visits is the list that it is lent.
    fn feed(&mut self, pick: u8, visits: &mut [u16]) -> Told
        ensures same { SameParts self.new self.old }
        ensures makes { Makes (draft_of self.old) (feed pick visits.old) result (draft_of self.new) visits.new [] }
    {
        let held = self.numbers;
        let step = calls::feed::feed(
            self.letters,
            self.codes,
            self.lifts,
            self.centres,
            self.places,
            visits,
            held,
            pick,
        );
        self.numbers = step.numbers;
        feed_told(step.answer)
    }

    // Going back to a mark.
    fn back(&mut self, name: u8) -> Told
        ensures same { SameParts self.new self.old }
        ensures makes { Makes (draft_of self.old) (back name) result (draft_of self.new) [] [] }
    {
        let held = self.numbers;
        let answer = calls::back::back(
            self.letters,
            self.codes,
            self.lifts,
            self.marks,
            self.centres,
            self.places,
            held,
            name,
        );
        self.numbers = answer.unwrap_or(held);
        told(answer)
    }

    // The call of a request; input, list and bytes are what it is lent.
    pub fn call(&mut self, q: Request, input: &[u8], list: &mut [u16], bytes: &mut [u8]) -> Told
        requires { Lent q list.old bytes.old }
        ensures same { SameParts self.new self.old }
        ensures makes { Answers (draft_of self.old) q (buffers list.old bytes.old input.now) result
            (draft_of self.new) list.new bytes.new }
    {
        let b = q.b;
        let i = Place(q.x);
        let c = Centre(q.x);
        let held = self.numbers;
        let centres = &*self.centres;
        let places = &*self.places;
        let radii = &centres.radius;
        let rows = &places.rows;
        match q.op {
            Op::Start => self.start(b),
            Op::Feed => self.feed(b, list),
            Op::Load => told(calls::load::load(self.lifts, held, input)),
            Op::Mark => told(calls::mark::mark(self.marks, held, b)),
            Op::Back => self.back(b),
            Op::Split => told(calls::split::split(rows, radii, held, i, b, list)),
            Op::LongestEnding => told(calls::longest::longest(held)),
            Op::Mask => told(calls::mask::mask(rows, held, i)),
            Op::RadiusAt => told(calls::radius::radius(radii, held, c)),
            Op::NextShorter => told(calls::next::next(radii, &centres.next, held, c)),
            Op::Record => told(calls::fold::fold(self.letters, rows, radii, held, i, b, bytes)),
            Op::Lift => told(calls::lift::lift(self.lifts, held, b)),
        }
    }
}

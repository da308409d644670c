// The section that begins at a place of a record, found while the whole record is read.
ghost use Rattle.std.specs.Prelude.{◌≡◌, ◌*◌, ◌≤◌};
ghost use Rattle.words.specs.Definitions.{most_picks, most_sections};
ghost use Rattle.layout.specs.Yield.{turn_of, section_after, nothing_at};
ghost use Rattle.promises.specs.Promises.{SectionPromise};
ghost use Rattle.reader.specs.Numbers.{Small};
ghost use Rattle.reader.specs.SectionCode.{sought, noted, begun, searched, settled};

use crate::step::{State, step};
use cells::Place;
use layout::{Found, Section, Turn};

// The middle of a section of len picks after the first a.
#[tactic(auto, unfolding(layout::specs::Yield::turn_of))]
fn turn_of(a: usize, len: usize) -> Turn
    requires { (a ≤ most_sections * most_picks) × (len ≤ most_picks) }
    ensures { result ≡ turn_of a len }
{
    if len % 2 == 1 {
        Turn::OnPick(Place(a + (len + 1) / 2))
    } else {
        Turn::Between(Place(a + len / 2))
    }
}

#[tactic(auto, unfolding(layout::specs::Yield::section_after))]
fn section_after(a: usize, len: usize) -> Section
    requires { (a ≤ most_sections * most_picks) × (len ≤ most_picks) }
    ensures { result ≡ section_after a len }
{
    Section {
        length: len,
        turn: turn_of(a, len),
    }
}

fn nothing(at: usize) -> Found
    ensures { result ≡ nothing_at at }
{
    Found {
        yielded: None,
        next: at,
    }
}

// The search for the section that begins at a place: what is found so far, and the first byte of the section being read.
#[derive(Clone, Copy)]
struct Search {
    at: usize,
    found: Found,
    from: usize,
}

impl Search {
    // Whether the section just read is the one sought, `whole` standing before it.
    fn sought(self, whole: usize) -> bool
        ensures { result ≡ sought self.at self.from whole }
    {
        if self.at == 0 {
            whole == 0
        } else {
            self.at == self.from
        }
    }

    // What is found after a step from s to t: the section that it reads whole, where that is sought.
    #[tactic(auto, unfolding(crate::specs::SectionCode::noted))]
    fn noted(self, s: State, t: State, next: usize) -> Found
        requires { Small s }
        ensures { result ≡ noted self.found s t self.at self.from next }
    {
        match (s, t) {
            (State::InHalf { read, length, .. }, State::InLength { .. } | State::Closed(_))
                if self.sought(read.whole) => {
                Found {
                    yielded: Some(section_after(read.sum, length)),
                    next,
                }
            }
            _ => self.found,
        }
    }

    // The first byte of the section being read, after a step from s to t.
    #[tactic(auto, unfolding(crate::specs::SectionCode::begun))]
    fn begun(self, s: State, t: State, next: usize) -> usize
        ensures { result ≡ begun self.from s t next }
    {
        match (s, t) {
            (State::InLength { .. }, State::InLength { .. }) => self.from,
            (_, State::InLength { .. }) => next,
            _ => self.from,
        }
    }

    // After a step from s to t, by the byte right before next.
    fn after(self, s: State, t: State, next: usize) -> Self
        requires { Small s }
        ensures { result ≡ searched self s t next }
    {
        Search {
            at: self.at,
            found: self.noted(s, t, next),
            from: self.begun(s, t, next),
        }
    }

    // What was found counts only in a record that 11 and 12 let pass.
    #[tactic(auto, unfolding(crate::specs::SectionCode::settled))]
    fn settled(self, s: State) -> Found
        ensures { result ≡ settled s self.found self.at }
    {
        match s.totals() {
            Some(t) if t.sum == t.picks => self.found,
            _ => nothing(self.at),
        }
    }
}

// What a reader yields at a place, and the place after it.
#[tactic(auto, using(crate::specs::ScanCode::scan_small))]
pub fn section_at(bytes: &[u8], at: usize) -> Found
    ensures { SectionPromise bytes.now at result }
{
    let mut s = State::START;
    let mut search = Search {
        at,
        found: nothing(at),
        from: 0,
    };
    for (i, &b) in bytes.iter().enumerate() {
        let Some(t) = step(s, b) else {
            return nothing(at);
        };
        search = search.after(s, t, i + 1);
        s = t;
    }
    search.settled(s)
}

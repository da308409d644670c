// Section 3, append, lines 9 to 11: the list of the ending centres.
ghost use Rattle.std.specs.Prelude.{◌≡◌, ◌<◌};
ghost use Rattle.models.specs.IteratorCode.{link_in, unlink_in, unlinks_in};

use crate::reflection::reflection;
use cells::{Centre, Centres, entry, put};

// y comes after x. Both are below 65,536, as what is stored has 16 bits; that `as` loses nothing is proved of it.
pub fn link(centres: &mut Centres, x: Centre, y: Centre)
    requires { (x.0 < 65536) × (y.0 < 65536) }
    ensures { centres.new ≡ link_in centres.old x.0 y.0 }
{
    put(&mut centres.next, x, y.0 as u16);
    put(&mut centres.prev, y, x.0 as u16);
}

// c goes out of the list.
pub fn unlink(centres: &mut Centres, c: Centre)
    ensures { centres.new ≡ unlink_in centres.old c.0 }
{
    let before = entry(&centres.prev, c, 0);
    let after = entry(&centres.next, c, 0);
    put(&mut centres.next, Centre(usize::from(before)), after);
    put(&mut centres.prev, Centre(usize::from(after)), before);
}

// Of each centre of the lend list from `head` on the reflection at s goes out of the list; 0 ends a lend list.
pub fn unlinks(centres: &mut Centres, s: Centre, head: Centre)
    requires { s.0 < 65536 }
    ensures { centres.new ≡ unlinks_in s.0 head.0 head.0 centres.old }
{
    let mut x = head;
    while 0 < x.0 {
        unlink(centres, reflection(x, s));
        let y = Centre(usize::from(entry(&centres.lends, x, 0)));
        if x.0 <= y.0 {
            return;
        }
        x = y;
    }
}

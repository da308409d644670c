// Reflection at the longest ending's centre.
ghost use Rattle.std.specs.Prelude.{◌≡◌, ◌<◌};
ghost use Rattle.models.specs.Iterator.{reflection, reflected_radius};

use cells::{ByCentre, Centre, entry};

// The centre as far behind s as c is before it; the paper's refl. A stored centre is below 65,536, so twice s fits; a `Centre` that a
// caller asks with may be any number, so the type does not say it.
pub fn reflection(c: Centre, s: Centre) -> Centre
    requires { s.0 < 65536 }
    ensures { result.0 ≡ reflection c.0 s.0 }
{
    Centre((2 * s.0).saturating_sub(c.0))
}

// The radius at a centre c from s on: that at its reflection, cut at the end of the text.
pub fn reflected_radius(radius: &ByCentre, n: usize, s: Centre, c: Centre) -> usize
    requires { s.0 < 65536 }
    ensures { result ≡ reflected_radius radius.now n s.0 c.0 }
{
    let r = usize::from(entry(radius, reflection(c, s), 0));
    let left = n.saturating_sub(c.0 / 2);
    r.min(left)
}

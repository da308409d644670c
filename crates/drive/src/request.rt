// A call that the script asks for.
ghost use Rattle.std.specs.Prelude.{◌≡◌, ◌+◌, ◌*◌, ◌≤◌, length};
ghost use Rattle.drive.specs.Script.{call_size};
ghost use Rattle.drive.specs.Requests.{Requests};

use crate::numbers::Op;

// The bytes of a call, as C writes them.
pub const CALL_SIZE: usize = 6;

// The call, and its arguments.
#[derive(Clone, Copy)]
pub struct Request {
    pub op: Op,
    pub b: u8,
    pub x: usize,
    pub m: usize,
}

// The number of two bytes.
fn pair(low: u8, high: u8) -> usize
    ensures { result ≡ low + 256 * high }
{
    usize::from(u16::from_le_bytes([low, high]))
}

// The call of the first six bytes, if a call has the number.
pub fn request_of(script: &[u8]) -> Option<Request>
    requires { call_size ≤ length script.now }
    ensures { Requests script.now result }
{
    let op = Op::try_from(script[0]).ok()?;
    Some(Request {
        op,
        b: script[1],
        x: pair(script[2], script[3]),
        m: pair(script[4], script[5]),
    })
}

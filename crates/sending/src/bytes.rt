// Numbers of two and three bytes put into the feed's buffer, and the end record.
ghost use Rattle.std.specs.Prelude.{◌++◌, ◌+◌, ◌≤◌, length, take};
ghost use Rattle.laws.specs.Fields.{two_bytes, three_bytes};
ghost use Rattle.paper.specs.Feed.{fletcher_of};
ghost use Rattle.checksum.specs.Small.{Is};
ghost use Rattle.lettering.specs.Put.{HasRoom};
ghost use Rattle.sending.specs.Puts.{Sent, CanPutField, EventFits, end_of};

use checksum::fletcher;
use lettering::Pen;
use paper::Sum;

pub fn put_two(pen: &mut Pen, x: u32)
    requires { CanPutField x 65536 2 pen.old }
    ensures { Sent (two_bytes x) pen.old pen.new }
{
    pen.put_word(&[(x / 256) as u8, (x % 256) as u8]);
}

pub fn put_three(pen: &mut Pen, x: u32)
    requires { CanPutField x 16777216 3 pen.old }
    ensures { Sent (three_bytes x) pen.old pen.new }
{
    pen.put_word(&[(x / 65536) as u8, (x / 256 % 256) as u8, (x % 256) as u8]);
}

pub fn put_event(pen: &mut Pen, arrival: u32, departure: u32)
    requires { EventFits arrival departure pen.old }
    ensures { Sent (three_bytes arrival ++ three_bytes departure) pen.old pen.new }
{
    put_three(pen, arrival);
    put_three(pen, departure);
}

// The sum of what stands before the pen.
fn sum_before(pen: &Pen) -> Sum
    requires { HasRoom 0 pen.now }
    ensures { Is (fletcher_of (take pen.now.at pen.now.out.now)) result }
{
    fletcher(&pen.out[..pen.at])
}

// The end record: its mark, and the sum of all before it, the mark included.
pub fn put_end(pen: &mut Pen)
    requires { HasRoom 4 pen.old }
    ensures { Sent (end_of (take pen.old.at pen.old.out.now)) pen.old pen.new }
{
    pen.put_word(b"ED");
    let sum = sum_before(pen);
    pen.put_word(&[sum.first as u8, sum.second as u8]);
}

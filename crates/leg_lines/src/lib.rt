// The lines of an entry's legs, put into a buffer.
#![tactic(auto)]

ghost use Rattle.std.specs.Prelude.{[], ◌∷◌, ◌++◌, ◌+◌, ◌*◌, ◌-◌, ◌≤◌, length};
ghost use Rattle.laws.specs.Lists.{pieces};
ghost use Rattle.paper.specs.Lines.{space, newline, walked_word, leg_line};
ghost use Rattle.lettering.specs.Put.{HasRoom, Wrote};
ghost use Rattle.leg_lines.specs.Leg.{ride_words, LegRoom, RidesRoom};

use lettering::Pen;
use paper::MARK;

// The four numbers of a leg's ride.
fn put_ride(pen: &mut Pen, route: u32, trip: u32, board: u32, leave: u32)
    requires { HasRoom 43 pen.old }
    ensures { Wrote (ride_words route trip board leave) 43 pen.old pen.new }
{
    pen.put_decimal(route);
    pen.put_next(trip);
    pen.put_next(board);
    pen.put_next(leave);
}

// The stop walked to, or `-` for none.
fn put_walked(pen: &mut Pen, stop: u32)
    requires { HasRoom 10 pen.old }
    ensures { Wrote (walked_word stop) 10 pen.old pen.new }
{
    let none = stop == MARK;
    if none {
        pen.put_byte(b'-');
    } else {
        pen.put_decimal(stop);
    }
}

// The end of a leg's line: the stop walked to, between a space and the newline.
fn put_walk(pen: &mut Pen, stop: u32)
    requires { HasRoom 12 pen.old }
    ensures { Wrote ((space ∷ walked_word stop) ++ (newline ∷ [])) 12 pen.old pen.new }
{
    pen.put_byte(b' ');
    put_walked(pen, stop);
    pen.put_byte(b'\n');
}

// A leg's five numbers, which stand at `from` of the legs table.
fn put_leg(pen: &mut Pen, legs: &[u32], from: usize)
    requires { LegRoom from legs.now pen.old }
    ensures { Wrote (leg_line legs.now from) 55 pen.old pen.new }
{
    put_ride(
        pen,
        legs[from],
        legs[from + 1],
        legs[from + 2],
        legs[from + 3],
    );
    put_walk(pen, legs[from + 4]);
}

// The legs of an entry of so many rides, in row rides - 1 of the legs table.
pub fn put_legs(pen: &mut Pen, legs: &[u32], rides: usize)
    requires { RidesRoom 440 rides legs.now pen.old }
    ensures { Wrote (pieces rides (λ i. leg_line legs.now ((rides - 1) * 40 + i * 5))) 440 pen.old pen.new }
{
    for i in 0..rides {
        put_leg(pen, legs, (rides - 1) * 40 + i * 5);
    }
}

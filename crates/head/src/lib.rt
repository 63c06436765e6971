// The head record: its refusal, for the layer above, which has checked the feed's length.
#![tactic(auto)]

ghost use Rattle.std.specs.Prelude.{◌≤◌, length};
ghost use Rattle.paper.specs.Reading.{head_bad};
ghost use Rattle.head.specs.Head.{HeadDone};

use fields::Fields;
use paper::{Reason, Refusal};

// The tests in 01's order: mark, edition, counts. A byte is a right number of stops.
pub fn read_head(f: &[u8]) -> Result<(), Refusal>
    requires { 13 ≤ length f.now }
    ensures { HeadDone (head_bad f.now) result }
{
    let head = Fields { feed: f, at: 0 };
    if !head.begins(0x5448) {
        return Err(Reason::Form.at(0));
    }
    if head.byte(2) != 1 {
        return Err(Reason::Edition.at(2));
    }
    if head.byte(4) > 64 || head.two(5) > 512 {
        return Err(Reason::Count.at(0));
    }
    Ok(())
}

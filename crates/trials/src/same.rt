// Are the replies of both planners the same?
use paper::{Answer, Leg, MARK};
use second::Reply;

// What the first planner leaves: its labels and legs stood in tables that held 7 and have some elements more
// than their full size.
#[derive(Clone, Copy)]
pub struct First {
    pub labels: [u32; 2310],
    pub legs: [u32; 330],
    pub answer: Answer,
}

// Does the longer table hold what the other does, and 7 in the rest?
fn same_table(longer: &[u32], t: &[u32]) -> bool {
    match longer.split_at_checked(t.len()) {
        Some((table, rest)) => table == t && rest.iter().all(|x| *x == 7),
        None => false,
    }
}

// The legs as the legs table has them: five marks where there is none.
fn numbers_of(legs: &[[Option<Leg>; 8]; 8]) -> [[u32; 5]; 64] {
    let mut numbers = [[MARK; 5]; 64];
    for (row, leg) in numbers.iter_mut().zip(legs.as_flattened()) {
        if let Some(leg) = leg {
            let after = leg.after.unwrap_or(MARK);
            *row = [leg.route, leg.trip, leg.board, leg.leave, after];
        }
    }
    numbers
}

pub fn same_reply(first: &First, reply: &Reply) -> bool {
    same_table(&first.labels, reply.labels.as_flattened())
        && same_table(&first.legs, numbers_of(&reply.legs).as_flattened())
        && first.answer == reply.answer
}

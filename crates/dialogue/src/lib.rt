// A question's line answered in lines, over tables that were read.
#![tactic(auto)]

ghost use Rattle.std.specs.Prelude.{◌≤◌, length};
ghost use Rattle.paper.specs.Timetable.{lent};
ghost use Rattle.paper.specs.Lines.{refused_line, question_of, question_lines};
ghost use Rattle.dialogue.specs.Says.{Says};

use paper::{Lent, Reason, Refusal};

// A refusal's line, and its length.
pub fn refuse(refusal: Refusal, out: &mut [u8]) -> usize
    requires { 4311 ≤ length out.old }
    ensures { Says (refused_line refusal.number refusal.place) out.old out.new result }
{
    answer_lines::render_refusal(refusal, out).unwrap_or(0)
}

// The lines of the question in the input, asked of the timetable that was read.
pub fn answer(tables: Lent, input: &[u8], out: &mut [u8]) -> usize
    requires { 4311 ≤ length out.old }
    ensures { Says (question_lines (lent tables.entry) (question_of input.now)) out.old out.new result }
{
    let Some(q) = question_line::parse(input) else {
        return refuse(Reason::Question.at(0), out);
    };
    let mut labels = [0; 2304];
    let mut legs = [0; 320];
    let found = planner::ask(tables, &mut labels, &mut legs, q);
    answer_lines::render(found, &legs, out).unwrap_or(0)
}

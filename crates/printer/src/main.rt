// The printer: the feed from `timetable.bin`, one line from standard input, the answer in 01's lines on
// standard output.
#![tactic(auto)]

ghost use Rattle.std.specs.Prelude.{◌≤◌, length};
ghost use Rattle.paper.specs.Lines.{printed};
ghost use Rattle.dialogue.specs.Says.{Says};

use dialogue::{answer, refuse};
use filling::fill_from;
use paper::{Lent, Room};
use std::fs::File;
use std::io::Read;

// All that is printed for a feed and an input.
fn reply(feed: &[u8], input: &[u8], out: &mut [u8]) -> usize
    requires { 4311 ≤ length out.old }
    ensures { Says (printed feed.now input.now) out.old out.new result }
{
    let mut routes = [0; 256];
    let mut positions = [0; 2048];
    let mut arrivals = [0; 2048];
    let mut departures = [0; 2048];
    let mut walks = [0; 1536];
    let mut room = Room {
        routes: &mut routes,
        positions: &mut positions,
        arrivals: &mut arrivals,
        departures: &mut departures,
        walks: &mut walks,
    };
    match feed::read(feed, &mut room) {
        Err(refusal) => refuse(refusal, out),
        Ok(heads) => {
            let tables = Lent {
                heads,
                routes: &routes,
                positions: &positions,
                arrivals: &arrivals,
                departures: &departures,
                walks: &walks,
            };
            answer(tables, input, out)
        }
    }
}

// The bytes of the file, at most one more than the longest feed has; a missing file has none.
fn read_file(rt: &HostRuntime, feed: &mut [u8]) -> usize
    ensures { result ≤ length feed.new }
{
    match File::open(rt, "timetable.bin") {
        Ok(mut file) => fill_from(&mut file, feed),
        Err(_) => 0,
    }
}

// What standard input holds up to its first newline, or as far as a line can go.
fn read_line(rt: &impl Input, input: &mut [u8]) -> usize
    ensures { result ≤ length input.new }
{
    let mut reader = rt.reader();
    for n in 0..input.len() {
        let got = reader.read(&mut input[n..n + 1]).unwrap_or(0);
        if got == 0 {
            return n;
        }
        if input[n] == b'\n' {
            return n + 1;
        }
    }
    input.len()
}

fn main(rt: HostRuntime) {
    let mut feed = [0; 17870];
    let mut input = [0; 81];
    let mut out = [0; 4311];
    let size = read_file(&rt, &mut feed);
    let line = read_line(&rt, &mut input);
    let n = reply(&feed[..size], &input[..line], &mut out);
    // where nothing takes the answer, there is nobody to be told
    let _ = rt.write_all(&out[..n]);
}

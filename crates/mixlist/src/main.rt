// The program mixlist: a request on standard input, its answer on standard output (document 01, "The program").

#![tactic(auto)]

use lent::read_full;
use program_report::{INPUT_ROOM, OUTPUT_ROOM, report_read};

fn main(rt: HostRuntime) {
    let mut input = [0u8; INPUT_ROOM];
    let read = read_full(&mut rt.stdin(), &mut input);
    let mut output = [0u8; OUTPUT_ROOM];
    let written = report_read(&input, read, &mut output);
    drop(rt.write_all(&output[..written]));
}

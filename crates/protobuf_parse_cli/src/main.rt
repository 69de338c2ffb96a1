//! `protobuf_parse_cli`: see `protobuf_parse_command::command`.
#![tactic(auto)]

use protobuf_parse_command::run_program;
use std::io::IsTerminal;
use std::process::ExitCode;

fn main(rt: HostRuntime) -> ExitCode {
    let is_terminal = rt.stderr().is_terminal();
    ExitCode::from(run_program(&rt, is_terminal, &mut rt.stdout(), &mut rt.stderr()))
}
